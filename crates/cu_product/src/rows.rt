//! The product of two matrices, row by row: to a row of the result comes a row of the right matrix, as often as an element of the left
//! one says, wrapped on the way.

ghost use Rattle.std.specs.Prelude.{◌≡◌, ◌≤◌, ◌*◌, ◌+◌, ◌<◌, ℕ, ℤ, ◌+ℤ◌, ◌*ℤ◌, pos, length};
ghost use Rattle.cu_num.specs.Dtype.{size_of, InRange, IsInteger};
ghost use Rattle.cu_reduce.specs.Numbers.{HasNumber};
ghost use Rattle.cu_product.specs.Matrices.{HasProducts, numbers, row_product};

use cu_num::{Dtype, Fn2, load, save, scalar2, size, wrap};

/// The rows of the left matrix, its columns, which are the rows of the right one, and the columns of the right matrix.
#[derive(Clone, Copy)]
pub(crate) struct MatrixSizes {
    pub(crate) rows: usize,
    pub(crate) inner: usize,
    pub(crate) columns: usize,
}

/// Writes 0 into each element.
#[inline(always)]
pub(crate) fn clear(t: Dtype, out: &mut [u8])
    ensures { (j : ℕ) → j * size_of t + size_of t ≤ length out.new → HasNumber t out.new j (pos 0) }
{
    for at in 0..out.len() / size(t) as usize {
        save(t, 0, out, at);
    }
}

/// Adds to each element of a row `x` times that of another.
#[inline(always)]
fn add_multiple(t: Dtype, right_t: Dtype, x: i128, row: &[u8], out: &mut [u8], columns: usize)
    requires integer { IsInteger t }
    requires factor { InRange t x }
    requires row { length row.now ≡ columns * size_of right_t }
    requires out { length out.old ≡ columns * size_of t }
    ensures { (j : ℕ) (s : ℤ) → j < columns → HasNumber t out.old j s → HasNumber t out.new j (s +ℤ x *ℤ numbers right_t row.now j) }
{
    for at in 0..columns {
        let y = wrap(t, load(right_t, row, at));
        let more = scalar2(Fn2::Multiply, t, x, y);
        let sum = scalar2(Fn2::Add, t, load(t, out, at), more);
        save(t, sum, out, at);
    }
}

/// A row of the product: `row` is that of the left matrix, of which `sizes` counts the columns.
#[inline(always)]
fn multiply_row(
    left_t: Dtype,
    right_t: Dtype,
    t: Dtype,
    sizes: MatrixSizes,
    row: &[u8],
    right: &[u8],
    out: &mut [u8],
)
    requires integer { IsInteger t }
    requires some { 0 < sizes.inner }
    requires row { length row.now ≡ sizes.inner * size_of left_t }
    requires right { length right.now ≡ sizes.inner * sizes.columns * size_of right_t }
    requires out { length out.old ≡ sizes.columns * size_of t }
    ensures { (j : ℕ) → j < sizes.columns → HasNumber t out.new j (row_product sizes.inner sizes.columns (numbers left_t row.now) (numbers right_t right.now) j) }
{
    clear(t, out);
    let columns = sizes.columns;
    let room = columns * size(right_t) as usize;
    for q in 0..sizes.inner {
        let x = wrap(t, load(left_t, row, q));
        add_multiple(
            t,
            right_t,
            x,
            &right[q * room..(q + 1) * room],
            out,
            columns,
        );
    }
}

/// The product of two matrices.
#[inline(always)]
pub(crate) fn multiply_rows(
    left_t: Dtype,
    right_t: Dtype,
    t: Dtype,
    sizes: MatrixSizes,
    left: &[u8],
    right: &[u8],
    out: &mut [u8],
)
    requires integer { IsInteger t }
    requires some_rows { 0 < sizes.rows }
    requires some { 0 < sizes.inner }
    requires left { length left.now ≡ sizes.rows * sizes.inner * size_of left_t }
    requires right { length right.now ≡ sizes.inner * sizes.columns * size_of right_t }
    requires out { length out.old ≡ sizes.rows * sizes.columns * size_of t }
    ensures { HasProducts sizes (numbers left_t left.now) (numbers right_t right.now) t out.new }
{
    let row_room = sizes.inner * size(left_t) as usize;
    let out_room = sizes.columns * size(t) as usize;
    for i in 0..sizes.rows {
        let row = &left[i * row_room..(i + 1) * row_room];
        let part = &mut out[i * out_room..(i + 1) * out_room];
        multiply_row(left_t, right_t, t, sizes, row, right, part);
    }
}
