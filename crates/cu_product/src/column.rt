//! The product of a matrix by a column of its own type.

ghost use Rattle.std.specs.Prelude.{◌≡◌, ◌*◌, ◌<◌, pos, length};
ghost use Rattle.cu_num.specs.Dtype.{size_of, IsInteger};
ghost use Rattle.cu_reduce.specs.Numbers.{HasNumber};
ghost use Rattle.cu_product.specs.Block.{inner_product};
ghost use Rattle.cu_product.specs.Matrices.{HasProducts, numbers};

use crate::rows::MatrixSizes;
use cu_num::{Dtype, Fn2, load, save, scalar2, size};

/// The number 0.
#[inline(always)]
fn zero(t: Dtype) -> [u8; 8]
    ensures { HasNumber t result 0 (pos 0) }
{
    let mut bytes = [0; 8];
    save(t, 0, &mut bytes, 0);
    bytes
}

/// The sum of the products of a row and a column, as the first of eight bytes, which a compiler keeps in a register of the type's width.
#[inline(always)]
fn summed(t: Dtype, inner: usize, row: &[u8], column: &[u8]) -> [u8; 8]
    requires integer { IsInteger t }
    requires row { length row.now ≡ inner * size_of t }
    requires column { length column.now ≡ inner * size_of t }
    ensures { HasNumber t result 0 (inner_product (numbers t row.now) (numbers t column.now) inner) }
{
    let mut sum = zero(t);
    for q in 0..inner {
        let more = scalar2(Fn2::Multiply, t, load(t, row, q), load(t, column, q));
        let total = scalar2(Fn2::Add, t, load(t, &sum, 0), more);
        save(t, total, &mut sum, 0);
    }
    sum
}

/// The product of a matrix by one column.
#[inline(always)]
pub(crate) fn multiply_column(
    t: Dtype,
    sizes: MatrixSizes,
    left: &[u8],
    column: &[u8],
    out: &mut [u8],
)
    requires integer { IsInteger t }
    requires one { sizes.columns ≡ 1 }
    requires some_rows { 0 < sizes.rows }
    requires left { length left.now ≡ sizes.rows * sizes.inner * size_of t }
    requires column { length column.now ≡ sizes.inner * size_of t }
    requires out { length out.old ≡ sizes.rows * size_of t }
    ensures { HasProducts sizes (numbers t left.now) (numbers t column.now) t out.new }
{
    let room = sizes.inner * size(t) as usize;
    for i in 0..sizes.rows {
        let sum = summed(t, sizes.inner, &left[i * room..(i + 1) * room], column);
        save(t, load(t, &sum, 0), out, i);
    }
}
