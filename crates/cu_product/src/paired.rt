//! The product of two matrices of one type, eight columns at a time, and two inner places by one multiplication (S. Winograd, "A New
//! Algorithm for Inner Product", IEEE Transactions on Computers, 1968). The eight columns lie in a panel of nine, where the two numbers
//! of a pair lie side by side, which a compiler doesn't take for vectors. The ninth column has zeros: its sum is the part of each sum
//! that depends on the row alone.

ghost use Rattle.std.specs.Prelude.{◌≡◌, ◌≢◌, ◌≤◌, ◌*◌, ◌/◌, ◌%◌, ◌+◌, ◌<◌, ℕ, ℤ, ◌+ℤ◌, ◌-ℤ◌, ◌*ℤ◌, pos, length};
ghost use Rattle.cu_num.specs.Dtype.{size_of, InRange, IsInteger};
ghost use Rattle.cu_num.specs.Element.{bytes_at};
ghost use Rattle.cu_reduce.specs.Numbers.{HasNumber};
ghost use Rattle.cu_product.specs.Block.{inner_product};
ghost use Rattle.cu_product.specs.Matrices.{HasProducts, numbers};
ghost use Rattle.cu_product.specs.Pairs.{pairs, column};

use crate::rows::{MatrixSizes, clear};
use cu_num::{Dtype, Fn2, load, save, scalar2, size};

/// Adds to each of nine sums what two inner places give: `x` and `y` are the numbers of the left row, `pair` has those of the panel.
#[inline(always)]
fn add_pairs(t: Dtype, x: i128, y: i128, pair: &[u8], out: &mut [u8])
    requires integer { IsInteger t }
    requires own { InRange t x }
    requires next { InRange t y }
    requires pair { length pair.now ≡ 18 * size_of t }
    requires out { length out.old ≡ 9 * size_of t }
    ensures { (j : ℕ) (s : ℤ) → j < 9 → HasNumber t out.old j s → HasNumber t out.new j (s +ℤ (x +ℤ numbers t pair.now (2 * j + 1)) *ℤ (y +ℤ numbers t pair.now (2 * j))) }
{
    for at in 0..9 {
        let one = scalar2(Fn2::Add, t, x, load(t, pair, 2 * at + 1));
        let other = scalar2(Fn2::Add, t, y, load(t, pair, 2 * at));
        let more = scalar2(Fn2::Multiply, t, one, other);
        let sum = scalar2(Fn2::Add, t, load(t, out, at), more);
        save(t, sum, out, at);
    }
}

/// The sums over the pairs of places of a row, for each column of a panel.
#[inline(always)]
fn pair_sums(t: Dtype, half: usize, row: &[u8], panel: &[u8], out: &mut [u8])
    requires integer { IsInteger t }
    requires some { 0 < half }
    requires few { half ≤ 256 }
    requires row { length row.now ≡ 2 * half * size_of t }
    requires panel { length panel.now ≡ half * (18 * size_of t) }
    requires out { length out.old ≡ 9 * size_of t }
    ensures { (j : ℕ) → j < 9 → HasNumber t out.new j (pairs (numbers t row.now) (column t panel.now j) half) }
{
    clear(t, out);
    let room = 18 * size(t) as usize;
    for p in 0..half {
        let x = load(t, row, 2 * p);
        let y = load(t, row, 2 * p + 1);
        add_pairs(t, x, y, &panel[p * room..(p + 1) * room], out);
    }
}

/// Eight elements of the product: the sums but for what the columns and the row give by themselves.
#[inline(always)]
fn finish(t: Dtype, sums: &[u8], own: &[u8], out: &mut [u8])
    requires integer { IsInteger t }
    requires sums { length sums.now ≡ 9 * size_of t }
    requires own { length own.now ≡ 9 * size_of t }
    requires out { length out.old ≡ 8 * size_of t }
    ensures { (j : ℕ) (s r w : ℤ) → j < 8 → HasNumber t sums.now j s → HasNumber t own.now j r → HasNumber t sums.now 8 w → HasNumber t out.new j (s -ℤ r -ℤ w) }
{
    for at in 0..8 {
        let less = scalar2(Fn2::Subtract, t, load(t, sums, at), load(t, own, at));
        let left = scalar2(Fn2::Subtract, t, less, load(t, sums, 8));
        save(t, left, out, at);
    }
}

/// Eight elements of a row of the product.
#[inline(always)]
fn multiply_part(t: Dtype, half: usize, row: &[u8], panel: &[u8], own: &[u8], out: &mut [u8])
    requires integer { IsInteger t }
    requires some { 0 < half }
    requires few { half ≤ 256 }
    requires row { length row.now ≡ 2 * half * size_of t }
    requires panel { length panel.now ≡ half * (18 * size_of t) }
    requires zeros { (q : ℕ) → q < 2 * half → column t panel.now 8 q ≡ pos 0 }
    requires own { length own.now ≡ 9 * size_of t }
    requires own_sums { (j : ℕ) → j < 9 → HasNumber t own.now j (pairs (λ q. pos 0) (column t panel.now j) half) }
    requires out { length out.old ≡ 8 * size_of t }
    ensures { (j : ℕ) → j < 8 → HasNumber t out.new j (inner_product (numbers t row.now) (column t panel.now j) (2 * half)) }
{
    let mut buffer = [0u8; 72];
    let sums = &mut buffer[..9 * size(t) as usize];
    pair_sums(t, half, row, panel, sums);
    finish(t, sums, own, out);
}

/// What the columns of a panel give by themselves: their sums with a row of zeros.
#[inline(always)]
fn own_sums(t: Dtype, half: usize, panel: &[u8], out: &mut [u8])
    requires integer { IsInteger t }
    requires some { 0 < half }
    requires few { half ≤ 256 }
    requires panel { length panel.now ≡ half * (18 * size_of t) }
    requires out { length out.old ≡ 9 * size_of t }
    ensures { (j : ℕ) → j < 9 → HasNumber t out.new j (pairs (λ q. pos 0) (column t panel.now j) half) }
{
    let mut zeros = [0u8; 4096];
    let row = &mut zeros[..2 * half * size(t) as usize];
    clear(t, row);
    pair_sums(t, half, row, panel, out);
}

/// Copies a column of the right matrix into column `j` of a panel.
#[inline(always)]
fn gather_column(
    t: Dtype,
    sizes: MatrixSizes,
    from: usize,
    j: usize,
    right: &[u8],
    panel: &mut [u8],
)
    requires integer { IsInteger t }
    requires from { from < sizes.columns }
    requires even { sizes.inner % 2 ≡ 0 }
    requires to { j < 9 }
    requires right { length right.now ≡ sizes.inner * sizes.columns * size_of t }
    requires panel { length panel.old ≡ sizes.inner / 2 * (18 * size_of t) }
    ensures taken { (q : ℕ) → q < sizes.inner → HasNumber t panel.new (q / 2 * 18 + 2 * j + q % 2) (numbers t right.now (q * sizes.columns + from)) }
    ensures others { (q k : ℕ) → k < 9 → k ≢ j → bytes_at t panel.new (q / 2 * 18 + 2 * k + q % 2) ≡ bytes_at t panel.old (q / 2 * 18 + 2 * k + q % 2) }
{
    for q in 0..sizes.inner {
        save(
            t,
            load(t, right, q * sizes.columns + from),
            panel,
            q / 2 * 18 + 2 * j + q % 2,
        );
    }
}

/// Copies eight columns of the right matrix into the first eight of a panel.
#[inline(always)]
fn gather(t: Dtype, sizes: MatrixSizes, first: usize, right: &[u8], panel: &mut [u8])
    requires integer { IsInteger t }
    requires fits { first + 8 ≤ sizes.columns }
    requires even { sizes.inner % 2 ≡ 0 }
    requires right { length right.now ≡ sizes.inner * sizes.columns * size_of t }
    requires panel { length panel.old ≡ sizes.inner / 2 * (18 * size_of t) }
    ensures taken { (q j : ℕ) → q < sizes.inner → j < 8 → HasNumber t panel.new (q / 2 * 18 + 2 * j + q % 2) (numbers t right.now (q * sizes.columns + (first + j))) }
    ensures others { (q : ℕ) → bytes_at t panel.new (q / 2 * 18 + 16 + q % 2) ≡ bytes_at t panel.old (q / 2 * 18 + 16 + q % 2) }
{
    for j in 0..8 {
        gather_column(t, sizes, first + j, j, right, panel);
    }
}

/// Eight columns of the product, from `first` on.
#[inline(always)]
fn multiply_panel(
    t: Dtype,
    sizes: MatrixSizes,
    first: usize,
    left: &[u8],
    panel: &[u8],
    own: &[u8],
    out: &mut [u8],
)
    requires integer { IsInteger t }
    requires some_rows { 0 < sizes.rows }
    requires some { 0 < sizes.inner }
    requires few { sizes.inner ≤ 512 }
    requires even { sizes.inner % 2 ≡ 0 }
    requires fits { first + 8 ≤ sizes.columns }
    requires left { length left.now ≡ sizes.rows * sizes.inner * size_of t }
    requires panel { length panel.now ≡ sizes.inner / 2 * (18 * size_of t) }
    requires zeros { (q : ℕ) → q < sizes.inner → column t panel.now 8 q ≡ pos 0 }
    requires own { length own.now ≡ 9 * size_of t }
    requires own_sums { (j : ℕ) → j < 9 → HasNumber t own.now j (pairs (λ q. pos 0) (column t panel.now j) (sizes.inner / 2)) }
    requires out { length out.old ≡ sizes.rows * sizes.columns * size_of t }
    ensures products { (i j : ℕ) → i < sizes.rows → j < 8
        → HasNumber t out.new (i * sizes.columns + (first + j)) (inner_product (λ q. numbers t left.now (i * sizes.inner + q)) (column t panel.now j) sizes.inner) }
    ensures others { (i j : ℕ) → i < sizes.rows → j < first → bytes_at t out.new (i * sizes.columns + j) ≡ bytes_at t out.old (i * sizes.columns + j) }
{
    let width = size(t) as usize;
    let row_room = sizes.inner * width;
    for i in 0..sizes.rows {
        let row = &left[i * row_room..(i + 1) * row_room];
        let at = (i * sizes.columns + first) * width;
        multiply_part(
            t,
            sizes.inner / 2,
            row,
            panel,
            own,
            &mut out[at..at + 8 * width],
        );
    }
}

/// The product of two matrices of eight columns and more, with an even number of inner places, at most 512.
#[inline(always)]
pub(crate) fn multiply_paired(
    t: Dtype,
    sizes: MatrixSizes,
    left: &[u8],
    right: &[u8],
    out: &mut [u8],
)
    requires integer { IsInteger t }
    requires some_rows { 0 < sizes.rows }
    requires some { 0 < sizes.inner }
    requires few { sizes.inner ≤ 512 }
    requires even { sizes.inner % 2 ≡ 0 }
    requires columns { 8 ≤ sizes.columns }
    requires left { length left.now ≡ sizes.rows * sizes.inner * size_of t }
    requires right { length right.now ≡ sizes.inner * sizes.columns * size_of t }
    requires out { length out.old ≡ sizes.rows * sizes.columns * size_of t }
    ensures { HasProducts sizes (numbers t left.now) (numbers t right.now) t out.new }
{
    let mut buffer = [0u8; 36864];
    let panel = &mut buffer[..sizes.inner / 2 * (18 * size(t) as usize)];
    clear(t, panel);
    let mut sums = [0u8; 72];
    let own = &mut sums[..9 * size(t) as usize];
    let mut done = 0;
    while done < sizes.columns {
        let first = done.min(sizes.columns - 8);
        gather(t, sizes, first, right, panel);
        own_sums(t, sizes.inner / 2, panel, own);
        multiply_panel(t, sizes, first, left, panel, own, out);
        done = first + 8;
    }
}
