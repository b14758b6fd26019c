//! The product of two matrices, with loops for each pair of types.

ghost use Rattle.std.specs.Prelude.{◌≡◌, ◌*◌, ◌%◌, ◌<◌, ◌≤◌, true, length};
ghost use Rattle.cu_num.specs.Dtype.{size_of, IsInteger};
ghost use Rattle.cu_num.specs.declared.types.Dtype.{Dtype};
ghost use Rattle.cu_product.specs.Matrices.{HasProducts, numbers};

use crate::column::multiply_column;
use crate::paired::multiply_paired;
use crate::rows::{MatrixSizes, multiply_rows};
use cu_num::Dtype;

/// A type of elements, known where loops are built.
trait Element {
    ghost TYPE: { Dtype };

    const TYPE: Dtype;
}

impl Element for i8 {
    ghost TYPE = { Dtype.Int8 };

    const TYPE: Dtype = Dtype::Int8;
}

impl Element for i16 {
    ghost TYPE = { Dtype.Int16 };

    const TYPE: Dtype = Dtype::Int16;
}

impl Element for i32 {
    ghost TYPE = { Dtype.Int32 };

    const TYPE: Dtype = Dtype::Int32;
}

impl Element for i64 {
    ghost TYPE = { Dtype.Int64 };

    const TYPE: Dtype = Dtype::Int64;
}

impl Element for u8 {
    ghost TYPE = { Dtype.Uint8 };

    const TYPE: Dtype = Dtype::Uint8;
}

impl Element for u16 {
    ghost TYPE = { Dtype.Uint16 };

    const TYPE: Dtype = Dtype::Uint16;
}

impl Element for u32 {
    ghost TYPE = { Dtype.Uint32 };

    const TYPE: Dtype = Dtype::Uint32;
}

impl Element for u64 {
    ghost TYPE = { Dtype.Uint64 };

    const TYPE: Dtype = Dtype::Uint64;
}

/// The product of two matrices. Each type of results has a call of its own, so that its loops are built apart.
pub(crate) fn multiply_matrices(
    left_t: Dtype,
    right_t: Dtype,
    t: Dtype,
    sizes: MatrixSizes,
    left: &[u8],
    right: &[u8],
    out: &mut [u8],
)
    requires integer { IsInteger t }
    requires some_rows { 0 < sizes.rows }
    requires some { 0 < sizes.inner }
    requires left { length left.now ≡ sizes.rows * sizes.inner * size_of left_t }
    requires right { length right.now ≡ sizes.inner * sizes.columns * size_of right_t }
    requires out { length out.old ≡ sizes.rows * sizes.columns * size_of t }
    ensures { HasProducts sizes (numbers left_t left.now) (numbers right_t right.now) t out.new }
{
    match t {
        Dtype::Bool => unreachable!(),
        Dtype::Int8 => into::<i8>(left_t, right_t, sizes, left, right, out),
        Dtype::Int16 => into::<i16>(left_t, right_t, sizes, left, right, out),
        Dtype::Int32 => into::<i32>(left_t, right_t, sizes, left, right, out),
        Dtype::Int64 => into::<i64>(left_t, right_t, sizes, left, right, out),
        Dtype::Uint8 => into::<u8>(left_t, right_t, sizes, left, right, out),
        Dtype::Uint16 => into::<u16>(left_t, right_t, sizes, left, right, out),
        Dtype::Uint32 => into::<u32>(left_t, right_t, sizes, left, right, out),
        Dtype::Uint64 => into::<u64>(left_t, right_t, sizes, left, right, out),
    }
}

/// Of results of this type, in loops of their own.
#[inline(never)]
fn into<T: Element>(
    left_t: Dtype,
    right_t: Dtype,
    sizes: MatrixSizes,
    left: &[u8],
    right: &[u8],
    out: &mut [u8],
)
    requires integer { IsInteger T.TYPE }
    requires some_rows { 0 < sizes.rows }
    requires some { 0 < sizes.inner }
    requires left { length left.now ≡ sizes.rows * sizes.inner * size_of left_t }
    requires right { length right.now ≡ sizes.inner * sizes.columns * size_of right_t }
    requires out { length out.old ≡ sizes.rows * sizes.columns * size_of T.TYPE }
    ensures { HasProducts sizes (numbers left_t left.now) (numbers right_t right.now) T.TYPE out.new }
{
    by_types(left_t, right_t, T::TYPE, sizes, left, right, out);
}

/// Operands that have the type of the result are most frequent.
#[inline(always)]
fn by_types(
    left_t: Dtype,
    right_t: Dtype,
    t: Dtype,
    sizes: MatrixSizes,
    left: &[u8],
    right: &[u8],
    out: &mut [u8],
)
    requires integer { IsInteger t }
    requires some_rows { 0 < sizes.rows }
    requires some { 0 < sizes.inner }
    requires left { length left.now ≡ sizes.rows * sizes.inner * size_of left_t }
    requires right { length right.now ≡ sizes.inner * sizes.columns * size_of right_t }
    requires out { length out.old ≡ sizes.rows * sizes.columns * size_of t }
    ensures { HasProducts sizes (numbers left_t left.now) (numbers right_t right.now) t out.new }
{
    if left_t == t && right_t == t {
        of_one_type(t, sizes, left, right, out);
    } else {
        by_right_type(left_t, right_t, t, sizes, left, right, out);
    }
}

/// Of operands that have the type of the result.
#[inline(always)]
fn of_one_type(t: Dtype, sizes: MatrixSizes, left: &[u8], right: &[u8], out: &mut [u8])
    requires integer { IsInteger t }
    requires some_rows { 0 < sizes.rows }
    requires some { 0 < sizes.inner }
    requires left { length left.now ≡ sizes.rows * sizes.inner * size_of t }
    requires right { length right.now ≡ sizes.inner * sizes.columns * size_of t }
    requires out { length out.old ≡ sizes.rows * sizes.columns * size_of t }
    ensures { HasProducts sizes (numbers t left.now) (numbers t right.now) t out.new }
{
    if sizes.columns == 1 {
        multiply_column(t, sizes, left, right, out);
        return;
    }
    match t {
        Dtype::Int64 if has_pairs(sizes) => paired::<i64>(sizes, left, right, out),
        Dtype::Uint64 if has_pairs(sizes) => paired::<u64>(sizes, left, right, out),
        _ => multiply_rows(t, t, t, sizes, left, right, out),
    }
}

/// Whether two inner places can be taken by one multiplication, with as many rows as repay the copies of the right matrix.
#[inline(always)]
fn has_pairs(sizes: MatrixSizes) -> bool
    ensures columns { result ≡ true → 8 ≤ sizes.columns }
    ensures few { result ≡ true → sizes.inner ≤ 512 }
    ensures even { result ≡ true → sizes.inner % 2 ≡ 0 }
{
    sizes.rows >= 16 && sizes.columns >= 8 && sizes.inner <= 512 && sizes.inner % 2 == 0
}

/// By pairs of inner places, in loops of their own.
#[inline(never)]
fn paired<T: Element>(sizes: MatrixSizes, left: &[u8], right: &[u8], out: &mut [u8])
    requires integer { IsInteger T.TYPE }
    requires some_rows { 0 < sizes.rows }
    requires some { 0 < sizes.inner }
    requires few { sizes.inner ≤ 512 }
    requires even { sizes.inner % 2 ≡ 0 }
    requires columns { 8 ≤ sizes.columns }
    requires left { length left.now ≡ sizes.rows * sizes.inner * size_of T.TYPE }
    requires right { length right.now ≡ sizes.inner * sizes.columns * size_of T.TYPE }
    requires out { length out.old ≡ sizes.rows * sizes.columns * size_of T.TYPE }
    ensures { HasProducts sizes (numbers T.TYPE left.now) (numbers T.TYPE right.now) T.TYPE out.new }
{
    multiply_paired(T::TYPE, sizes, left, right, out);
}

/// By the type of the right operand, whose rows are read again and again.
#[inline(always)]
fn by_right_type(
    left_t: Dtype,
    right_t: Dtype,
    t: Dtype,
    sizes: MatrixSizes,
    left: &[u8],
    right: &[u8],
    out: &mut [u8],
)
    requires integer { IsInteger t }
    requires some_rows { 0 < sizes.rows }
    requires some { 0 < sizes.inner }
    requires left { length left.now ≡ sizes.rows * sizes.inner * size_of left_t }
    requires right { length right.now ≡ sizes.inner * sizes.columns * size_of right_t }
    requires out { length out.old ≡ sizes.rows * sizes.columns * size_of t }
    ensures { HasProducts sizes (numbers left_t left.now) (numbers right_t right.now) t out.new }
{
    match right_t {
        Dtype::Bool => multiply_rows(left_t, Dtype::Bool, t, sizes, left, right, out),
        Dtype::Int8 => multiply_rows(left_t, Dtype::Int8, t, sizes, left, right, out),
        Dtype::Int16 => multiply_rows(left_t, Dtype::Int16, t, sizes, left, right, out),
        Dtype::Int32 => multiply_rows(left_t, Dtype::Int32, t, sizes, left, right, out),
        Dtype::Int64 => multiply_rows(left_t, Dtype::Int64, t, sizes, left, right, out),
        Dtype::Uint8 => multiply_rows(left_t, Dtype::Uint8, t, sizes, left, right, out),
        Dtype::Uint16 => multiply_rows(left_t, Dtype::Uint16, t, sizes, left, right, out),
        Dtype::Uint32 => multiply_rows(left_t, Dtype::Uint32, t, sizes, left, right, out),
        Dtype::Uint64 => multiply_rows(left_t, Dtype::Uint64, t, sizes, left, right, out),
    }
}
