//! The regions of the operands from which a region of a product of matrices is computed.
ghost use Rattle.std.specs.Prelude.{◌≡◌, ◌<◌, ◌≤◌, ◌+◌, ◌∷◌, [], length, take};
ghost use Rattle.cu_reduce.specs.Products.{batch_of};
ghost use Rattle.cu_op.specs.Arrays.{grid_at};
ghost use Rattle.cu_op.specs.Broadcast.{back_as};
ghost use Rattle.cu_op.specs.Matrix.{batch_rank, product_rank, left_numbers, right_numbers, first_inner, end_inner, IsProductRegion};
ghost use Rattle.cu_op.specs.Kind.Mul.{left_walk, right_walk};

use crate::layout::{ArrayInfo, grid_of};
use crate::regions::back_as;
use crate::walks::Walk;
use cu_grid::{Grid, Region};
use cu_shape::Dims;

/// The region of the left operand.
pub(crate) fn left_walk(arrays: &[ArrayInfo], left: u32, right: u32, region: &Region) -> Walk
    requires left { left < length arrays.now }
    requires right { right < length arrays.now }
    requires region { IsProductRegion (grid_at arrays.now left) (grid_at arrays.now right) region.now.lo region.now.hi }
    ensures { result ≡ left_walk arrays.now left right region.now.lo region.now.hi }
{
    let a = grid_of(arrays, left);
    let b = grid_of(arrays, right);
    let (first, end) = inner_bounds(&a, &b, region);
    Walk {
        array: left,
        region: Region {
            lo: left_numbers(0, a.shape(), b.shape(), &region.lo, first),
            hi: left_numbers(1, a.shape(), b.shape(), &region.hi, end),
        },
    }
}

/// The region of the right operand.
pub(crate) fn right_walk(arrays: &[ArrayInfo], left: u32, right: u32, region: &Region) -> Walk
    requires left { left < length arrays.now }
    requires right { right < length arrays.now }
    requires region { IsProductRegion (grid_at arrays.now left) (grid_at arrays.now right) region.now.lo region.now.hi }
    ensures { result ≡ right_walk arrays.now left right region.now.lo region.now.hi }
{
    let a = grid_of(arrays, left);
    let b = grid_of(arrays, right);
    let (first, end) = inner_bounds(&a, &b, region);
    Walk {
        array: right,
        region: Region {
            lo: right_numbers(0, a.shape(), b.shape(), &region.lo, first),
            hi: right_numbers(1, a.shape(), b.shape(), &region.hi, end),
        },
    }
}

/// The inner places that a region of the result takes: the first, and one past the last.
fn inner_bounds(a: &Grid, b: &Grid, region: &Region) -> (u64, u64)
    requires { IsProductRegion a.now b.now region.now.lo region.now.hi }
    ensures first { result.0 ≡ first_inner a.now b.now region.now.lo }
    ensures end { result.1 ≡ end_inner a.now b.now region.now.hi }
{
    let rank = product_rank(a.shape(), b.shape());
    let axis = a.shape().rank() - 1;
    let size = a.chunk().at(axis);
    let first = region.lo.at_or(rank, 0) * size;
    let end = region.hi.at_or(rank, 1) * size;
    (first, a.shape().at(axis).min(end))
}

/// How many axes the result has before the matrix.
fn batch_rank(a: &Dims, b: &Dims) -> u32
    ensures rank { result ≡ batch_rank a.now b.now }
    ensures short { result ≤ 6 }
{
    a.rank().saturating_sub(2).max(b.rank().saturating_sub(2))
}

/// How many axes the result has without the one that numbers parts.
fn product_rank(a: &Dims, b: &Dims) -> u32
    ensures { result ≡ product_rank a.now b.now }
{
    batch_rank(a, b) + a.outer_axes() + b.outer_axes()
}

/// The numbers of the axes before the matrix.
fn batch_numbers(one: u64, shape: &Dims, batch: u32, numbers: &Dims) -> Dims
    requires axes { length shape.now ≤ batch + 2 }
    requires within { batch ≤ length numbers.now }
    ensures numbers { result ≡ back_as one (batch_of shape.now) (take batch numbers.now) }
    ensures short { length result ≤ 4 }
{
    back_as(one, &shape.batch(), &numbers.first(batch))
}

/// A list of one number.
fn single(number: u64) -> Dims
    ensures { result ≡ number ∷ [] }
{
    let mut numbers = Dims::default();
    numbers.push(number);
    numbers
}

/// The numbers of the left operand's axes, from those of the result and that of the inner axis.
fn left_numbers(one: u64, a: &Dims, b: &Dims, numbers: &Dims, inner: u64) -> Dims
    requires { product_rank a.now b.now ≤ length numbers.now }
    ensures { result ≡ left_numbers one a.now b.now numbers.now inner }
{
    if a.rank() < 2 {
        return single(inner);
    }
    let batch = batch_rank(a, b);
    let mut read = batch_numbers(one, a, batch, numbers);
    read.push(numbers.at(batch));
    read.push(inner);
    read
}

/// The numbers of the right operand's axes.
fn right_numbers(one: u64, a: &Dims, b: &Dims, numbers: &Dims, inner: u64) -> Dims
    requires { product_rank a.now b.now ≤ length numbers.now }
    ensures { result ≡ right_numbers one a.now b.now numbers.now inner }
{
    if b.rank() < 2 {
        return single(inner);
    }
    let batch = batch_rank(a, b);
    let mut read = batch_numbers(one, b, batch, numbers);
    read.push(inner);
    read.push(numbers.at(batch + a.outer_axes()));
    read
}
