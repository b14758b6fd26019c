//! Views with another shape or chunk shape.
ghost use Rattle.std.specs.Prelude.{◌≡◌, ◌*◌, ◌/◌, [], ◌∷◌, ◌<◌, ◌≤◌, All, IfOk, length, min};
ghost use Rattle.cu_shape.specs.Index.{product};
ghost use Rattle.cu_node.specs.Info.{IsInfo};
ghost use Rattle.cu_typing_view.specs.Reshaped.{given, leaves_one, can_hold, filled, chunk_size, chunk_of, are_stretched, stretches_to, typed_reshape, typed_broadcast, typed_rechunk};

use cu_node::{FaultCode, NodeFault, NodeInfo, fault, fault_at, within_limits, within_limits_list};
use cu_shape::Dims;

/// One more than the most elements of an array.
const PAST_ELEMENTS: u64 = 0x100_0000_0001;

/// The same elements in row-major order in another shape, of which one size may be negative, which stands for the size that is
/// left. On each axis, from the last on, a chunk has as many elements as are left of the argument's chunk, up to the size. The
/// first of these faults is answered: ReshapeSize where the shape does not hold as many elements, Limit.
pub(crate) fn type_reshape(array: &NodeInfo, shape: &[i64]) -> Result<NodeInfo, NodeFault>
    requires { IsInfo array.now }
    ensures value { result ≡ typed_reshape array.now shape.now }
    ensures kept { IfOk result IsInfo }
{
    let count = elements_of(array);
    let known = given_product(shape);
    if !can_hold(count, known, shape) {
        return Err(fault(FaultCode::ReshapeSize));
    }
    if shape.len() > 6 {
        return Err(fault_at(FaultCode::Limit, 1));
    }
    let sizes = filled(left_size(count, known, shape), shape);
    let chunk = chunk_of(chunk_elements(array), &sizes);
    within_limits(true, array.dtype, sizes, chunk)
}

/// The array read at index 0 along the axes on which it has size 1 or that it lacks, in a shape and chunks that are given. The
/// first of these faults is answered: Shape where the array does not broadcast to the shape or the chunk shape has another
/// rank, Limit.
pub fn type_broadcast(array: &NodeInfo, shape: &[u64], chunk: &[u64]) -> Result<NodeInfo, NodeFault>
    requires kept { IsInfo array.now }
    requires positive { All (λ c. 0 < c) chunk.now }
    ensures value { result ≡ typed_broadcast array.now shape.now chunk.now }
    ensures kept { IfOk result IsInfo }
{
    if !stretches_to(&array.dims, shape) {
        return Err(fault(FaultCode::Shape));
    }
    if chunk.len() != shape.len() {
        return Err(fault(FaultCode::Shape));
    }
    within_limits_list(array.dtype, shape, chunk)
}

/// The same elements in other chunks. The first of these faults is answered: Shape where the chunk shape has another rank,
/// Limit.
pub fn type_rechunk(array: &NodeInfo, chunk: &[u64]) -> Result<NodeInfo, NodeFault>
    requires kept { IsInfo array.now }
    requires positive { All (λ c. 0 < c) chunk.now }
    ensures value { result ≡ typed_rechunk array.now chunk.now }
    ensures kept { IfOk result IsInfo }
{
    if chunk.len() != array.dims.rank() as usize {
        return Err(fault(FaultCode::Shape));
    }
    match Dims::make(chunk) {
        Ok(chunk) => within_limits(true, array.dtype, array.dims, chunk),
        Err(_) => unreachable!(),
    }
}

/// The number of elements of an array, at most 2^40.
fn elements_of(array: &NodeInfo) -> u64
    requires { IsInfo array.now }
    ensures value { result ≡ product array.now.dims }
    ensures small { result < 1099511627777 }
{
    match array.dims.elements() {
        Some(count) => count,
        None => unreachable!(),
    }
}

/// The number of elements of a chunk.
fn chunk_elements(array: &NodeInfo) -> u64
    requires { IsInfo array.now }
    ensures { result ≡ product array.now.chunk }
{
    match array.chunk.elements() {
        Some(count) => count,
        None => unreachable!(),
    }
}

/// The product with one more size, where it is given, and 2^40 + 1 where it is more.
fn capped(count: u64, size: &i64) -> u64
    requires { count ≤ 1099511627777 }
    ensures { result ≡ min (count * product (given (size.now ∷ []))) 1099511627777 }
{
    if *size >= 0 {
        count.saturating_mul(*size as u64).min(PAST_ELEMENTS)
    } else {
        count
    }
}

/// The product of the sizes that are given, and 2^40 + 1 where it is more.
fn given_product(shape: &[i64]) -> u64
    ensures { result ≡ min (product (given shape.now)) 1099511627777 }
{
    let mut count = 1u64;
    for size in shape {
        count = capped(count, size);
    }
    count
}

/// Whether one size is left.
fn leaves_one(shape: &[i64]) -> bool
    ensures { result ≡ leaves_one shape.now }
{
    shape.iter().any(|size| *size < 0)
}

/// Whether the shape holds so many elements, of which the sizes that are given have this product.
fn can_hold(count: u64, known: u64, shape: &[i64]) -> bool
    requires small { count < 1099511627777 }
    requires known { known ≡ min (product (given shape.now)) 1099511627777 }
    ensures { result ≡ can_hold count shape.now }
{
    if leaves_one(shape) {
        known != 0 && count % known == 0
    } else {
        known == count
    }
}

/// The size that is left, 0 where the others have product 0.
fn left_size(count: u64, known: u64, shape: &[i64]) -> u64
    requires small { count < 1099511627777 }
    requires known { known ≡ min (product (given shape.now)) 1099511627777 }
    ensures { result ≡ count / product (given shape.now) }
{
    if known == 0 { 0 } else { count / known }
}

/// The sizes, with this number for each that is left.
fn filled(left: u64, shape: &[i64]) -> Dims
    requires { length shape.now ≤ 6 }
    ensures { result ≡ filled left shape.now }
{
    let mut sizes = Dims::default();
    for size in shape {
        sizes.push(if *size < 0 { left } else { *size as u64 });
    }
    sizes
}

/// The size of a chunk on an axis, where so many of its elements are left.
fn chunk_size(left: u64, size: u64) -> u64
    ensures value { result ≡ chunk_size left size }
    ensures positive { 0 < result }
{
    size.max(1).min(left.max(1))
}

/// The chunk of so many elements in an array of these sizes.
fn chunk_of(count: u64, sizes: &Dims) -> Dims
    ensures value { result ≡ chunk_of count sizes.now }
    ensures rank { length result ≡ length sizes.now }
    ensures positive { All (λ c. 0 < c) result }
{
    let mut chunk = *sizes;
    let mut left = count;
    for axis in (0..sizes.rank()).rev() {
        let size = chunk_size(left, sizes.at(axis));
        chunk.put(axis, size);
        left /= size;
    }
    chunk
}

/// Whether a shape broadcasts to another.
fn stretches_to(a: &Dims, shape: &[u64]) -> bool
    ensures { result ≡ stretches_to a.now shape.now }
{
    let rank = a.rank() as usize;
    if shape.len() < rank {
        return false;
    }
    are_stretched(a, &shape[shape.len() - rank..])
}

/// Whether each size is 1 or that of the other shape, which has the same rank.
fn are_stretched(a: &Dims, shape: &[u64]) -> bool
    requires { length shape.now ≡ length a.now }
    ensures { result ≡ are_stretched a.now shape.now }
{
    for axis in 0..a.rank() {
        let size = a.at(axis);
        if size != 1 && size != shape[axis as usize] {
            return false;
        }
    }
    true
}
