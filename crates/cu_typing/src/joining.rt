//! Arrays that broadcast together: their shape, their chunk shape, and the chunks to which they are aligned.

ghost use Rattle.std.specs.Prelude.{◌≡◌, ◌≤◌, ◌<◌, IfOk, length, replicate};
ghost use Rattle.cu_typing.specs.Joined.{arrays_of, joined_rank, joined_with, joined_shape, fills, joined_chunk_on, joined_chunk, aligned_on, aligned_chunk, aligned_within};

use crate::argument::Argument;
use cu_node::{FaultCode, NodeFault, NodeInfo, fault_at, is_chunk_within, size_at};
use cu_shape::{Dims, ShapeFault, broadcast};

/// Two shapes broadcast, or the last axis of the result on which they differ.
pub(crate) fn join(a: &Dims, b: &Dims) -> Result<Dims, NodeFault>
    ensures { result ≡ joined_with a.now b.now }
{
    match broadcast(a, b) {
        Ok(shape) => Ok(shape),
        Err(ShapeFault::Mismatch(axis)) => Err(fault_at(FaultCode::Shape, axis)),
        Err(_) => unreachable!(),
    }
}

/// The greatest rank of the arrays.
fn widest(args: &[Argument]) -> u32
    ensures rank { result ≡ joined_rank (arrays_of args.now) }
    ensures short { result ≤ 6 }
{
    let mut rank = 0;
    for arg in args {
        if let Argument::Array(i) = arg {
            rank = i.dims.rank().max(rank);
        }
    }
    rank
}

/// A shape of `rank` axes of size 1.
fn ones(rank: u32) -> Dims
    requires { rank ≤ 6 }
    ensures { result ≡ replicate rank 1 }
{
    Dims::make(&[1u64; 6][..rank as usize]).unwrap()
}

/// The shape to which the arrays broadcast.
pub(crate) fn shape_joined(args: &[Argument]) -> Result<Dims, NodeFault>
    ensures shape { result ≡ joined_shape (arrays_of args.now) }
    ensures rank { IfOk result (λ shape. length shape ≡ joined_rank (arrays_of args.now)) }
{
    let mut shape = ones(widest(args));
    for arg in args {
        if let Argument::Array(i) = arg {
            shape = join(&shape, &i.dims)?;
        }
    }
    Ok(shape)
}

/// Whether an array has the axis of the result, and isn't stretched there.
fn fills_axis(shape: &Dims, i: &NodeInfo, axis: u32) -> bool
    ensures { result ≡ fills shape.now i.now axis }
{
    let lead = shape.rank().saturating_sub(i.dims.rank());
    lead <= axis && size_at(&i.dims, axis - lead) == size_at(shape, axis)
}

/// The chunk size of the result on an axis: that of the first array that fills it.
fn chunk_along(shape: &Dims, args: &[Argument], axis: u32) -> u64
    ensures { result ≡ joined_chunk_on shape.now (arrays_of args.now) axis }
{
    for arg in args {
        if let Argument::Array(i) = arg {
            if fills_axis(shape, i, axis) {
                return size_at(&i.chunk, axis - shape.rank().saturating_sub(i.dims.rank()));
            }
        }
    }
    1
}

/// The chunk shape of the result.
pub(crate) fn chunk_joined(shape: &Dims, args: &[Argument]) -> Dims
    ensures chunk { result ≡ joined_chunk shape.now (arrays_of args.now) }
    ensures rank { length result ≡ length shape.now }
{
    let mut chunk = *shape;
    for axis in 0..shape.rank() {
        chunk.put(axis, chunk_along(shape, args, axis));
    }
    chunk
}

/// The chunk size of an array's aligned chunk on an axis.
fn aligned_along(shape: &Dims, chunk: &Dims, i: &NodeInfo, axis: u32) -> u64
    requires { axis < 6 }
    ensures { result ≡ aligned_on shape.now chunk.now i.now axis }
{
    let place = axis + shape.rank().saturating_sub(i.dims.rank());
    if fills_axis(shape, i, place) {
        size_at(chunk, place)
    } else {
        size_at(&i.chunk, axis)
    }
}

/// The aligned chunk of an array: the result's chunk size on each axis that it fills, and its own elsewhere.
pub fn chunk_aligned(shape: &Dims, chunk: &Dims, i: &NodeInfo) -> Dims
    ensures chunk { result ≡ aligned_chunk shape.now chunk.now i.now }
    ensures rank { length result ≡ length i.now.dims }
{
    let mut aligned = i.dims;
    for axis in 0..i.dims.rank() {
        aligned.put(axis, aligned_along(shape, chunk, i, axis));
    }
    aligned
}

/// Whether each aligned chunk keeps the limit of bytes.
pub(crate) fn are_aligned_within(shape: &Dims, chunk: &Dims, args: &[Argument]) -> bool
    ensures { result ≡ aligned_within shape.now chunk.now (arrays_of args.now) }
{
    for arg in args {
        if let Argument::Array(i) = arg {
            if !is_chunk_within(i.dtype, &chunk_aligned(shape, chunk, i)) {
                return false;
            }
        }
    }
    true
}
