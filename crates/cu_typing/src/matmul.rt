ghost use Rattle.std.specs.Prelude.{◌≡◌, ◌+◌, ◌<◌, ◌≤◌, ◌++◌, ◌∷◌, All, IfOk, length, []};
ghost use Rattle.cu_node.specs.Info.{IsInfo};
ghost use Rattle.cu_typing.specs.Joined.{arrays_of, aligned_chunk};
ghost use Rattle.cu_typing.specs.Matmul.{rows, columns, left_summed, right_summed, leading_array, leading_arrays, leading_chunk, are_within, product_type, product_lead, product_limited, product_array, typed_matmul};

use crate::argument::Argument;
use crate::joining::{chunk_aligned, chunk_joined, shape_joined};
use crate::types::type_promoted;
use cu_node::{
    FaultCode, NodeFault, NodeInfo, fault, fault_at, grown, is_chunk_within, is_integer, size_at,
    within_limits,
};
use cu_num::Dtype;
use cu_shape::Dims;

/// These sizes with the rows of a left operand behind.
fn with_rows(front: &Dims, sizes: &Dims) -> Dims
    requires { length front.now < 6 }
    ensures sizes { result ≡ front.now ++ rows sizes.now }
    ensures short { length result ≤ length front.now + 1 }
{
    let rank = sizes.rank();
    if rank >= 2 {
        grown(front, sizes.at(rank - 2))
    } else {
        *front
    }
}

/// These sizes with the columns of a right operand behind.
fn with_columns(front: &Dims, sizes: &Dims) -> Dims
    requires { length front.now < 6 }
    ensures { result ≡ front.now ++ columns sizes.now }
{
    let rank = sizes.rank();
    if rank >= 2 {
        grown(front, sizes.at(rank - 1))
    } else {
        *front
    }
}

fn inner_left(sizes: &Dims) -> u64
    ensures { result ≡ left_summed sizes.now }
{
    size_at(sizes, sizes.rank().saturating_sub(1))
}

fn inner_right(sizes: &Dims) -> u64
    ensures { result ≡ right_summed sizes.now }
{
    size_at(sizes, sizes.rank().saturating_sub(2))
}

/// The leading axes of an operand, as an array.
fn lead_array(i: &NodeInfo) -> NodeInfo
    ensures value { result ≡ leading_array i.now }
    ensures short { length result.dims ≤ 4 }
{
    NodeInfo {
        dtype: i.dtype,
        dims: i.dims.batch(),
        chunk: i.chunk.batch(),
    }
}

/// The aligned chunk of the left operand, where the result has these leading axes and chunk sizes on them.
pub fn left_chunk(lead: &Dims, chunk: &Dims, l: &NodeInfo) -> Dims
    ensures { result ≡ aligned_chunk lead.now chunk.now (leading_array l.now) ++ rows l.now.chunk ++ left_summed l.now.chunk ∷ [] }
{
    let front = chunk_aligned(lead, chunk, &lead_array(l));
    grown(&with_rows(&front, &l.chunk), inner_left(&l.chunk))
}

/// The aligned chunk of the right operand; the inner chunk size is the left operand's.
pub fn right_chunk(lead: &Dims, chunk: &Dims, inner: u64, r: &NodeInfo) -> Dims
    ensures { result ≡ aligned_chunk lead.now chunk.now (leading_array r.now) ++ inner ∷ [] ++ columns r.now.chunk }
{
    let front = chunk_aligned(lead, chunk, &lead_array(r));
    with_columns(&grown(&front, inner), &r.chunk)
}

/// The type of the products, or the first fault of the operands' types.
fn type_of_product(l: &NodeInfo, r: &NodeInfo) -> Result<Dtype, NodeFault>
    ensures { result ≡ product_type l.now r.now }
{
    if !is_integer(l.dtype) || !is_integer(r.dtype) {
        return Err(fault(FaultCode::Kind));
    }
    type_promoted(l.dtype, r.dtype)
}

/// The leading axes of two operands as arguments that are broadcast.
fn lead_arguments(l: &NodeInfo, r: &NodeInfo) -> [Argument; 2]
    ensures { arrays_of result ≡ leading_arrays l.now r.now }
{
    [
        Argument::Array(lead_array(l)),
        Argument::Array(lead_array(r)),
    ]
}

/// The leading axes of the result, or the first fault of the operands' shapes.
fn lead_of_product(l: &NodeInfo, r: &NodeInfo) -> Result<Dims, NodeFault>
    ensures value { result ≡ product_lead l.now r.now }
    ensures short { IfOk result (λ lead. length lead ≤ 4) }
{
    if l.dims.rank() == 0 || r.dims.rank() == 0 {
        return Err(fault(FaultCode::Axis));
    }
    let lead = shape_joined(&lead_arguments(l, r))?;
    if inner_left(&l.dims) != inner_right(&r.dims) {
        return Err(fault(FaultCode::Shape));
    }
    Ok(lead)
}

/// Whether both aligned chunks keep the limit of bytes.
fn are_operands_within(lead: &Dims, chunk: &Dims, l: &NodeInfo, r: &NodeInfo) -> bool
    requires { chunk.now ≡ leading_chunk lead.now l.now r.now }
    ensures { result ≡ are_within lead.now l.now r.now }
{
    is_chunk_within(l.dtype, &left_chunk(lead, chunk, l))
        && is_chunk_within(r.dtype, &right_chunk(lead, chunk, inner_left(&l.chunk), r))
}

/// An array that keeps the limits and has at most 5 axes.
fn product_within(beside: bool, t: Dtype, dims: Dims, chunk: Dims) -> Result<NodeInfo, NodeFault>
    requires ranks { length chunk ≡ length dims }
    requires positive { All (λ c. 0 < c) chunk }
    ensures value { result ≡ product_limited beside t dims chunk }
    ensures kept { IfOk result IsInfo }
{
    if dims.rank() > 5 {
        return Err(fault_at(FaultCode::Limit, 1));
    }
    within_limits(beside, t, dims, chunk)
}

/// The result of operands of this type and these leading axes together.
fn array_of_product(
    t: Dtype,
    lead: &Dims,
    l: &NodeInfo,
    r: &NodeInfo,
) -> Result<NodeInfo, NodeFault>
    requires short { length lead.now ≤ 4 }
    requires left { IsInfo l.now }
    requires right { IsInfo r.now }
    ensures value { result ≡ product_array t lead.now l.now r.now }
    ensures kept { IfOk result IsInfo }
{
    let dims = with_columns(&with_rows(lead, &l.dims), &r.dims);
    let front = chunk_joined(lead, &lead_arguments(l, r));
    let chunk = with_columns(&with_rows(&front, &l.chunk), &r.chunk);
    product_within(are_operands_within(lead, &front, l, r), t, dims, chunk)
}

/// The array that a matrix product gives, or the node's first fault: Kind for bool, Promote, Axis for an operand of rank 0,
/// Shape with the axis on which leading axes don't broadcast and with 0 where the inner sizes differ, Limit; the result has at
/// most 5 axes.
pub fn type_matmul(l: &NodeInfo, r: &NodeInfo) -> Result<NodeInfo, NodeFault>
    requires left { IsInfo l.now }
    requires right { IsInfo r.now }
    ensures value { result ≡ typed_matmul l.now r.now }
    ensures kept { IfOk result IsInfo }
{
    let t = type_of_product(l, r)?;
    let lead = lead_of_product(l, r)?;
    array_of_product(t, &lead, l, r)
}
