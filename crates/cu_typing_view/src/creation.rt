//! Arrays that are made from no other.
ghost use Rattle.std.specs.Prelude.{◌≡◌, ◌-◌, ◌^◌, ◌<◌, ◌≤ℤ◌, pos, All, IfOk};
ghost use Rattle.cu_node.specs.Info.{IsInfo};
ghost use Rattle.cu_shape.specs.Slice.{gap_between, at_least_zero};
ghost use Rattle.cu_typing_view.specs.Creation.{holds_ends, arange_element, arange_count, typed_full, typed_numbers, typed_arange, typed_eye};

use cu_node::{
    FaultCode, Literal, NodeFault, NodeInfo, fault, in_range, is_integer, within_limits_list,
};
use cu_num::Dtype;

/// One value everywhere, in an array of this shape. The first of these faults is answered: Scalar where the value is of another
/// kind than the type or outside its range, Shape where the chunk shape has another rank, Limit.
pub fn type_full(
    shape: &[u64],
    t: Dtype,
    value: Literal,
    chunk: &[u64],
) -> Result<NodeInfo, NodeFault>
    requires { All (λ c. 0 < c) chunk.now }
    ensures value { result ≡ typed_full shape.now t value chunk.now }
    ensures kept { IfOk result IsInfo }
{
    if !value.suits(t) {
        return Err(fault(FaultCode::Scalar));
    }
    if chunk.len() != shape.len() {
        return Err(fault(FaultCode::Shape));
    }
    within_limits_list(t, shape, chunk)
}

/// The numbers start, start + step, and so on before stop. The first of these faults is answered: Kind where the type is no
/// integer type, Scalar where the first or the last number is outside its range, Index where the step is 0, Shape where the
/// chunk shape is not of rank 1, Limit.
pub fn type_arange(
    start: i64,
    stop: i64,
    step: i64,
    t: Dtype,
    chunk: &[u64],
) -> Result<NodeInfo, NodeFault>
    requires { All (λ c. 0 < c) chunk.now }
    ensures value { result ≡ typed_arange start stop step t chunk.now }
    ensures kept { IfOk result IsInfo }
{
    if !is_integer(t) {
        return Err(fault(FaultCode::Kind));
    }
    type_numbers(start, step, arange_count(start, stop, step), t, chunk)
}

/// So many numbers from start on.
fn type_numbers(
    start: i64,
    step: i64,
    count: u64,
    t: Dtype,
    chunk: &[u64],
) -> Result<NodeInfo, NodeFault>
    requires { All (λ c. 0 < c) chunk.now }
    ensures value { result ≡ typed_numbers start step count t chunk.now }
    ensures kept { IfOk result IsInfo }
{
    if !holds_ends(t, start, step, count) {
        return Err(fault(FaultCode::Scalar));
    }
    if step == 0 {
        return Err(fault(FaultCode::Index));
    }
    if chunk.len() != 1 {
        return Err(fault(FaultCode::Shape));
    }
    within_limits_list(t, &[count], chunk)
}

/// A matrix with 1 on a diagonal and 0 elsewhere. The first of these faults is answered: Kind where the type is no integer
/// type, Shape where the chunk shape is not of rank 2, Limit.
pub fn type_eye(rows: u64, cols: u64, t: Dtype, chunk: &[u64]) -> Result<NodeInfo, NodeFault>
    requires { All (λ c. 0 < c) chunk.now }
    ensures value { result ≡ typed_eye rows cols t chunk.now }
    ensures kept { IfOk result IsInfo }
{
    if !is_integer(t) {
        return Err(fault(FaultCode::Kind));
    }
    if chunk.len() != 2 {
        return Err(fault(FaultCode::Shape));
    }
    within_limits_list(t, &[rows, cols], chunk)
}

/// How many numbers there are; none where the step is 0.
#[tactic(auto, unfolding(crate::specs::Creation::arange_count))]
fn arange_count(start: i64, stop: i64, step: i64) -> u64
    ensures { result ≡ arange_count start stop step }
{
    if step == 0 {
        return 0;
    }
    natural(way(start, stop, step)).div_ceil(step.unsigned_abs())
}

/// The way from start to stop in the direction of the step.
fn way(start: i64, stop: i64, step: i64) -> i128
    ensures value { result ≡ gap_between start stop step }
    ensures small { result ≤ℤ pos (2 ^ 64 - 1) }
{
    if step >= 0 {
        stop as i128 - start as i128
    } else {
        start as i128 - stop as i128
    }
}

/// A number of 64 bits, and 0 for a negative one.
fn natural(x: i128) -> u64
    requires { x ≤ℤ pos (2 ^ 64 - 1) }
    ensures { result ≡ at_least_zero x }
{
    if x < 0 { 0 } else { x as u64 }
}

/// Number `k` of those that begin at start.
fn number_at(start: i64, step: i64, k: u64) -> i128
    ensures { result ≡ arange_element start step k }
{
    start as i128 + k as i128 * step as i128
}

/// Whether the first and the last of so many numbers are numbers of the type.
#[tactic(auto, unfolding(crate::specs::Creation::holds_ends))]
fn holds_ends(t: Dtype, start: i64, step: i64, count: u64) -> bool
    ensures { result ≡ holds_ends t start step count }
{
    if count == 0 {
        return true;
    }
    in_range(t, number_at(start, step, 0)) && in_range(t, number_at(start, step, count - 1))
}
