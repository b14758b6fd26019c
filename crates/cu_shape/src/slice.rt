ghost use Rattle.std.specs.Prelude.{◌≡◌, ◌≢◌, ◌<◌, ◌≤◌, ◌↔◌, ◌≤ℤ◌, pos, ℕ, IsOk, IfOk, IfErr};
ghost use Rattle.cu_shape.specs.Slice.{count_of, first_of, clipped, start_of, stop_of, lowest, highest, gap_between, from_end, at_least_zero, IsEnd, IsIndex, index_taken};

use crate::fault::ShapeFault;

/// The indices that a slice takes of an axis: `first`, `first + step`, and so on, `count` of them.
#[derive(Clone, Copy, Default, PartialEq, Eq, Debug)]
pub struct Run {
    /// The first index, 0 where there is none.
    pub first: u64,
    /// The distance from one index to the next.
    pub step: i64,
    /// The number of indices.
    pub count: u64,
}

/// The indices of `start:stop:step` in an axis of size `n`, as Python's `slice.indices` has them: a
/// negative end counts from the axis' end, and ends are clipped. A step of 0 is refused.
pub fn slice_of(start: Option<i64>, stop: Option<i64>, step: i64, n: u64) -> Result<Run, ShapeFault>
    ensures taken { IsOk result ↔ (step ≢ pos 0) }
    ensures first { IfOk result (λ r. r.first ≡ first_of start stop step n) }
    ensures step { IfOk result (λ r. r.step ≡ step) }
    ensures count { IfOk result (λ r. r.count ≡ count_of start stop step n) }
    ensures inside { IfOk result (λ r. (k : ℕ) → k < r.count → IsIndex (index_taken r k) n) }
    ensures zero { IfErr result (λ e. (e ≡ ShapeFault.ZeroStep) × (step ≡ pos 0)) }
{
    if step == 0 {
        return Err(ShapeFault::ZeroStep);
    }
    let begin = start_at(start, step, n);
    let end = stop_at(stop, step, n);
    let distance = natural(gap(begin, end, step, n), n);
    let count = distance.div_ceil(step.unsigned_abs());
    let first = if count == 0 { 0 } else { natural(begin, n) };
    Ok(Run { first, step, count })
}

/// Where a slice begins.
fn start_at(start: Option<i64>, step: i64, n: u64) -> i128
    ensures value { result ≡ start_of start step n }
    ensures inside { IsEnd result step n }
    ensures most { result ≤ℤ pos n }
{
    match start {
        Some(end) => clip(end, step, n),
        None => if step >= 0 { 0 } else { top(step, n) },
    }
}

/// Where a slice stops.
fn stop_at(stop: Option<i64>, step: i64, n: u64) -> i128
    ensures value { result ≡ stop_of stop step n }
    ensures inside { IsEnd result step n }
{
    match stop {
        Some(end) => clip(end, step, n),
        None => if step >= 0 { top(step, n) } else { -1 },
    }
}

/// A given end of a slice, counted from the axis' end where it is negative, and clipped.
fn clip(end: i64, step: i64, n: u64) -> i128
    ensures value { result ≡ clipped end step n }
    ensures inside { IsEnd result step n }
{
    from_start(end, n).min(top(step, n)).max(bottom(step))
}

/// The least end of a slice.
fn bottom(step: i64) -> i128
    ensures { result ≡ lowest step }
{
    if step >= 0 { 0 } else { -1 }
}

/// The greatest end of a slice.
fn top(step: i64, n: u64) -> i128
    ensures { result ≡ highest step n }
{
    if step >= 0 { n as i128 } else { n as i128 - 1 }
}

/// An end of a slice counted from the axis' start.
fn from_start(end: i64, n: u64) -> i128
    ensures { result ≡ from_end end n }
{
    if end < 0 {
        n as i128 + end as i128
    } else {
        end as i128
    }
}

/// The way from one end of a slice to the other in the direction of the step.
fn gap(begin: i128, end: i128, step: i64, n: u64) -> i128
    requires begin_inside { IsEnd begin step n }
    requires end_inside { IsEnd end step n }
    ensures value { result ≡ gap_between begin end step }
    ensures small { result ≤ℤ pos n }
{
    if step >= 0 { end - begin } else { begin - end }
}

/// A number of at most `n`, and 0 for a negative one.
fn natural(x: i128, n: u64) -> u64
    requires { x ≤ℤ pos n }
    ensures { result ≡ at_least_zero x }
{
    if x < 0 { 0 } else { x as u64 }
}
