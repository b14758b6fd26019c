//! Regions of elements that a kernel reads, stretched over its result.
ghost use Rattle.std.specs.Prelude.{◌≡◌, ◌+◌, ◌-◌, ◌*◌, ◌%◌, ◌^◌, ◌≤◌, ℕ, ◌<◌, ◌==◌, if◌then◌else◌, IfSome, IsTrue, length, slice_index, drop};
ghost use Rattle.cu_num.specs.Dtype.{size_of};
ghost use Rattle.cu_num.specs.Element.{element_at};
ghost use Rattle.cu_num.specs.Word.{IsWord};
ghost use Rattle.cu_num.specs.declared.layout.Endian.TheVariants.{Little};
ghost use Rattle.cu_shape.specs.Index.{product, index_at};
ghost use Rattle.cu_kern.specs.Lays.{LayFits, BroadcastsTo, IsRun, IsPeriod, IsSpread, lay_element, place_read};

use cu_lane::lane_load;
use cu_num::{Dtype, load, size, word};
use cu_shape::Dims;

/// A region that a kernel reads: elements of a type, row-major and little-endian, from byte `at` of a buffer on.
#[derive(Clone, Copy)]
pub struct Lay {
    /// The first of its bytes.
    pub at: usize,
    /// The type of its elements.
    pub dtype: Dtype,
    /// Its sizes.
    pub dims: Dims,
}

impl Default for Lay {
    ghost use Rattle.std.specs.Prelude.{◌≡◌, []};
    ghost use Rattle.cu_num.specs.declared.types.Dtype.TheVariants.{Bool};

    ghost is_default = { λ l. (l.at ≡ 0) × (l.dtype ≡ Bool) × (l.dims ≡ []) };

    fn default() -> Lay {
        match Dims::make(&[]) {
            Ok(dims) => Lay {
                at: 0,
                dtype: Dtype::Bool,
                dims,
            },
            Err(_) => unreachable!(),
        }
    }
}

/// How a region is read along the places of the result: in pieces of `run` places, of which each next one reads `step` places on;
/// after `period` places it is read from its beginning again.
#[derive(Clone, Copy)]
pub(crate) struct Pace {
    pub(crate) run: u64,
    pub(crate) step: u64,
    pub(crate) period: u64,
}

/// The words of the elements that the places of the result from `from` on read.
pub(crate) fn load_lay(lay: &Lay, dims: &Dims, ins: &[u8], from: u64, out: &mut [u64])
    requires fits { LayFits dims.now (length ins.now) lay.now }
    requires within { from + length out.old ≤ product dims.now }
    requires small { product dims.now < 2 ^ 63 }
    ensures { (k : ℕ) → k < length out.new → IsWord lay.now.dtype (slice_index out.new k) (lay_element lay.now ins.now (index_at dims.now (from + k))) }
{
    if out.is_empty() {
        return;
    }
    let pace = pace_of(&lay.dims, dims);
    let mut done = 0;
    while done < out.len() {
        let place = from + done as u64;
        let left = pace.run - place % pace.run;
        let count = (out.len() - done).min(left as usize);
        let first = place_in(&lay.dims, dims, place);
        load_piece(lay, ins, first, pace.step, &mut out[done..done + count]);
        done += count;
    }
}

/// The words of elements of a region from place `first` on, or where `step` is 0 of that element alone.
fn load_piece(lay: &Lay, ins: &[u8], first: u64, step: u64, out: &mut [u64])
    requires pace { step ≤ 1 }
    requires some { 0 < length out.old }
    requires inside { lay.now.at + (first + step * (length out.old - 1)) * size_of lay.now.dtype + size_of lay.now.dtype ≤ length ins.now }
    ensures { (k : ℕ) → k < length out.new → IsWord lay.now.dtype (slice_index out.new k) (element_at Little lay.now.dtype (drop lay.now.at ins.now) (first + step * k)) }
{
    let size = size(lay.dtype) as usize;
    let from = lay.at + first as usize * size;
    if step == 1 {
        lane_load(lay.dtype, &ins[from..from + out.len() * size], out);
    } else {
        out.fill(word(load(lay.dtype, &ins[from..from + size], 0)));
    }
}

/// The longer of the two paces at which a region can be read.
pub(crate) fn pace_of(shape: &Dims, dims: &Dims) -> Pace
    requires broadcasts { BroadcastsTo shape.now dims.now }
    requires some { 0 < product dims.now }
    requires small { product dims.now < 2 ^ 63 }
    ensures run { IsRun shape.now dims.now result.run result.step }
    ensures step { result.step ≤ 1 }
    ensures some { 0 < result.run }
    ensures period { IsPeriod shape.now dims.now result.period }
    ensures lasting { 0 < result.period }
{
    let moving = moving_run(shape, dims);
    let resting = resting_run(shape, dims);
    if resting > moving {
        Pace {
            run: resting,
            step: 0,
            period: unreached_period(shape, dims),
        }
    } else {
        Pace {
            run: moving,
            step: 1,
            period: period_of(shape, dims),
        }
    }
}

/// A period that the result's places don't reach.
fn unreached_period(shape: &Dims, dims: &Dims) -> u64
    requires small { product dims.now < 2 ^ 63 }
    ensures period { IsPeriod shape.now dims.now result }
    ensures some { 0 < result }
{
    u64::MAX
}

/// The places of the last axes of the result, as many axes as a region has.
fn period_of(shape: &Dims, dims: &Dims) -> u64
    requires rank { length shape.now ≤ length dims.now }
    requires some { 0 < product dims.now }
    requires small { product dims.now < 2 ^ 63 }
    ensures period { IsPeriod shape.now dims.now result }
    ensures some { 0 < result }
{
    let lead = dims.rank() - shape.rank();
    let mut axis = dims.rank();
    let mut period = 1;
    while axis > lead {
        axis -= 1;
        period *= dims.at(axis);
    }
    period
}

/// The places of the last axes on which a region has the result's sizes.
fn moving_run(shape: &Dims, dims: &Dims) -> u64
    requires rank { length shape.now ≤ length dims.now }
    requires some { 0 < product dims.now }
    requires small { product dims.now < 2 ^ 63 }
    ensures run { IsRun shape.now dims.now result 1 }
    ensures some { 0 < result }
{
    let lead = dims.rank() - shape.rank();
    let mut axis = shape.rank();
    let mut run = 1;
    while axis > 0 && shape.at(axis - 1) == dims.at(lead + axis - 1) {
        axis -= 1;
        run *= dims.at(lead + axis);
    }
    run
}

/// The places of the last axes over which a region is stretched.
fn resting_run(shape: &Dims, dims: &Dims) -> u64
    requires rank { length shape.now ≤ length dims.now }
    requires some { 0 < product dims.now }
    requires small { product dims.now < 2 ^ 63 }
    ensures run { IsRun shape.now dims.now result 0 }
    ensures some { 0 < result }
{
    let lead = dims.rank() - shape.rank();
    let mut axis = dims.rank();
    let mut run = 1;
    while axis > 0 && rests_on(shape, lead, axis - 1) {
        axis -= 1;
        run *= dims.at(axis);
    }
    run
}

/// How many places of the result read each place of a region, one after another; none where they aren't read so.
pub(crate) fn spread_of(shape: &Dims, dims: &Dims) -> Option<u64>
    requires some { 0 < product dims.now }
    requires small { product dims.now < 2 ^ 63 }
    ensures spread { IfSome result (λ run. IsSpread shape.now dims.now run) }
    ensures some { IfSome result (λ run. 0 < run) }
{
    if shape.rank() != dims.rank() {
        return None;
    }
    let mut axis = dims.rank();
    let mut own = 1;
    let mut run = 1;
    while axis > 0 {
        axis -= 1;
        let size = dims.at(axis);
        let part = shape.at(axis);
        if part == size {
            own *= size;
        } else if part == 1 && own == 1 {
            run *= size;
        } else {
            return None;
        }
    }
    Some(run)
}

/// Whether a region that lacks the first `lead` axes of the result is stretched on this axis of it.
#[inline(always)]
fn rests_on(shape: &Dims, lead: u32, axis: u32) -> bool
    requires { axis < lead + length shape.now }
    ensures { IsTrue result → lead ≤ axis → slice_index shape.now (axis - lead) ≡ 1 }
{
    if axis < lead {
        return true;
    }
    shape.at(axis - lead) == 1
}

/// The place of a region that a place of the result reads.
pub(crate) fn place_in(shape: &Dims, dims: &Dims, place: u64) -> u64
    requires broadcasts { BroadcastsTo shape.now dims.now }
    requires within { place < product dims.now }
    requires small { product dims.now < 2 ^ 63 }
    ensures place { result ≡ place_read shape.now dims.now place }
    ensures below { result < product shape.now }
{
    let lead = dims.rank() - shape.rank();
    let mut rest = place;
    let mut stride = 1;
    let mut at = 0;
    for axis in (0..shape.rank()).rev() {
        let size = dims.at(lead + axis);
        let own = shape.at(axis);
        at += digit_of(own, rest, size) * stride;
        rest /= size;
        stride *= own;
    }
    at
}

/// The index on the last of the axes whose places are counted by `rest`, as a region of size `own` reads it.
#[inline(always)]
fn digit_of(own: u64, rest: u64, size: u64) -> u64
    requires { 0 < size }
    ensures { result ≡ (if own == 1 then 0 else rest % size) }
{
    if own == 1 { 0 } else { rest % size }
}
