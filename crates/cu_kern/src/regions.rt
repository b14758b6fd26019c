//! The regions that a kernel reads, along runs of places.
ghost use Rattle.std.specs.Prelude.{◌≡◌, ◌+◌, ◌-◌, ◌%◌, ◌^◌, ◌≤◌, ◌<◌, ℕ, length};
ghost use Rattle.cu_shape.specs.Index.{product, index_at};
ghost use Rattle.cu_kern.specs.Lays.{BroadcastsTo, LayFits, IsRun, lay_element, place_read};
ghost use Rattle.cu_kern.specs.Strips.{strip, strip_element, HasPlaces};

use crate::lays::{Lay, Pace, place_in};
use crate::strips::Strip;
use cu_num::size;
use cu_shape::Dims;

/// The regions of a kernel, in one buffer, and the sizes to which they are stretched.
#[derive(Clone, Copy)]
pub(crate) struct Inputs<'a> {
    pub(crate) lays: &'a [Lay],
    pub(crate) ins: &'a [u8],
    pub(crate) dims: &'a Dims,
}

/// A region and the buffer in which it lies.
#[derive(Clone, Copy)]
pub(crate) struct LaidRegion<'a> {
    pub(crate) lay: &'a Lay,
    pub(crate) ins: &'a [u8],
}

/// The elements that `count` places from `place` on read, all of one piece at this pace.
pub(crate) fn strip_from<'a>(
    region: LaidRegion<'a>,
    pace: Pace,
    dims: &Dims,
    place: u64,
    count: usize,
) -> Strip<'a>
    requires fits { LayFits dims.now (length region.ins.now) region.lay.now }
    requires pace { IsRun region.lay.now.dims dims.now pace.run pace.step }
    requires step { pace.step ≤ 1 }
    requires some { 0 < count }
    requires within { place + count ≤ product dims.now }
    requires row { place % pace.run + count ≤ pace.run }
    requires small { product dims.now < 2 ^ 63 }
    ensures places { HasPlaces region.entry.lay.now.dtype (strip result.bytes.now result.step) count }
    ensures elements { (k : ℕ) → k < count
        → strip_element region.entry.lay.now.dtype (strip result.bytes.now result.step) k ≡ lay_element region.entry.lay.now region.entry.ins.now (index_at dims.now (place + k)) }
{
    let at = place_at(pace, &region.lay.dims, dims, place);
    strip_at(region, pace, dims, place, at, count)
}

/// `strip_from` where the first of them reads place `at` of the region.
#[inline(always)]
pub(crate) fn strip_at<'a>(
    region: LaidRegion<'a>,
    pace: Pace,
    dims: &Dims,
    place: u64,
    at: u64,
    count: usize,
) -> Strip<'a>
    requires fits { LayFits dims.now (length region.ins.now) region.lay.now }
    requires pace { IsRun region.lay.now.dims dims.now pace.run pace.step }
    requires step { pace.step ≤ 1 }
    requires some { 0 < count }
    requires within { place + count ≤ product dims.now }
    requires row { place % pace.run + count ≤ pace.run }
    requires at { at ≡ place_read region.lay.now.dims dims.now place }
    requires below { at < product region.lay.now.dims }
    ensures places { HasPlaces region.entry.lay.now.dtype (strip result.bytes.now result.step) count }
    ensures elements { (k : ℕ) → k < count
        → strip_element region.entry.lay.now.dtype (strip result.bytes.now result.step) k ≡ lay_element region.entry.lay.now region.entry.ins.now (index_at dims.now (place + k)) }
{
    let own = size(region.lay.dtype) as usize;
    let from = region.lay.at + at as usize * own;
    Strip {
        bytes: &region.ins[from..],
        step: pace.step as usize,
    }
}

/// The place of a region that a place of the result reads: in the first piece as the pace tells it, which saves the divisions.
#[inline(always)]
fn place_at(pace: Pace, shape: &Dims, dims: &Dims, place: u64) -> u64
    requires broadcasts { BroadcastsTo shape.now dims.now }
    requires pace { IsRun shape.now dims.now pace.run pace.step }
    requires step { pace.step ≤ 1 }
    requires within { place < product dims.now }
    requires small { product dims.now < 2 ^ 63 }
    ensures place { result ≡ place_read shape.now dims.now place }
    ensures below { result < product shape.now }
{
    if place < pace.run {
        pace.step * place
    } else {
        place_in(shape, dims, place)
    }
}

/// The places that are left in the piece of `place`, where each has `run` places.
#[inline(always)]
pub(crate) fn left_in(run: u64, place: u64) -> u64
    requires { 0 < run }
    ensures { result ≡ run - place % run }
{
    if place < run {
        return run - place;
    }
    run - place % run
}
