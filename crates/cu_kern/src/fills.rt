//! Regions along places, as rows of elements.
ghost use Rattle.std.specs.Prelude.{◌≡◌, ◌+◌, ◌*◌, ◌%◌, ◌^◌, ◌≤◌, ◌<◌, ℕ, Some, length};
ghost use Rattle.cu_num.specs.Dtype.{size_of};
ghost use Rattle.cu_num.specs.Element.{bytes_at};
ghost use Rattle.cu_shape.specs.Index.{product, index_at};
ghost use Rattle.cu_kern.specs.Lays.{LayFits, IsRun, IsSpread, IsLaidRegion, HasValue, lay_element};

use crate::by_type::call_by_type;
use crate::calls::Call;
use crate::lays::{Pace, pace_of, spread_of};
use crate::regions::{LaidRegion, left_in, strip_at, strip_from};
use crate::rows::PlaceRange;
use crate::strip_functions::call_strips;
use crate::strips::one_each;
use cu_num::{Dtype, Fn1, size};
use cu_shape::Dims;

/// The elements of a region that the places read, piece by piece.
fn pieces_of_region(
    region: LaidRegion<'_>,
    pace: Pace,
    dims: &Dims,
    range: PlaceRange,
    out: &mut [u8],
)
    requires fits { LayFits dims.now (length region.ins.now) region.lay.now }
    requires pace { IsRun region.lay.now.dims dims.now pace.run pace.step }
    requires step { pace.step ≤ 1 }
    requires some { 0 < pace.run }
    requires small { product dims.now < 2 ^ 63 }
    requires within { range.from + range.count ≤ product dims.now }
    requires room { length out.old ≡ range.count * size_of region.lay.now.dtype }
    ensures { (k : ℕ) → k < range.count → HasValue region.entry.lay.now.dtype out.new k (Some (lay_element region.entry.lay.now region.entry.ins.now (index_at dims.now (range.from + k)))) }
{
    let t = region.lay.dtype;
    let size = size(t) as usize;
    let mut done = 0;
    while done < range.count {
        let place = range.from + done as u64;
        let count = (range.count - done).min(left_in(pace.run, place) as usize);
        let strip = strip_from(region, pace, dims, place, count);
        let part = &mut out[done * size..(done + count) * size];
        call_strips(Call::One(Fn1::Astype, t, t), strip, strip, strip, part);
        done += count;
    }
}

/// `pieces_of_region` where each place of the region is read by `run` places, one after another: without a division in a piece.
#[inline(always)]
fn spread_each(
    t: Dtype,
    region: LaidRegion<'_>,
    run: u64,
    dims: &Dims,
    range: PlaceRange,
    out: &mut [u8],
)
    requires region { IsLaidRegion t dims.now region.lay.now region.ins.now }
    requires spread { IsSpread region.lay.now.dims dims.now run }
    requires some { 0 < run }
    requires small { product dims.now < 2 ^ 63 }
    requires within { range.from + range.count ≤ product dims.now }
    requires room { length out.old ≡ range.count * size_of t }
    ensures { (k : ℕ) → k < range.count → HasValue t out.new k (Some (lay_element region.entry.lay.now region.entry.ins.now (index_at dims.now (range.from + k)))) }
{
    let size = size(t) as usize;
    let pace = Pace {
        run,
        step: 0,
        period: run,
    };
    let mut done = 0;
    let mut at = range.from / run;
    let mut left = run - range.from % run;
    while done < range.count {
        let place = range.from + done as u64;
        let count = (range.count - done).min(left as usize);
        let strip = strip_at(region, pace, dims, place, at, count);
        let part = &mut out[done * size..(done + count) * size];
        one_each(Fn1::Astype, t, t, strip, part);
        done += count;
        at += 1;
        left = run;
    }
}

/// `spread_each`, with loops for each type.
fn spread_by_type(
    t: Dtype,
    region: LaidRegion<'_>,
    run: u64,
    dims: &Dims,
    range: PlaceRange,
    out: &mut [u8],
)
    requires region { IsLaidRegion t dims.now region.lay.now region.ins.now }
    requires spread { IsSpread region.lay.now.dims dims.now run }
    requires some { 0 < run }
    requires small { product dims.now < 2 ^ 63 }
    requires within { range.from + range.count ≤ product dims.now }
    requires room { length out.old ≡ range.count * size_of t }
    ensures { (k : ℕ) → k < range.count → HasValue t out.new k (Some (lay_element region.entry.lay.now region.entry.ins.now (index_at dims.now (range.from + k)))) }
{
    call_by_type!(spread_each, [], t, [region, run, dims, range, out])
}

/// Writes the first elements again and again up to the end, each time as many as there are.
fn repeat(t: Dtype, first: usize, all: usize, out: &mut [u8])
    requires some { 0 < first }
    requires first { first ≤ all }
    requires room { length out.old ≡ all * size_of t }
    ensures { (k : ℕ) → k < all → bytes_at t out.new k ≡ bytes_at t out.old (k % first) }
{
    let size = size(t) as usize;
    let mut done = first;
    while done < all {
        let count = done.min(all - done);
        let (front, back) = out.split_at_mut(done * size);
        back[..count * size].copy_from_slice(&front[..count * size]);
        done += count;
    }
}

/// The elements of a region that the places read: those of its first period, which is read again and again.
pub(crate) fn row_of_region(region: LaidRegion<'_>, dims: &Dims, range: PlaceRange, out: &mut [u8])
    requires fits { LayFits dims.now (length region.ins.now) region.lay.now }
    requires small { product dims.now < 2 ^ 63 }
    requires within { range.from + range.count ≤ product dims.now }
    requires room { length out.old ≡ range.count * size_of region.lay.now.dtype }
    ensures { (k : ℕ) → k < range.count → HasValue region.entry.lay.now.dtype out.new k (Some (lay_element region.entry.lay.now region.entry.ins.now (index_at dims.now (range.from + k)))) }
{
    if range.count == 0 {
        return;
    }
    let t = region.lay.dtype;
    let pace = pace_of(&region.lay.dims, dims);
    if pace.step == 0 {
        if let Some(run) = spread_of(&region.lay.dims, dims) {
            spread_by_type(t, region, run, dims, range, out);
            return;
        }
    }
    let first = pace.period.min(range.count as u64) as usize;
    let part = PlaceRange {
        from: range.from,
        count: first,
    };
    pieces_of_region(
        region,
        pace,
        dims,
        part,
        &mut out[..first * size(t) as usize],
    );
    repeat(t, first, range.count, out);
}
