//! Prefix sums of a region.
ghost use Rattle.std.specs.Prelude.{◌≡◌, ◌+ℤ◌, ◌*◌, ◌<◌, ℕ, suc, List, length, slice_index, slice_set};
ghost use Rattle.cu_num.specs.Dtype.{size_of, IsInteger};
ghost use Rattle.cu_num.specs.Element.{element_at};
ghost use Rattle.cu_num.specs.Wrap.{wrapped};
ghost use Rattle.cu_num.specs.declared.layout.Endian.TheVariants.{Little};
ghost use Rattle.cu_reduce.specs.Numbers.{HasNumber, line_element};
ghost use Rattle.cu_reduce.specs.Prefix.{sum_below};
ghost use Rattle.cu_shape.specs.Index.{product, place_of, IsInside};
ghost use Rattle.cu_scan.specs.Scanned.{given_into, IsCarriedInto};

use crate::blocks::Parts;
use crate::carries::carry_by_type;
use crate::types::scan_by_type;
use cu_num::Dtype;
use cu_pairs::{blocks_before, width_behind};
use cu_shape::Dims;

/// The prefix sums of a region with these sizes along an axis (Python array API 2023.12,
/// `cumulative_sum`). `input` has the region's elements of type `t` in row-major order. `carry` is
/// empty, which counts as zeros, or has for each index of the other axes a number of type `acc`
/// that is carried in. `out` gets for each element the sum of this number and of all elements of
/// its line up to it, wrapped once. Elements are little-endian.
pub fn scan_region(
    t: Dtype,
    acc: Dtype,
    dims: &Dims,
    axis: u32,
    input: &[u8],
    carry: &[u8],
    out: &mut [u8],
)
    requires acc { IsInteger acc }
    requires axis { axis < length dims.now }
    requires input { length input.now ≡ product dims.now * size_of t }
    requires carry { IsCarriedInto acc (product (slice_set dims.now axis 1)) carry.now }
    requires out { length out.old ≡ product dims.now * size_of acc }
    ensures { (idx : List ℕ) → IsInside dims.now idx
        → HasNumber acc out.new (place_of dims.now idx)
        (given_into acc dims.now axis carry.now idx
        +ℤ sum_below (line_element t dims.now axis input.now idx) (suc (slice_index idx axis))) }
{
    if out.is_empty() {
        return;
    }
    let parts = Parts {
        blocks: blocks_before(dims, axis),
        rows: dims.at(axis) as usize,
        inner: width_behind(dims, axis),
    };
    scan_by_type(t, acc, parts, input, carry, out);
}

/// What is carried into a place, for a region with these sizes along an axis: `sums` has the
/// region's sums, of type `acc`, in row-major order. `above` is empty, which counts as zeros, or
/// has for each index of the other axes a sum that is carried in. `out` gets for each index of the
/// other axes the sum of this number and of all sums along the axis, wrapped once. Elements are
/// little-endian.
pub fn carry_region(acc: Dtype, dims: &Dims, axis: u32, sums: &[u8], above: &[u8], out: &mut [u8])
    requires acc { IsInteger acc }
    requires axis { axis < length dims.now }
    requires sums { length sums.now ≡ product dims.now * size_of acc }
    requires above { IsCarriedInto acc (product (slice_set dims.now axis 1)) above.now }
    requires out { length out.old ≡ product (slice_set dims.now axis 1) * size_of acc }
    ensures { (idx : List ℕ) → IsInside (slice_set dims.now axis 1) idx
        → element_at Little acc out.new (place_of (slice_set dims.now axis 1) idx)
        ≡ wrapped acc (given_into acc dims.now axis above.now idx
        +ℤ sum_below (line_element acc dims.now axis sums.now idx) (slice_index dims.now axis)) }
{
    if out.is_empty() {
        return;
    }
    let mut whole = *dims;
    whole.put(axis, 1);
    let parts = Parts {
        blocks: blocks_before(&whole, axis),
        rows: dims.at(axis) as usize,
        inner: width_behind(&whole, axis),
    };
    carry_by_type(acc, parts, sums, above, out);
}
