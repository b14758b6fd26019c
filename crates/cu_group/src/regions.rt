//! Grouped reductions of regions.
ghost use Rattle.std.specs.Prelude.{◌≡◌, ◌*◌, ◌<◌, ℕ, List, length, slice_index, slice_set};
ghost use Rattle.std.specs.List.{range_with_len};
ghost use Rattle.cu_num.specs.Dtype.{size_of};
ghost use Rattle.cu_shape.specs.Index.{product, place_of, IsInside};
ghost use Rattle.cu_reduce.specs.Kinds.{Accumulates};
ghost use Rattle.cu_reduce.specs.Labels.{grouped_at};
ghost use Rattle.cu_reduce.specs.Numbers.{HasNumber, line_element};
ghost use Rattle.cu_group.specs.Regions.{label_in};

use crate::rows::Sizes;
use crate::types::group_rows;
use cu_num::{Dtype, FoldKind};
use cu_pairs::{blocks_before, width_behind};
use cu_shape::Dims;

/// The reduction of the elements of a region by their labels along one axis (this project's own
/// operators). `input` has the region's elements of type `t` in row-major order, and `labels` an
/// integer of type `label_t` for each place of the axis. `out` gets the results of type `acc` in
/// row-major order of the region with `groups` on the axis: result q there is made of the elements
/// at the places whose label is q, exactly, and wrapped once. Of no place it is 0 for a sum, and
/// for the least number the greatest of the type. Elements are little-endian.
pub fn group_region(
    kind: FoldKind,
    t: Dtype,
    acc: Dtype,
    label_t: Dtype,
    dims: &Dims,
    axis: u32,
    groups: u32,
    input: &[u8],
    labels: &[u8],
    out: &mut [u8],
)
    requires types { Accumulates kind t acc }
    requires axis { axis < length dims.now }
    requires input { length input.now ≡ product dims.now * size_of t }
    requires labels { length labels.now ≡ slice_index dims.now axis * size_of label_t }
    requires out { length out.old ≡ product (slice_set dims.now axis groups) * size_of acc }
    ensures { (idx : List ℕ) → IsInside (slice_set dims.now axis groups) idx
        → HasNumber acc out.new (place_of (slice_set dims.now axis groups) idx)
        (grouped_at kind acc (label_in label_t labels.now)
        (line_element t dims.now axis input.now idx)
        (slice_index idx axis) (range_with_len 0 (slice_index dims.now axis))) }
{
    if out.is_empty() {
        return;
    }
    let mut result = *dims;
    result.put(axis, groups as u64);
    let sizes = Sizes {
        outer: blocks_before(&result, axis),
        count: dims.at(axis) as usize,
        groups: groups as usize,
        inner: width_behind(&result, axis),
    };
    group_rows(kind, t, acc, label_t, sizes, input, labels, out);
}
