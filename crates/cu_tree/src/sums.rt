//! The arrays between an array and its prefix sums along an axis.

ghost use Rattle.std.specs.Prelude.{◌≡◌, ◌≤◌, ◌^◌};
ghost use Rattle.arrayvec.specs.ArrayVec.{array_vec_len};
ghost use Rattle.cu_tree.specs.Partials.{IsMiddle};
ghost use Rattle.cu_tree.specs.Sums.{sums_array, sums_count, sum_rounds, cumulative_rounds, carry_bytes, AreSumRounds, IsSummed};

use crate::marks::sought_axes;
use crate::needs::merge_bytes;
use crate::partials::first_partial;
use crate::round::Round;
use arrayvec::ArrayVec;
use cu_node::NodeInfo;

/// The first array of sums: one for each chunk on the axis, in chunks of one there; along any other axis the source's size and chunk size.
pub fn sums_array(made: &NodeInfo, source: &NodeInfo, axis: u32) -> NodeInfo
    requires summed { IsSummed made.now source.now axis }
    ensures sums { result ≡ sums_array made.now source.now axis }
    ensures kept { IsMiddle result }
{
    first_partial(made.dtype, sought_axes(Some(axis)), source)
}

/// How many chunks the axis has, at least one.
pub fn sums_count(made: &NodeInfo, source: &NodeInfo, axis: u32) -> u64
    requires summed { IsSummed made.now source.now axis }
    ensures count { result ≡ sums_count made.now source.now axis }
    ensures few { result ≤ 65536 }
{
    sums_array(made, source, axis).dims.at(axis)
}

/// The rounds that merge the sums in groups, as long as there are more than one group has.
pub fn cumulative_rounds(
    split_every: u32,
    made: &NodeInfo,
    source: &NodeInfo,
    axis: u32,
) -> ArrayVec<Round, 15>
    requires several { 2 ≤ split_every }
    requires summed { IsSummed made.now source.now axis }
    ensures rounds { result.items ≡ cumulative_rounds split_every made.now source.now axis }
    ensures rule { AreSumRounds split_every axis (sums_array made.now source.now axis).dims result.items }
    ensures few { array_vec_len result ≤ 15 }
{
    sum_rounds(split_every, axis, sums_count(made, source, axis))
}

/// The rounds of an axis that has `count` sums.
fn sum_rounds(split_every: u32, axis: u32, count: u64) -> ArrayVec<Round, 15>
    requires several { 2 ≤ split_every }
    requires few { count ≤ 65536 }
    ensures { result.items ≡ sum_rounds split_every axis count count }
{
    let mut rounds = ArrayVec::new();
    let mut from = count;
    while from > u64::from(split_every) {
        let to = from.div_ceil(u64::from(split_every));
        rounds.push(Round { axis, from, to });
        from = to;
    }
    rounds
}

/// The bytes of a carry of a group of chunks of sums, and of what is above them.
pub fn carry_bytes(split_every: u32, sums: u64) -> u64
    requires sums { sums ≤ 2 ^ 28 }
    ensures bytes { result ≡ carry_bytes split_every sums }
    ensures small { result ≤ 2 ^ 62 }
{
    merge_bytes(split_every, sums) + sums
}
