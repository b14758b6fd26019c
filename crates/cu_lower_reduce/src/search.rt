//! The steps of a search for the place of the least or the greatest element.

ghost use Rattle.std.specs.Prelude.{◌≡◌, ◌≤◌, ◌<◌, ◌^◌, Some, slice_get, length, ◌-◌};
ghost use Rattle.cu_tree.specs.Partials.{AreMerges};
ghost use Rattle.cu_lower_reduce.specs.Partials.{IsSetting};
ghost use Rattle.cu_lower_reduce.specs.Searches.{stored, places_number, pair_merges, pairs_found, search_steps, IsSearch};

use crate::merges::{bytes_of, partial_after, written_before};
use crate::step::{Setting, Step};
use cu_node::NodeInfo;
use cu_num::Dtype;
use cu_op::Op;
use cu_tree::{
    Round, first_partial, pair_fold_bytes, pair_merge_bytes, reduction_rounds, sought_axes,
};

/// A search in an array.
#[derive(Clone, Copy)]
pub struct Search {
    /// The least elements are sought, else the greatest.
    pub least: bool,
    /// The axis along which places are counted; none where they are counted in the whole array.
    pub axis: Option<u32>,
    /// The number of the array.
    pub source: u32,
    /// What is known of it.
    pub from: NodeInfo,
    /// What is known of the result.
    pub made: NodeInfo,
}

/// The number of steps of a search.
pub fn search_step_count(s: &Setting, x: &Search) -> u32
    requires setting { IsSetting s.now }
    requires search { IsSearch x.now }
    ensures count { result ≡ length (search_steps s.now x.now) }
    ensures few { result ≤ 25 }
{
    reduction_rounds(sought_axes(x.axis), s.split_every, &x.from).len() as u32 + 1
}

/// A step of a search by its number: first a search in each chunk of the array, and then a merge of what is found for each round. All but
/// the last make an array of values before that of the places.
pub fn search_step(s: &Setting, x: &Search, at: u32) -> Step
    requires setting { IsSetting s.now }
    requires search { IsSearch x.now }
    requires within { at < length (search_steps s.now x.now) }
    ensures { slice_get (search_steps s.now x.now) at ≡ Some result }
{
    let axes = sought_axes(x.axis);
    let rounds = reduction_rounds(axes, s.split_every, &x.from);
    let values = first_partial(x.from.dtype, axes, &x.from);
    let places = first_partial(Dtype::Int64, axes, &x.from);
    if at == 0 {
        first_step(s, x, &values, &places, rounds.as_slice())
    } else {
        pair_step(s, x, &values, &places, rounds.as_slice(), at - 1)
    }
}

/// What is stored beside the places where these rounds follow.
fn stored<T: Copy>(rounds: &[Round], values: T) -> Option<T>
    ensures { result ≡ stored rounds.now values }
{
    if rounds.is_empty() {
        None
    } else {
        Some(values)
    }
}

/// The number of the places, where `next` is that of the step's first array.
fn places_number(rounds: &[Round], next: u32) -> u32
    requires { next < 2 ^ 32 - 1 }
    ensures { result ≡ places_number rounds.now next }
{
    if rounds.is_empty() { next } else { next + 1 }
}

/// The first step.
fn first_step(
    s: &Setting,
    x: &Search,
    values: &NodeInfo,
    places: &NodeInfo,
    rounds: &[Round],
) -> Step
    requires setting { IsSetting s.now }
    requires search { IsSearch x.now }
    ensures { slice_get (pairs_found s.now x.now values.now places.now rounds.now) 0 ≡ Some result }
{
    let source = bytes_of(&x.from.chunk, x.from.dtype);
    let value = bytes_of(&x.made.chunk, x.from.dtype);
    let place = bytes_of(&x.made.chunk, x.made.dtype);
    Step {
        op: Op::PairFold {
            least: x.least,
            axis: x.axis,
            source: x.source,
            values: stored(rounds, s.first),
            out: places_number(rounds, s.first),
        },
        values: stored(rounds, *values),
        made: written_before(rounds, places, &x.made),
        need: s.reserved + pair_fold_bytes(source, value, place),
    }
}

/// A merge by its number.
fn pair_step(
    s: &Setting,
    x: &Search,
    values: &NodeInfo,
    places: &NodeInfo,
    rounds: &[Round],
    at: u32,
) -> Step
    requires setting { IsSetting s.now }
    requires search { IsSearch x.now }
    requires values { AreMerges values.now rounds.now }
    requires places { AreMerges places.now rounds.now }
    requires few { length rounds.now ≤ 24 }
    requires within { at < length rounds.now }
    ensures { slice_get (pair_merges s.now x.now s.now.first values.now places.now rounds.now) at ≡ Some result }
{
    let value = bytes_of(&x.made.chunk, x.from.dtype);
    let place = bytes_of(&x.made.chunk, x.made.dtype);
    let source = s.first + 2 * at;
    let rest = &rounds[at as usize + 1..];
    Step {
        op: Op::PairMerge {
            least: x.least,
            axis: rounds[at as usize].axis,
            group: s.split_every,
            value_source: source,
            place_source: source + 1,
            values: stored(rest, source + 2),
            out: places_number(rest, source + 2),
        },
        values: stored(rest, partial_after(values, rounds, at + 1)),
        made: written_before(rest, &partial_after(places, rounds, at + 1), &x.made),
        need: s.reserved + pair_merge_bytes(s.split_every, value, place),
    }
}
