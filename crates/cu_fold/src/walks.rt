//! Regions walked level by level.
ghost use Rattle.std.specs.Prelude.{◌≡◌, ◌+◌, ◌-◌, ◌*◌, ◌^◌, ◌<◌, ◌≤◌, ℕ, min, true, not, [], ◌∷◌, if◌then◌else◌, length};
ghost use Rattle.cu_num.specs.Dtype.{size_of};
ghost use Rattle.cu_reduce.specs.Kinds.{Accumulates};
ghost use Rattle.cu_fold.specs.Levels.{extent, results};
ghost use Rattle.cu_fold.specs.Taken.{TakesPart};

use crate::last::take_last;
use crate::leaves::{SHORT, later};
use crate::levels::{Leaf, Level};
use crate::types::{Fold, Places};
use cu_num::size;
use cu_take::take_one;

/// How the results of a level's indices stand in a buffer, in bytes.
#[derive(Clone, Copy)]
struct Room {
    /// Those of one index.
    size: usize,
    /// How much further on those of the next index begin.
    step: usize,
}

/// How the results of a level's indices stand in a buffer of `bytes` bytes.
fn room_of(level: Level, bytes: usize) -> Room
    requires { 0 < level.size }
    ensures size { (own : ℕ) → bytes ≡ (if level.is_reduced then own else level.size * own) → result.size ≡ own }
    ensures step { result.step ≡ (if level.is_reduced then 0 else result.size) }
{
    if level.is_reduced {
        return Room {
            size: bytes,
            step: 0,
        };
    }
    let size = bytes / level.size;
    Room { size, step: size }
}

/// Those of a region's places that lie in the part from place `first` on, with `inner` places, counted in that part.
fn places_within(places: Places, first: usize, inner: usize) -> Places
    requires begun { places.start < first + inner }
    requires reached { first < places.start + places.count }
    ensures start { result.start ≡ places.start - first }
    ensures count { result.count ≡ min (inner - (places.start - first)) (places.count - (first - places.start)) }
{
    let start = places.start.saturating_sub(first);
    let count = places.count - first.saturating_sub(places.start);
    Places {
        start,
        count: count.min(inner - start),
    }
}

/// Takes the elements of some places of a region of one level into the results that stand in `out`. `input` begins with them.
fn take_level(fold: Fold, level: Level, places: Places, input: &[u8], out: &mut [u8])
    requires types { Accumulates fold.kind fold.from fold.acc }
    requires places { places.start + places.count ≤ level.size }
    requires input { places.count * size_of fold.from ≤ length input.now }
    requires out { length out.old ≡ results (level ∷ []) * size_of fold.acc }
    ensures { TakesPart fold (level ∷ []) places input.now out.old out.new }
{
    if level.is_reduced {
        take_last(fold, Leaf::Run(places.count), input, out);
    } else {
        let size = size(fold.acc) as usize;
        let start = places.start * size;
        take_last(
            fold,
            Leaf::Row(places.count),
            input,
            &mut out[start..start + places.count * size],
        );
    }
}

/// Takes the elements of some places of index `i` of a level, each of which has one level more, into the results that stand in `out`.
fn take_index(
    fold: Fold,
    level: Level,
    inner: Level,
    i: usize,
    places: Places,
    input: &[u8],
    out: &mut [u8],
)
    requires types { Accumulates fold.kind fold.from fold.acc }
    requires places { places.start + places.count ≤ inner.size }
    requires index { i * inner.size + places.start + places.count ≤ level.size * inner.size }
    requires input { places.count * size_of fold.from ≤ length input.now }
    requires out { length out.old ≡ results (level ∷ inner ∷ []) * size_of fold.acc }
    ensures { TakesPart fold (level ∷ inner ∷ []) (record { start = i * inner.size + places.start; count = places.count }) input.now out.old out.new }
{
    if places.count == 0 {
        return;
    }
    let room = room_of(level, out.len());
    let part = &mut out[i * room.step..i * room.step + room.size];
    take_level(fold, inner, places, input, part);
}

/// Whole indices of a level: so many from the first on.
#[derive(Clone, Copy)]
struct Whole {
    first: usize,
    count: usize,
}

/// The indices that these places have whole, of indices of `inner` places. Where there are none, the first is the next that begins.
fn whole_indices(places: Places, inner: usize) -> Whole
    requires inner { 0 < inner }
    requires places { places.start + places.count < 2 ^ 64 }
    ensures begun { places.start ≤ result.first * inner }
    ensures next { result.first * inner < places.start + inner }
    ensures reached { result.first * inner ≤ places.start + places.count → (result.first + result.count) * inner ≤ places.start + places.count }
    ensures all { places.start + places.count < (result.first + result.count) * inner + inner }
{
    let first = places.start / inner + usize::from(places.start % inner > 0);
    let end = (places.start + places.count) / inner;
    Whole {
        first,
        count: end.saturating_sub(first),
    }
}

/// Takes the elements of whole indices of a level, rows or runs, into the results that stand in `out`.
fn take_whole(fold: Fold, level: Level, inner: Level, whole: Whole, input: &[u8], out: &mut [u8])
    requires types { Accumulates fold.kind fold.from fold.acc }
    requires kinds { inner.is_reduced ≡ not level.is_reduced }
    requires indices { whole.first + whole.count ≤ level.size }
    requires input { whole.count * inner.size * size_of fold.from ≤ length input.now }
    requires out { length out.old ≡ results (level ∷ inner ∷ []) * size_of fold.acc }
    ensures { TakesPart fold (level ∷ inner ∷ []) (record { start = whole.first * inner.size; count = whole.count * inner.size }) input.now out.old out.new }
{
    if level.is_reduced {
        take_last(fold, Leaf::Rows(whole.count, inner.size), input, out);
    } else {
        let size = size(fold.acc) as usize;
        let start = whole.first * size;
        take_last(
            fold,
            Leaf::Runs(whole.count, inner.size),
            input,
            &mut out[start..start + whole.count * size],
        );
    }
}

/// Takes the elements of some places of a region of two levels into the results that stand in `out`: whole indices by one loop.
fn take_pair(fold: Fold, level: Level, inner: Level, places: Places, input: &[u8], out: &mut [u8])
    requires types { Accumulates fold.kind fold.from fold.acc }
    requires kinds { inner.is_reduced ≡ not level.is_reduced }
    requires inner { 0 < inner.size }
    requires places { places.start + places.count ≤ level.size * inner.size }
    requires size { level.size * inner.size < 2 ^ 64 }
    requires input { places.count * size_of fold.from ≤ length input.now }
    requires out { length out.old ≡ results (level ∷ inner ∷ []) * size_of fold.acc }
    ensures { TakesPart fold (level ∷ inner ∷ []) places input.now out.old out.new }
{
    let size = size(fold.from) as usize;
    let whole = whole_indices(places, inner.size);
    let first = places.start / inner.size;
    let head = Places {
        start: places.start % inner.size,
        count: places.count.min(whole.first * inner.size - places.start),
    };
    take_index(fold, level, inner, first, head, input, out);
    if head.count == places.count {
        return;
    }
    take_whole(
        fold,
        level,
        inner,
        whole,
        later(input, head.count, size),
        out,
    );
    let end = whole.first + whole.count;
    let past = end * inner.size - places.start;
    let tail = Places {
        start: 0,
        count: places.count - past,
    };
    take_index(fold, level, inner, end, tail, later(input, past, size), out);
}

/// Whether one loop takes the indices of a level, each of which has one level more: rows, or short runs.
fn is_pair(level: Level, inner: Level) -> bool
    ensures { result ≡ true → inner.is_reduced ≡ not level.is_reduced }
{
    if level.is_reduced {
        return !inner.is_reduced;
    }
    inner.is_reduced && inner.size <= SHORT
}

/// Takes the elements of some places of a region into the results that stand in `out`. The region has these levels, and `whole` places.
/// `input` begins with the elements.
pub(crate) fn take_part(
    fold: Fold,
    levels: &[Level],
    whole: usize,
    places: Places,
    input: &[u8],
    out: &mut [u8],
)
    requires types { Accumulates fold.kind fold.from fold.acc }
    requires whole { whole ≡ extent levels.now }
    requires places { places.start + places.count ≤ whole }
    requires input { places.count * size_of fold.from ≤ length input.now }
    requires out { length out.old ≡ results levels.now * size_of fold.acc }
    ensures { TakesPart fold levels.now places input.now out.old out.new }
{
    if places.count == 0 {
        return;
    }
    let Some((level, rest)) = levels.split_first() else {
        take_one(fold.kind, fold.from, fold.acc, input, 0, out, 0);
        return;
    };
    if rest.is_empty() {
        take_level(fold, *level, places, input, out);
        return;
    }
    if let [inner] = rest {
        if is_pair(*level, *inner) {
            take_pair(fold, *level, *inner, places, input, out);
            return;
        }
    }
    let inner = whole / level.size;
    let room = room_of(*level, out.len());
    let size = size(fold.from) as usize;
    let last = (places.start + places.count - 1) / inner;
    for i in places.start / inner..last + 1 {
        let own = places_within(places, i * inner, inner);
        let after = later(input, (i * inner).saturating_sub(places.start), size);
        let part = &mut out[i * room.step..i * room.step + room.size];
        take_part(fold, rest, inner, own, after, part);
    }
}
