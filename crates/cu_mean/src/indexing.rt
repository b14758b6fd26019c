//! The index at which an indexed array is read.
ghost use Rattle.std.specs.Prelude.{◌≡◌, ◌≢◌, ◌≤◌, ◌-◌, ◌++◌, ◌∷◌, [], ℕ, List, pos, ◌+ℤ◌, ◌*ℤ◌, drop, length, All, count_by, unwrap_or};
ghost use Rattle.std.specs.Bool.{OnTrue, OnFalse};
ghost use Rattle.cu_shape.specs.Slice.{from_end, first_of};
ghost use Rattle.cu_node.specs.declared.index_item.IndexItem.{IndexItem};
ghost use Rattle.cu_semantics.specs.Index.{natural};
ghost use Rattle.cu_semantics.specs.View.{indexed, sliced_index, uses_axis};
ghost use Rattle.cu_mean.specs.Indexing.{read_from, HasStep, IsFoundIndex, IsFrontWithin, IsOutsideEach, TakesEntry};

use crate::axes::natural;
use cu_form::IndexItem;
use cu_shape::{Dims, slice_of};

/// The most axes of an array.
const MOST_AXES: u32 = 6;

/// The largest size that is told.
const MOST_NUMBER: i128 = 18_446_744_073_709_551_615;

/// How far the entries of an index are taken: the first numbers of the index that is read, and the next axes of the array and of the
/// result's index.
#[derive(Drop)]
struct Front {
    read: Dims,
    axis: u32,
    at: u32,
}

/// What an entry of an index does.
#[derive(Clone, Copy)]
enum Taken {
    /// It goes on.
    Next,
    /// There is no axis for it: the rest of the result's index follows.
    Rest,
    /// What is read lies outside each array.
    Outside,
}

/// Appends a number, 0 for one below 0; not where no array has so many axes or so large a size.
fn push_number(read: &mut Dims, number: i128) -> bool
    ensures pushed { OnTrue result (read.new ≡ read.old ++ natural number ∷ []) }
    ensures outside { OnFalse result ((rest : List ℕ) → IsOutsideEach (read.old ++ natural number ∷ rest)) }
{
    if read.rank() == MOST_AXES {
        return false;
    }
    if number > MOST_NUMBER {
        return false;
    }
    read.push(natural(number));
    true
}

/// A place on an axis of size `n`, a negative one counted from the end.
fn place_on(x: i64, n: u64) -> i128
    ensures { result ≡ from_end x n }
{
    if x >= 0 {
        x as i128
    } else {
        n as i128 + x as i128
    }
}

/// `first + i * step`.
fn step_from(first: u64, i: u64, step: i64) -> i128
    ensures { result ≡ pos first +ℤ pos i *ℤ step }
{
    first as i128 + i as i128 * step as i128
}

/// The first index of a slice of an axis of size `n`, 0 where it has none.
fn first_of(start: Option<i64>, stop: Option<i64>, step: i64, n: u64) -> u64
    requires { step ≢ pos 0 }
    ensures { result ≡ first_of start stop step n }
{
    match slice_of(start, stop, step, n) {
        Ok(run) => run.first,
        Err(_) => 0,
    }
}

/// The place that a slice takes at `i` on an axis of size `n`.
fn slice_at(start: Option<i64>, stop: Option<i64>, step: Option<i64>, n: u64, i: u64) -> i128
    requires { unwrap_or step (pos 1) ≢ pos 0 }
    ensures { natural result ≡ sliced_index start stop (unwrap_or step (pos 1)) n i }
{
    let step = step.unwrap_or(1);
    step_from(first_of(start, stop, step, n), i, step)
}

/// Takes an entry that names one place.
fn take_place(x: i64, shape: &Dims, idx: &Dims, front: &mut Front) -> Taken
    requires { IsFrontWithin shape.now idx.now front.old }
    ensures front { IsFrontWithin shape.now idx.now front.new }
    ensures taken { (spare : ℕ) → TakesEntry (read_from spare shape.now idx.now) idx.now (IndexItem.At x) front.old front.new result }
{
    if front.axis == shape.rank() {
        return Taken::Rest;
    }
    if !push_number(&mut front.read, place_on(x, shape.at(front.axis))) {
        return Taken::Outside;
    }
    front.axis += 1;
    Taken::Next
}

/// The bounds of a slice, as they are written.
#[derive(Clone, Copy)]
struct SliceBounds {
    start: Option<i64>,
    stop: Option<i64>,
    step: Option<i64>,
}

/// Takes a slice.
fn take_slice(bounds: SliceBounds, shape: &Dims, idx: &Dims, front: &mut Front) -> Taken
    requires step { unwrap_or bounds.step (pos 1) ≢ pos 0 }
    requires front { IsFrontWithin shape.now idx.now front.old }
    ensures front { IsFrontWithin shape.now idx.now front.new }
    ensures taken { (spare : ℕ) → TakesEntry (read_from spare shape.now idx.now) idx.now (IndexItem.Slice bounds.start bounds.stop bounds.step) front.old front.new result }
{
    if front.axis == shape.rank() {
        return Taken::Rest;
    }
    if front.at == idx.rank() {
        return Taken::Rest;
    }
    let number = slice_at(
        bounds.start,
        bounds.stop,
        bounds.step,
        shape.at(front.axis),
        idx.at(front.at),
    );
    if !push_number(&mut front.read, number) {
        return Taken::Outside;
    }
    front.axis += 1;
    front.at += 1;
    Taken::Next
}

/// Takes a new axis.
fn take_new(shape: &Dims, idx: &Dims, front: &mut Front) -> Taken
    requires { IsFrontWithin shape.now idx.now front.old }
    ensures front { IsFrontWithin shape.now idx.now front.new }
    ensures taken { (spare : ℕ) → TakesEntry (read_from spare shape.now idx.now) idx.now IndexItem.New front.old front.new result }
{
    if front.at == idx.rank() {
        return Taken::Rest;
    }
    front.at += 1;
    Taken::Next
}

/// Takes the axes that no entry takes.
fn take_spare(spare: u32, shape: &Dims, idx: &Dims, front: &mut Front) -> Taken
    requires spare { spare ≤ 6 }
    requires front { IsFrontWithin shape.now idx.now front.old }
    ensures front { IsFrontWithin shape.now idx.now front.new }
    ensures taken { TakesEntry (read_from spare shape.now idx.now) idx.now IndexItem.Ellipsis front.old front.new result }
{
    let axes = shape.rank();
    let rank = idx.rank();
    let at = front.at;
    let end = (at + spare).min(rank);
    if front.read.rank() + (end - at) > MOST_AXES {
        return Taken::Outside;
    }
    front.read.push_range(idx, at, end);
    front.axis = (front.axis + spare).min(axes);
    front.at = end;
    Taken::Next
}

/// Takes an entry.
fn take_item(item: &IndexItem, spare: u32, shape: &Dims, idx: &Dims, front: &mut Front) -> Taken
    requires step { HasStep item.now }
    requires spare { spare ≤ 6 }
    requires front { IsFrontWithin shape.now idx.now front.old }
    ensures front { IsFrontWithin shape.now idx.now front.new }
    ensures taken { TakesEntry (read_from spare shape.now idx.now) idx.now item.now front.old front.new result }
{
    match *item {
        IndexItem::At(x) => take_place(x, shape, idx, front),
        IndexItem::Slice { start, stop, step } => {
            let bounds = SliceBounds { start, stop, step };
            take_slice(bounds, shape, idx, front)
        }
        IndexItem::New => take_new(shape, idx, front),
        IndexItem::Ellipsis => take_spare(spare, shape, idx, front),
    }
}

/// The index whose first numbers are read, with the rest of the result's index behind them.
fn with_rest(front: &Front, idx: &Dims) -> Option<Dims>
    requires { front.now.at ≤ length idx.now }
    ensures { IsFoundIndex (front.now.read ++ drop front.now.at idx.now) result }
{
    let rank = idx.rank();
    if front.read.rank() + (rank - front.at) > MOST_AXES {
        return None;
    }
    let mut read = front.read;
    read.push_range(idx, front.at, rank);
    Some(read)
}

/// Whether an entry takes an axis.
fn takes_axis(item: &IndexItem) -> bool
    ensures { result ≡ uses_axis item.now }
{
    match *item {
        IndexItem::New | IndexItem::Ellipsis => false,
        IndexItem::At(_) | IndexItem::Slice { .. } => true,
    }
}

/// How many axes no entry takes.
fn spare_axes(items: &[IndexItem], rank: u32) -> u32
    requires { rank ≤ 6 }
    ensures value { result ≡ rank - count_by uses_axis items.now }
    ensures few { result ≤ 6 }
{
    let mut spare = rank;
    for item in items {
        if takes_axis(item) {
            spare = spare.saturating_sub(1);
        }
    }
    spare
}

/// The index of the array at which an index of the result is read; none where it lies outside each array.
pub(crate) fn indexed(items: &[IndexItem], shape: &Dims, idx: &Dims) -> Option<Dims>
    requires { All HasStep items.now }
    ensures { IsFoundIndex (indexed items.now shape.now idx.now) result }
{
    let spare = spare_axes(items, shape.rank());
    let mut front = Front {
        read: Dims::default(),
        axis: 0,
        at: 0,
    };
    for item in items {
        match take_item(item, spare, shape, idx, &mut front) {
            Taken::Next => {}
            Taken::Rest => return with_rest(&front, idx),
            Taken::Outside => return None,
        }
    }
    with_rest(&front, idx)
}
