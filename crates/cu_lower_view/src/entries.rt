//! The runs that an index takes of an array.
ghost use Rattle.std.specs.Prelude.{◌≡◌, ◌+◌, ◌<◌, ◌≤◌, ◌^◌, ◌++◌, [], ◌∷◌, IfSome, IfNone, length, map, take, drop};
ghost use Rattle.cu_origin.specs.declared.pull.Pull.TheVariants.{Slice};
ghost use Rattle.cu_lower_view.specs.Runs.{whole_run, single_run, slice_run, runs_left, index_runs, axis_taken, axes_taken};
ghost use Rattle.cu_lower_view.specs.View.{slice_pull};

use arrayvec::ArrayVec;
use cu_node::{IndexItem, size_at};
use cu_origin::Pull;
use cu_shape::{Dims, Run, slice_of};
use cu_typing_view::{untaken, width_of};

/// All indices of an axis.
fn whole_run(size: u64) -> Run
    ensures { result ≡ whole_run size }
{
    Run {
        first: 0,
        step: 1,
        count: size,
    }
}

/// The one index that an integer names, a negative one counted from the end.
fn single_run(index: i64, size: u64) -> Run
    ensures { result ≡ single_run index size }
{
    let first = if index < 0 {
        size.saturating_sub(index.unsigned_abs())
    } else {
        index as u64
    };
    Run {
        first,
        step: 1,
        count: 1,
    }
}

/// The indices that a slice takes, none where its step is 0.
#[tactic(auto, unfolding(crate::specs::Runs::slice_run))]
fn slice_run(start: Option<i64>, stop: Option<i64>, step: i64, size: u64) -> Run
    ensures { result ≡ slice_run start stop step size }
{
    match slice_of(start, stop, step, size) {
        Ok(run) => run,
        Err(_) => whole_run(0),
    }
}

/// The runs and one more; none where they are six.
fn with_run(mut runs: ArrayVec<Run, 6>, run: Run) -> Option<ArrayVec<Run, 6>>
    ensures more { IfSome result (λ r. r.items ≡ runs.items ++ run ∷ []) }
    ensures full { IfNone result (length runs.items ≡ 6) }
{
    if runs.is_full() {
        return None;
    }
    runs.push(run);
    Some(runs)
}

/// The runs and whole ones of `count` axes from `first` on; none where that is more than six.
fn with_whole(
    mut runs: ArrayVec<Run, 6>,
    sizes: &Dims,
    first: u32,
    count: u32,
) -> Option<ArrayVec<Run, 6>>
    requires within { first ≤ length sizes.now }
    requires few { count ≤ 6 }
    ensures more { IfSome result (λ r. r.items ≡ runs.items ++ map whole_run (take count (drop first sizes.now))) }
    ensures full { IfNone result (6 < length runs.items + length (map whole_run (take count (drop first sizes.now)))) }
{
    let rank = sizes.rank();
    let end = (first + count).min(rank);
    for axis in first..end {
        runs = with_run(runs, whole_run(sizes.at(axis)))?;
    }
    Some(runs)
}

/// The runs and those of the axes that an entry takes, which are the axes from `axis` on; none where that is more than six.
fn with_entry(
    runs: ArrayVec<Run, 6>,
    more: u32,
    item: &IndexItem,
    sizes: &Dims,
    axis: u32,
) -> Option<ArrayVec<Run, 6>>
    requires more { more ≤ 6 }
    requires within { axis ≤ length sizes.now }
    ensures more { IfSome result (λ r. r.items ≡ runs.items ++ runs_left more item.now (drop axis sizes.now)) }
    ensures full { IfNone result (6 < length runs.items + length (runs_left more item.now (drop axis sizes.now))) }
{
    match item {
        IndexItem::At(index) => with_run(runs, single_run(*index, size_at(sizes, axis))),
        IndexItem::Slice { start, stop, step } => {
            with_run(
                runs,
                slice_run(*start, *stop, step.unwrap_or(1), size_at(sizes, axis)),
            )
        }
        IndexItem::New => Some(runs),
        IndexItem::Ellipsis => with_whole(runs, sizes, axis, more),
    }
}

/// The run of each axis; none where that is more than six.
fn index_runs(more: u32, items: &[IndexItem], sizes: &Dims) -> Option<ArrayVec<Run, 6>>
    requires { more ≤ 6 }
    ensures runs { IfSome result (λ r. r.items ≡ index_runs more items.now sizes.now) }
    ensures full { IfNone result (6 < length (index_runs more items.now sizes.now)) }
{
    let rank = sizes.rank();
    let mut runs = ArrayVec::new();
    let mut axis = 0;
    for item in items {
        runs = with_entry(runs, more, item, sizes, axis)?;
        axis = (axis + width_of(more, item)).min(rank);
    }
    with_whole(runs, sizes, axis, rank)
}

/// The axes and that of an integer entry.
fn with_axis(mut taken: ArrayVec<u32, 6>, item: &IndexItem, axis: u32) -> ArrayVec<u32, 6>
    requires { length taken.items + length (axis_taken item.now axis) ≤ 6 }
    ensures { result.items ≡ taken.items ++ axis_taken item.now axis }
{
    if let IndexItem::At(_) = item {
        taken.push(axis);
    }
    taken
}

/// The axes that the result lacks, of an index that takes at most six.
fn axes_taken(more: u32, items: &[IndexItem], sizes: &Dims) -> ArrayVec<u32, 6>
    requires more { more ≤ 6 }
    requires few { length (index_runs more items.now sizes.now) ≤ 6 }
    ensures { result.items ≡ axes_taken more (length sizes.now) items.now sizes.now }
{
    let rank = sizes.rank();
    let mut taken = ArrayVec::new();
    let mut axis = 0;
    for item in items {
        taken = with_axis(taken, item, axis);
        axis = (axis + width_of(more, item)).min(rank);
    }
    taken
}

/// The pull of an index: a run of each axis, and the axes of integers; none where it has more runs than an array has axes.
pub(crate) fn slice_pull(items: &[IndexItem], source: &Dims) -> Option<Pull>
    requires { length items.now < 2 ^ 32 }
    ensures { result ≡ slice_pull items.now source.now }
{
    let more = untaken(source.rank(), items);
    let runs = index_runs(more, items, source)?;
    let taken = axes_taken(more, items, source);
    Some(Pull::Slice { runs, taken })
}

/// The pull of the whole of each axis.
pub(crate) fn whole_pull(source: &Dims) -> Pull
    ensures { result ≡ Slice (record { items = map whole_run source.now }) (record { items = [] }) }
{
    let mut runs = ArrayVec::new();
    for axis in 0..source.rank() {
        runs.push(whole_run(source.at(axis)));
    }
    Pull::Slice {
        runs,
        taken: ArrayVec::new(),
    }
}
