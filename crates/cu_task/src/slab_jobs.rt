//! Which maps are made slab by slab: those of which a view makes one of the two inputs where it is
//! read, and takes its elements from one stored chunk. And how that chunk is read.
ghost use Rattle.std.specs.Prelude.{◌≡◌, ◌*◌, ◌<◌, IfSome, IfErr, OnOk, length};
ghost use Rattle.std.specs.Bool.{OnTrue};
ghost use Rattle.cu_num.specs.Dtype.{size_of};
ghost use Rattle.cu_op.specs.TaskView.{walk_at};
ghost use Rattle.cu_region.specs.Calls.{Made};
ghost use Rattle.cu_region.specs.Writing.{AreElements};
ghost use Rattle.cu_store.specs.Chunks.{Adds, StaysOpen};
ghost use Rattle.cu_store.specs.Held.{Contents};
ghost use Rattle.cu_store.specs.Steps.{NoChange, Steps};
ghost use Rattle.cu_task.specs.OfTask.{calls_for_walk, tally_for_walk};
ghost use Rattle.cu_task.specs.OfTask.{HoldsFor, IsOwnFault, IsSure, MayRead};
ghost use Rattle.cu_task.specs.Slabs.{front_room, input_sizes, input_type, made_type};
ghost use Rattle.cu_task.specs.Slabs.{ArePartedSizes, AreSlabSizes, FitsSlabs, IsOnlyNeeded};
ghost use Rattle.cu_task.specs.Slabs.{IsMadeByView, IsSlabJob, MapsMade, MapsTwo, ShowsInput};
ghost use Rattle.cu_task.specs.ViewJobs.{source_of_chunk, IsViewJob};

use crate::inner::inner_task;
use crate::inputs::{input_walk, walk_bytes};
use crate::results::result_bytes;
use crate::routes::{Route, route_of};
use crate::views::{
    SourceChunk, ViewJob, fetch_front, front_bytes, is_needed, needed_hull, source_array,
};
use cu_grid::Region;
use cu_num::size;
use cu_op::PlanTask;
use cu_origin::Pull;
use cu_shape::{Dims, difference};
use cu_store::{Chunks, TaskFault};
use cu_view_box::Block;

/// About so many bytes has a slab of an input. With the strip it should fit into a core's first
/// or second cache.
const SLAB: usize = 1 << 15;

/// The view that makes an input of a task where it is read, and the input's place.
#[derive(Drop)]
pub(crate) struct MadeInput<'a> {
    /// What makes it.
    pub(crate) maker: PlanTask<'a>,
    /// The view of which that is a task.
    pub(crate) pull: &'a Pull,
    /// The numbers of the view's sources.
    pub(crate) ins: &'a [u32],
    /// Its place among the task's inputs.
    pub(crate) place: usize,
}

/// The sizes of a region that is gone through slab by slab.
#[derive(Clone, Copy)]
pub(crate) struct SlabSizes {
    /// The indices of its first axis.
    pub(crate) rows: usize,
    /// The elements at each of them.
    pub(crate) row: usize,
    /// How many of these indices a slab has; the first slab may have fewer.
    pub(crate) step: usize,
    /// The bytes of a slab of the result.
    pub(crate) gap: usize,
    /// The bytes of a slab of what the view shows.
    pub(crate) strip: usize,
}

/// The only chunk from which a view needs something.
#[derive(Clone, Copy)]
pub(crate) struct NeededChunk {
    /// Its coordinate.
    pub(crate) coord: Dims,
    /// A region of the source with all that is needed of it.
    pub(crate) needed: Region,
}

/// A map whose result is made slab by slab.
#[derive(Drop)]
pub(crate) struct SlabJob<'a> {
    /// The chunk of the view's source.
    pub(crate) chunk: &'a SourceChunk<'a>,
    /// What is read of it.
    pub(crate) front: Block,
    /// The place, among the map's inputs, of the one that the view makes.
    pub(crate) place: usize,
    /// The sizes of the region.
    pub(crate) sizes: SlabSizes,
}

/// What makes one of the two inputs of a map where it is read, where that is a view: of the last
/// one, if it does so of both.
pub(crate) fn viewed_input<'a>(task: &PlanTask<'a>) -> Option<MadeInput<'a>>
    ensures input { IfSome result (λ m. MapsMade task.now m.place m.maker) }
    ensures view { IfSome result (λ m. IsMadeByView m) }
{
    // No operation but a map has a kernel.
    task.operation().kernel()?;
    if task.input_walks().len() != 2 {
        return None;
    }
    match viewed_at(task, 1) {
        Some(made) => Some(made),
        None => viewed_at(task, 0),
    }
}

/// What makes the input at a place where it is read, where that is a view.
fn viewed_at<'a>(task: &PlanTask<'a>, place: usize) -> Option<MadeInput<'a>>
    requires maps { MapsTwo task.now }
    requires place { place < 2 }
    ensures input { IfSome result (λ m. MapsMade task.now m.place m.maker) }
    ensures view { IfSome result (λ m. IsMadeByView m) }
{
    let maker = inner_task(task, place)?;
    let Route::View { pull, ins } = route_of(&maker) else {
        return None;
    };
    Some(MadeInput {
        maker,
        pull,
        ins,
        place,
    })
}

/// Whether the memory of a task has room for its slabs.
pub(crate) fn fits_slabs(task: &PlanTask<'_>, job: &SlabJob<'_>, room: usize) -> bool
    requires { IsSlabJob task.now job.now }
    ensures { OnTrue result (FitsSlabs task.now job.now room) }
{
    let chunk = front_bytes(job.chunk, &job.front);
    let made = result_bytes(task);
    let free = walk_bytes(task, &input_walk(task, job.place)).saturating_add(made);
    let beside = chunk.saturating_add(job.sizes.gap);
    let all = beside.saturating_add(job.sizes.strip).saturating_add(made);
    beside <= free && all <= room && free < usize::MAX && all < usize::MAX
}

/// The chunk that has all that a view needs; none where it has other sources, or needs more chunks.
pub(crate) fn only_chunk(job: &ViewJob<'_>) -> Option<NeededChunk>
    requires { IsViewJob job.now }
    ensures { IfSome result (λ c. IsOnlyNeeded job.now c) }
{
    if job.ins.len() != 1 {
        return None;
    }
    if let Pull::Reshape = job.pull {
        return None;
    }
    let needed = needed_hull(job, 0)?;
    let from = source_array(job, 0);
    let mut cover = from.layout.grid.cover(&needed);
    let coord = cover.next()?;
    if cover.next().is_some() {
        return None;
    }
    let chunk = SourceChunk {
        job: &*job,
        source: 0,
        coord,
        needed,
    };
    if !is_needed(&chunk) {
        return None;
    }
    Some(NeededChunk { coord, needed })
}

/// The sizes of a task's region by slabs; none where an input is stretched over it, or where the
/// other input has elements of other sizes than the result.
pub(crate) fn slab_sizes(task: &PlanTask<'_>, place: usize) -> Option<SlabSizes>
    requires maps { MapsTwo task.now }
    requires place { place < 2 }
    ensures { IfSome result (λ s. AreSlabSizes task.now place s) }
{
    let region = task.region();
    let sizes = difference(&region.hi, &region.lo);
    if !has_sizes(task, 0, &sizes) || !has_sizes(task, 1, &sizes) {
        return None;
    }
    let made = made_size(task);
    if input_size(task, 1 - place) != made {
        return None;
    }
    parted_sizes(&sizes, input_size(task, place), made)
}

/// Whether an input's region has these sizes.
fn has_sizes(task: &PlanTask<'_>, place: usize, sizes: &Dims) -> bool
    requires maps { MapsTwo task.now }
    requires place { place < 2 }
    ensures { OnTrue result (input_sizes task.now place ≡ sizes.now) }
{
    let walk = input_walk(task, place);
    difference(&walk.region.hi, &walk.region.lo).is(sizes)
}

/// The bytes of an element of an input.
pub(crate) fn input_size(task: &PlanTask<'_>, place: usize) -> usize
    requires maps { MapsTwo task.now }
    requires place { place < 2 }
    ensures { result ≡ size_of (input_type task.now place) }
{
    size(task.array(input_walk(task, place).array).layout.dtype) as usize
}

/// The bytes of an element of the result.
pub(crate) fn made_size(task: &PlanTask<'_>) -> usize
    ensures { result ≡ size_of (made_type task.now) }
{
    size(task.array(task.operation().target()).layout.dtype) as usize
}

/// Slabs of a region of these sizes, whose elements have so many bytes; none of an empty one.
fn parted_sizes(sizes: &Dims, view: usize, made: usize) -> Option<SlabSizes>
    ensures { IfSome result (λ s. ArePartedSizes sizes.now view made s) }
{
    if sizes.rank() == 0 {
        return None;
    }
    let rows = sizes.at(0) as usize;
    let mut behind = *sizes;
    behind.put(0, 1);
    let row = behind.elements()? as usize;
    let bytes = row.checked_mul(view.max(made))?;
    if rows == 0 || bytes == 0 {
        return None;
    }
    let step = (SLAB / bytes).max(1).min(rows);
    let count = step.checked_mul(row)?;
    let gap = count.checked_mul(made)?;
    let strip = count.checked_mul(view)?;
    Some(SlabSizes {
        rows,
        row,
        step,
        gap,
        strip,
    })
}

/// Reads what is needed of the chunk of the view's source.
pub(crate) fn fetch_shown<C: Chunks>(
    store: &C::Store,
    access: &mut C::Access,
    task: &PlanTask<'_>,
    job: &SlabJob<'_>,
    front: &mut [u8],
) -> Result<(), TaskFault>
    requires belongs { C.belongs store.now access.old }
    requires may { MayRead task.now (C.may_get store.now access.old) }
    requires job { IsSlabJob task.now job.now }
    requires front { length front.old ≡ front_room job.now }
    ensures open { StaysOpen (C.belongs store.now access.new) (C.may_get store.now access.old)
        (C.may_get store.now access.new) }
    ensures read { (held : Contents) → HoldsFor task.now held (C.shown access.old)
        → OnOk result (ShowsInput task.now job.now held front.new) }
    ensures elements { OnOk result
        (AreElements (source_of_chunk job.now.chunk.now).layout.dtype front.new) }
    ensures step { Steps NoChange 0 (calls_for_walk task.now (walk_at task.now job.now.place))
        (C.shown access.old) (C.shown access.new) }
    ensures all { IsSure task.now
        → OnOk result (Made (calls_for_walk task.now (walk_at task.now job.now.place))
        (C.shown access.old).calls (C.shown access.new).calls) }
    ensures called { IsSure task.now → OnOk result
        (Adds (tally_for_walk (C.weight store.now) task.now (walk_at task.now job.now.place))
        (C.tally access.old) (C.tally access.new)) }
    ensures cause { IfErr result (IsOwnFault task.now (C.shown access.old) (C.shown access.new)) }
{
    fetch_front::<C>(store, access, job.chunk, &job.front, front)
}
