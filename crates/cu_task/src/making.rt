//! What a task makes in its memory: where an array that it reads is made where it is read, that
//! array's region is made there too, by the operation that makes it.
//!
//! What is made stands at the end of the memory, and what stands before it is free until it is
//! made. So the regions that a task reads are made from the last one to the first, each before the
//! one that was made before it.
ghost use Rattle.std.specs.Prelude.{◌≡◌, ◌+◌, ◌<◌, ◌≤◌, length, IfErr, OnOk};
ghost use Rattle.cu_store.specs.Held.{Contents};
ghost use Rattle.cu_store.specs.Chunks.{Adds, StaysOpen};
ghost use Rattle.cu_store.specs.Steps.{NoChange, Steps};
ghost use Rattle.cu_op.specs.TaskView.{task_op, walk_at};
ghost use Rattle.cu_region.specs.Calls.{Made};
ghost use Rattle.cu_region.specs.Writing.{AreElements};
ghost use Rattle.cu_task.specs.Inputs.{last_bytes, walk_room, room_of_walks, HasRegions};
ghost use Rattle.cu_task.specs.OfTask.{calls_for_walk, calls_for_walks, calls_to_read};
ghost use Rattle.cu_task.specs.OfTask.{tally_for_walk, tally_for_walks, tally_to_read};
ghost use Rattle.cu_task.specs.OfTask.{held_inputs, kernel_words, walks_from, work_bytes, HasWalk};
ghost use Rattle.cu_task.specs.OfTask.{HoldsFor, IsOwnFault, IsSure, MayRead};
ghost use Rattle.cu_task.specs.Slabs.{front_room, other_place, task_of_chunk, FitsSlabs};
ghost use Rattle.cu_task.specs.Slabs.{IsMadeByView, IsOnlyChunk, IsSlabJob, MapsMade};
ghost use Rattle.cu_task.specs.Slabs.{ShowsInput};
ghost use Rattle.cu_task.specs.Strips.{FoldsMap};
ghost use Rattle.cu_task.specs.Task.{IsComputing};
ghost use Rattle.cu_task.specs.ViewJobs.{source_of_chunk};
ghost use Rattle.cu_task.specs.TaskRoom.{output_in, room_bytes, found_values_in};
ghost use Rattle.cu_task.specs.TaskRoom.{AreAllOfTheirTypes, HasMadeAll};

use crate::compute::compute;
use crate::copies::copy_region;
use crate::inner::inner_task;
use crate::inputs::{bytes_from, input_walk, read_walk, walk_bytes};
use crate::merges::{merge_by_parts, part_merge};
use crate::pulls::pull_result;
use crate::results::{result_bytes, value_bytes};
use crate::room::kept_bytes;
use crate::routes::{Route, route_of};
use crate::slab_jobs::{
    MadeInput, SlabJob, fetch_shown, fits_slabs, only_chunk, slab_sizes, viewed_input,
};
use crate::slabs::make_slabs;
use crate::strips::{fold_map, folded_map};
use crate::views::{SourceChunk, ViewJob, front_block, front_bytes, shapes_of};
use cu_op::PlanTask;
use cu_store::{Chunks, TaskFault};

/// The elements of the result in the region of a task, and the values that a search finds,
/// row-major and little-endian, at the end of `room`.
#[cycle(make)]
pub(crate) fn make_result<C: Chunks>(
    store: &C::Store,
    access: &mut C::Access,
    task: &PlanTask<'_>,
    room: &mut [u8],
    words: &mut [u64],
) -> Result<(), TaskFault>
    requires belongs { C.belongs store.now access.old }
    requires may { MayRead task.now (C.may_get store.now access.old) }
    requires room { room_bytes task.now ≤ length room.old }
    requires words { kernel_words task.now ≤ length words.old }
    ensures open { StaysOpen (C.belongs store.now access.new) (C.may_get store.now access.old)
        (C.may_get store.now access.new) }
    ensures made { (held : Contents) → HoldsFor task.now held (C.shown access.old)
        → OnOk result (HasMadeAll task.now (held_inputs task.now held)
        (found_values_in task.now room.new) (output_in task.now room.new)) }
    ensures elements { OnOk result (AreAllOfTheirTypes task.now (found_values_in task.now room.new)
        (output_in task.now room.new)) }
    ensures step { Steps NoChange 0 (calls_to_read task.now) (C.shown access.old)
        (C.shown access.new) }
    ensures all { IsSure task.now → OnOk result (Made (calls_to_read task.now)
        (C.shown access.old).calls (C.shown access.new).calls) }
    ensures called { IsSure task.now → OnOk result (Adds (tally_to_read (C.weight store.now) task.now)
        (C.tally access.old) (C.tally access.new)) }
    ensures cause { IfErr result (IsOwnFault task.now (C.shown access.old) (C.shown access.new)) }
{
    match route_of(task) {
        Route::View { pull, ins } => {
            let shapes = shapes_of(task, ins);
            let job = ViewJob {
                task: &*task,
                pull,
                ins,
                shapes: shapes.as_slice(),
            };
            pull_result::<C>(store, access, &job, room)
        }
        Route::Copying => {
            let before = room.len() - result_bytes(task);
            let (scratch, output) = room.split_at_mut(before);
            copy_region::<C>(store, access, task, output, scratch)
        }
        Route::Computing => match folded_map(task) {
            Some(map) => fold_by_strips::<C>(store, access, task, &map, room, words),
            None => match part_merge(task) {
                Some(merge) => merge_by_parts::<C>(store, access, task, &merge, room),
                None => match viewed_input(task) {
                    Some(input) => map_shown::<C>(store, access, task, &input, room, words),
                    None => compute_result::<C>(store, access, task, room, words),
                },
            },
        },
    }
}

/// The same of an operation that computes from whole regions.
#[cycle(make)]
fn compute_result<C: Chunks>(
    store: &C::Store,
    access: &mut C::Access,
    task: &PlanTask<'_>,
    room: &mut [u8],
    words: &mut [u64],
) -> Result<(), TaskFault>
    requires belongs { C.belongs store.now access.old }
    requires may { MayRead task.now (C.may_get store.now access.old) }
    requires computing { IsComputing (task_op task.now) }
    requires room { room_bytes task.now ≤ length room.old }
    requires words { kernel_words task.now ≤ length words.old }
    ensures open { StaysOpen (C.belongs store.now access.new) (C.may_get store.now access.old)
        (C.may_get store.now access.new) }
    ensures made { (held : Contents) → HoldsFor task.now held (C.shown access.old)
        → OnOk result (HasMadeAll task.now (held_inputs task.now held)
        (found_values_in task.now room.new) (output_in task.now room.new)) }
    ensures elements { OnOk result (AreAllOfTheirTypes task.now (found_values_in task.now room.new)
        (output_in task.now room.new)) }
    ensures step { Steps NoChange 0 (calls_to_read task.now) (C.shown access.old)
        (C.shown access.new) }
    ensures all { IsSure task.now → OnOk result (Made (calls_to_read task.now)
        (C.shown access.old).calls (C.shown access.new).calls) }
    ensures called { IsSure task.now → OnOk result (Adds (tally_to_read (C.weight store.now) task.now)
        (C.tally access.old) (C.tally access.new)) }
    ensures cause { IfErr result (IsOwnFault task.now (C.shown access.old) (C.shown access.new)) }
{
    let before_output = room.len() - result_bytes(task);
    let (front, output) = room.split_at_mut(before_output);
    let before_values = before_output - value_bytes(task);
    let (reads, values) = front.split_at_mut(before_values);
    read_inputs::<C>(store, access, task, 0, reads, words)?;
    let before_inputs = before_values - kept_bytes(task);
    let (_, inputs) = reads.split_at_mut(before_inputs);
    compute(task, inputs, values, output, words);
    Ok(())
}

/// The same of a fold that a map makes the input of where it is read. What the map makes of the
/// regions that it reads is folded strip by strip. A strip stands where the fold's own region
/// would, and the map's regions before that.
#[cycle(make)]
fn fold_by_strips<C: Chunks>(
    store: &C::Store,
    access: &mut C::Access,
    task: &PlanTask<'_>,
    map: &PlanTask<'_>,
    room: &mut [u8],
    words: &mut [u64],
) -> Result<(), TaskFault>
    requires belongs { C.belongs store.now access.old }
    requires may { MayRead task.now (C.may_get store.now access.old) }
    requires map { FoldsMap task.now map.now }
    requires room { room_bytes task.now ≤ length room.old }
    requires words { kernel_words task.now ≤ length words.old }
    ensures open { StaysOpen (C.belongs store.now access.new) (C.may_get store.now access.old)
        (C.may_get store.now access.new) }
    ensures made { (held : Contents) → HoldsFor task.now held (C.shown access.old)
        → OnOk result (HasMadeAll task.now (held_inputs task.now held)
        (found_values_in task.now room.new) (output_in task.now room.new)) }
    ensures elements { OnOk result (AreAllOfTheirTypes task.now (found_values_in task.now room.new)
        (output_in task.now room.new)) }
    ensures step { Steps NoChange 0 (calls_to_read task.now) (C.shown access.old)
        (C.shown access.new) }
    ensures all { IsSure task.now → OnOk result (Made (calls_to_read task.now)
        (C.shown access.old).calls (C.shown access.new).calls) }
    ensures called { IsSure task.now → OnOk result (Adds (tally_to_read (C.weight store.now) task.now)
        (C.tally access.old) (C.tally access.new)) }
    ensures cause { IfErr result (IsOwnFault task.now (C.shown access.old) (C.shown access.new)) }
{
    let before_output = room.len() - result_bytes(task);
    let (front, output) = room.split_at_mut(before_output);
    let before_strip = before_output - kept_bytes(task);
    let (reads, strip) = front.split_at_mut(before_strip);
    read_inputs::<C>(store, access, map, 0, reads, words)?;
    let before_inputs = before_strip - kept_bytes(map);
    let (_, inputs) = reads.split_at_mut(before_inputs);
    fold_map(task, map, inputs, strip, output, words);
    Ok(())
}

/// The same of a map of which a view makes an input where it is read: slab by slab where that is
/// possible, and else from whole regions.
#[cycle(make)]
fn map_shown<C: Chunks>(
    store: &C::Store,
    access: &mut C::Access,
    task: &PlanTask<'_>,
    input: &MadeInput<'_>,
    room: &mut [u8],
    words: &mut [u64],
) -> Result<(), TaskFault>
    requires belongs { C.belongs store.now access.old }
    requires may { MayRead task.now (C.may_get store.now access.old) }
    requires input { MapsMade task.now input.now.place input.now.maker }
    requires view { IsMadeByView input.now }
    requires room { room_bytes task.now ≤ length room.old }
    requires words { kernel_words task.now ≤ length words.old }
    ensures open { StaysOpen (C.belongs store.now access.new) (C.may_get store.now access.old)
        (C.may_get store.now access.new) }
    ensures made { (held : Contents) → HoldsFor task.now held (C.shown access.old)
        → OnOk result (HasMadeAll task.now (held_inputs task.now held)
        (found_values_in task.now room.new) (output_in task.now room.new)) }
    ensures elements { OnOk result (AreAllOfTheirTypes task.now (found_values_in task.now room.new)
        (output_in task.now room.new)) }
    ensures step { Steps NoChange 0 (calls_to_read task.now) (C.shown access.old)
        (C.shown access.new) }
    ensures all { IsSure task.now → OnOk result (Made (calls_to_read task.now)
        (C.shown access.old).calls (C.shown access.new).calls) }
    ensures called { IsSure task.now → OnOk result (Adds (tally_to_read (C.weight store.now) task.now)
        (C.tally access.old) (C.tally access.new)) }
    ensures cause { IfErr result (IsOwnFault task.now (C.shown access.old) (C.shown access.new)) }
{
    let shapes = shapes_of(&input.maker, input.ins);
    let job = ViewJob {
        task: &input.maker,
        pull: input.pull,
        ins: input.ins,
        shapes: shapes.as_slice(),
    };
    match only_chunk(&job) {
        Some(only) => {
            let chunk = SourceChunk {
                job: &job,
                source: 0,
                coord: only.coord,
                needed: only.needed,
            };
            map_from_chunk::<C>(store, access, task, input.place, &chunk, room, words)
        }
        None => compute_result::<C>(store, access, task, room, words),
    }
}

/// The same, where all that the view needs of its source is in one chunk.
#[cycle(make)]
fn map_from_chunk<C: Chunks>(
    store: &C::Store,
    access: &mut C::Access,
    task: &PlanTask<'_>,
    place: usize,
    chunk: &SourceChunk<'_>,
    room: &mut [u8],
    words: &mut [u64],
) -> Result<(), TaskFault>
    requires belongs { C.belongs store.now access.old }
    requires may { MayRead task.now (C.may_get store.now access.old) }
    requires input { MapsMade task.now place (task_of_chunk chunk.now) }
    requires only { IsOnlyChunk chunk.now }
    requires room { room_bytes task.now ≤ length room.old }
    requires words { kernel_words task.now ≤ length words.old }
    ensures open { StaysOpen (C.belongs store.now access.new) (C.may_get store.now access.old)
        (C.may_get store.now access.new) }
    ensures made { (held : Contents) → HoldsFor task.now held (C.shown access.old)
        → OnOk result (HasMadeAll task.now (held_inputs task.now held)
        (found_values_in task.now room.new) (output_in task.now room.new)) }
    ensures elements { OnOk result (AreAllOfTheirTypes task.now (found_values_in task.now room.new)
        (output_in task.now room.new)) }
    ensures step { Steps NoChange 0 (calls_to_read task.now) (C.shown access.old)
        (C.shown access.new) }
    ensures all { IsSure task.now → OnOk result (Made (calls_to_read task.now)
        (C.shown access.old).calls (C.shown access.new).calls) }
    ensures called { IsSure task.now → OnOk result (Adds (tally_to_read (C.weight store.now) task.now)
        (C.tally access.old) (C.tally access.new)) }
    ensures cause { IfErr result (IsOwnFault task.now (C.shown access.old) (C.shown access.new)) }
{
    match slab_sizes(task, place) {
        Some(sizes) => {
            let job = SlabJob {
                chunk: &*chunk,
                front: front_block(chunk),
                place,
                sizes,
            };
            if fits_slabs(task, &job, room.len()) {
                map_by_slabs::<C>(store, access, task, &job, room, words)
            } else {
                compute_result::<C>(store, access, task, room, words)
            }
        }
        None => compute_result::<C>(store, access, task, room, words),
    }
}

/// The same of a map whose result is made slab by slab.
#[cycle(make)]
fn map_by_slabs<C: Chunks>(
    store: &C::Store,
    access: &mut C::Access,
    task: &PlanTask<'_>,
    job: &SlabJob<'_>,
    room: &mut [u8],
    words: &mut [u64],
) -> Result<(), TaskFault>
    requires belongs { C.belongs store.now access.old }
    requires may { MayRead task.now (C.may_get store.now access.old) }
    requires job { IsSlabJob task.now job.now }
    requires fits { FitsSlabs task.now job.now (length room.old) }
    requires room { room_bytes task.now ≤ length room.old }
    requires words { kernel_words task.now ≤ length words.old }
    ensures open { StaysOpen (C.belongs store.now access.new) (C.may_get store.now access.old)
        (C.may_get store.now access.new) }
    ensures made { (held : Contents) → HoldsFor task.now held (C.shown access.old)
        → OnOk result (HasMadeAll task.now (held_inputs task.now held)
        (found_values_in task.now room.new) (output_in task.now room.new)) }
    ensures elements { OnOk result (AreAllOfTheirTypes task.now (found_values_in task.now room.new)
        (output_in task.now room.new)) }
    ensures step { Steps NoChange 0 (calls_to_read task.now) (C.shown access.old)
        (C.shown access.new) }
    ensures all { IsSure task.now → OnOk result (Made (calls_to_read task.now)
        (C.shown access.old).calls (C.shown access.new).calls) }
    ensures called { IsSure task.now → OnOk result (Adds (tally_to_read (C.weight store.now) task.now)
        (C.tally access.old) (C.tally access.new)) }
    ensures cause { IfErr result (IsOwnFault task.now (C.shown access.old) (C.shown access.new)) }
{
    let (front, memory) = room.split_at_mut(front_bytes(job.chunk, &job.front));
    let before = memory.len() - job.sizes.gap;
    let (reads, _) = memory.split_at_mut(before);
    read_shown::<C>(store, access, task, job, front, reads, words)?;
    make_slabs(task, job, front, memory, words);
    Ok(())
}

/// Reads the chunk of the view's source into `front`, and the other input's region, or makes it, at
/// the end of `room`: the last input first.
#[cycle(make)]
fn read_shown<C: Chunks>(
    store: &C::Store,
    access: &mut C::Access,
    task: &PlanTask<'_>,
    job: &SlabJob<'_>,
    front: &mut [u8],
    room: &mut [u8],
    words: &mut [u64],
) -> Result<(), TaskFault>
    requires belongs { C.belongs store.now access.old }
    requires may { MayRead task.now (C.may_get store.now access.old) }
    requires job { IsSlabJob task.now job.now }
    requires front { length front.old ≡ front_room job.now }
    requires room { work_bytes task.now + walk_room task.now.plan.arrays
        (walk_at task.now (other_place job.now.place)) ≤ length room.old }
    requires words { kernel_words task.now ≤ length words.old }
    ensures open { StaysOpen (C.belongs store.now access.new) (C.may_get store.now access.old)
        (C.may_get store.now access.new) }
    ensures shown { (held : Contents) → HoldsFor task.now held (C.shown access.old)
        → OnOk result (ShowsInput task.now job.now held front.new) }
    ensures other { (held : Contents) → HoldsFor task.now held (C.shown access.old)
        → OnOk result (HasWalk task.now (held_inputs task.now held)
        (walk_at task.now (other_place job.now.place))
        (last_bytes (walk_room task.now.plan.arrays (walk_at task.now (other_place job.now.place)))
        room.new)) }
    ensures elements { OnOk result
        (AreElements (source_of_chunk job.now.chunk.now).layout.dtype front.new) }
    ensures step { Steps NoChange 0 (calls_to_read task.now) (C.shown access.old)
        (C.shown access.new) }
    ensures all { IsSure task.now → OnOk result (Made (calls_to_read task.now)
        (C.shown access.old).calls (C.shown access.new).calls) }
    ensures called { IsSure task.now → OnOk result (Adds (tally_to_read (C.weight store.now) task.now)
        (C.tally access.old) (C.tally access.new)) }
    ensures cause { IfErr result (IsOwnFault task.now (C.shown access.old) (C.shown access.new)) }
{
    let other = 1 - job.place;
    if other > job.place {
        read_input::<C>(store, access, task, other, room, words)?;
        fetch_shown::<C>(store, access, task, job, front)
    } else {
        fetch_shown::<C>(store, access, task, job, front)?;
        read_input::<C>(store, access, task, other, room, words)
    }
}

/// Reads or makes the regions from which a task computes, from the one at a place on, one behind
/// another at the end of `room`. The last one is read first.
#[cycle(make)]
fn read_inputs<C: Chunks>(
    store: &C::Store,
    access: &mut C::Access,
    task: &PlanTask<'_>,
    place: usize,
    room: &mut [u8],
    words: &mut [u64],
) -> Result<(), TaskFault>
    requires belongs { C.belongs store.now access.old }
    requires may { MayRead task.now (C.may_get store.now access.old) }
    requires place { place ≤ length (walks_from task.now 0) }
    requires room { work_bytes task.now
        + room_of_walks task.now.plan.arrays (walks_from task.now place) ≤ length room.old }
    requires words { kernel_words task.now ≤ length words.old }
    ensures open { StaysOpen (C.belongs store.now access.new) (C.may_get store.now access.old)
        (C.may_get store.now access.new) }
    ensures read { (held : Contents) → HoldsFor task.now held (C.shown access.old)
        → OnOk result (HasRegions task.now.plan.arrays (held_inputs task.now held)
        (walks_from task.now place)
        (last_bytes (room_of_walks task.now.plan.arrays (walks_from task.now place)) room.new)) }
    ensures step { Steps NoChange 0 (calls_for_walks task.now (walks_from task.now place))
        (C.shown access.old) (C.shown access.new) }
    ensures all { IsSure task.now
        → OnOk result (Made (calls_for_walks task.now (walks_from task.now place))
        (C.shown access.old).calls (C.shown access.new).calls) }
    ensures called { IsSure task.now → OnOk result
        (Adds (tally_for_walks (C.weight store.now) task.now (walks_from task.now place))
        (C.tally access.old) (C.tally access.new)) }
    ensures cause { IfErr result (IsOwnFault task.now (C.shown access.old) (C.shown access.new)) }
{
    if place == task.input_walks().len() {
        return Ok(());
    }
    read_inputs::<C>(store, access, task, place + 1, room, words)?;
    let before_others = room.len() - bytes_from(task, place + 1);
    let (own, _) = room.split_at_mut(before_others);
    read_input::<C>(store, access, task, place, own, words)
}

/// Reads the region at a place, or makes it where its array is made where it is read, at the end of
/// `room`.
#[cycle(make)]
fn read_input<C: Chunks>(
    store: &C::Store,
    access: &mut C::Access,
    task: &PlanTask<'_>,
    place: usize,
    room: &mut [u8],
    words: &mut [u64],
) -> Result<(), TaskFault>
    requires belongs { C.belongs store.now access.old }
    requires may { MayRead task.now (C.may_get store.now access.old) }
    requires place { place < length (walks_from task.now 0) }
    requires room { work_bytes task.now + walk_room task.now.plan.arrays (walk_at task.now place)
        ≤ length room.old }
    requires words { kernel_words task.now ≤ length words.old }
    ensures open { StaysOpen (C.belongs store.now access.new) (C.may_get store.now access.old)
        (C.may_get store.now access.new) }
    ensures read { (held : Contents) → HoldsFor task.now held (C.shown access.old)
        → OnOk result (HasWalk task.now (held_inputs task.now held) (walk_at task.now place)
        (last_bytes (walk_room task.now.plan.arrays (walk_at task.now place)) room.new)) }
    ensures step { Steps NoChange 0 (calls_for_walk task.now (walk_at task.now place))
        (C.shown access.old) (C.shown access.new) }
    ensures all { IsSure task.now
        → OnOk result (Made (calls_for_walk task.now (walk_at task.now place))
        (C.shown access.old).calls (C.shown access.new).calls) }
    ensures called { IsSure task.now → OnOk result
        (Adds (tally_for_walk (C.weight store.now) task.now (walk_at task.now place))
        (C.tally access.old) (C.tally access.new)) }
    ensures cause { IfErr result (IsOwnFault task.now (C.shown access.old) (C.shown access.new)) }
{
    match inner_task(task, place) {
        None => {
            let walk = input_walk(task, place);
            let before = room.len() - walk_bytes(task, &walk);
            let (scratch, out) = room.split_at_mut(before);
            read_walk::<C>(store, access, task, &walk, out, scratch)
        }
        Some(inner) => make_result::<C>(store, access, &inner, room, words),
    }
}
