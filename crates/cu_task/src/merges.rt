//! Tasks of merges whose partial results stand in chunks of one index along the merged axis: each
//! chunk is read straight into its place, one behind another, and whole rows are merged.
ghost use Rattle.std.specs.Prelude.{◌≡◌, ◌≤◌, IfSome, IfErr, OnOk, length};
ghost use Rattle.cu_op.specs.Arrays.{chunk_room};
ghost use Rattle.cu_op.specs.Elements.{Elements};
ghost use Rattle.cu_op.specs.TaskView.{walk_at};
ghost use Rattle.cu_op.specs.Walks.{walk_cells, IsWalkOver};
ghost use Rattle.cu_region.specs.Calls.{Made};
ghost use Rattle.cu_store.specs.Chunks.{Adds, StaysOpen};
ghost use Rattle.cu_store.specs.Held.{Contents};
ghost use Rattle.cu_store.specs.Steps.{NoChange, Steps};
ghost use Rattle.cu_task.specs.Asks.{MayReadWalk};
ghost use Rattle.cu_task.specs.Inputs.{walk_room, IsWalkFault, IsWalkKey};
ghost use Rattle.cu_task.specs.Merges.{HasWalkParts, MergesParts, StandsApart};
ghost use Rattle.cu_task.specs.OfTask.{calls_to_read, held_inputs, made_bytes, read_bytes};
ghost use Rattle.cu_task.specs.OfTask.{tally_to_read, weight_of_walk};
ghost use Rattle.cu_task.specs.OfTask.{AreOfItsType, HasMade, HoldsFor, IsOwnFault, IsSure, MayRead};
ghost use Rattle.cu_task.specs.Task.{StillHolds};
ghost use Rattle.cu_task.specs.TaskRoom.{output_in, room_bytes, found_values_in};
ghost use Rattle.cu_task.specs.TaskRoom.{AreAllOfTheirTypes, HasMadeAll};

use crate::inputs::{input_walk, read_walk, walk_bytes};
use crate::reductions::dtype_of;
use crate::results::result_bytes;
use cu_fold::merge_region;
use cu_num::{FoldKind, size};
use cu_op::{Op, PlanTask, Walk};
use cu_shape::Dims;
use cu_store::{Chunks, TaskFault};

/// A merge of partial results that are read one behind another.
#[derive(Clone, Copy)]
pub(crate) struct PartMerge {
    /// What is reduced.
    pub(crate) kind: FoldKind,
    /// The axis along which it merges.
    pub(crate) axis: u32,
    /// The number of the array that it makes.
    pub(crate) out: u32,
}

/// The merge of a task whose partial results are stored in chunks of one index along the merged
/// axis; none of any other task.
pub(crate) fn part_merge(task: &PlanTask<'_>) -> Option<PartMerge>
    ensures { IfSome result (MergesParts task.now) }
{
    let &Op::Merge {
        kind,
        axis,
        out,
        ..
    } = task.operation()
    else {
        return None;
    };
    let source = task.array(input_walk(task, 0).array);
    if source.inlined || source.layout.grid.chunk().at(axis) != 1 {
        return None;
    }
    Some(PartMerge { kind, axis, out })
}

/// What `make_result` does, of a task that merges such partial results.
pub(crate) fn merge_by_parts<C: Chunks>(
    store: &C::Store,
    access: &mut C::Access,
    task: &PlanTask<'_>,
    merge: &PartMerge,
    room: &mut [u8],
) -> Result<(), TaskFault>
    requires belongs { C.belongs store.now access.old }
    requires may { MayRead task.now (C.may_get store.now access.old) }
    requires merge { MergesParts task.now merge.now }
    requires room { room_bytes task.now ≤ length room.old }
    ensures open { StaysOpen (C.belongs store.now access.new) (C.may_get store.now access.old)
        (C.may_get store.now access.new) }
    ensures made { (held : Contents) → HoldsFor task.now held (C.shown access.old)
        → OnOk result (HasMadeAll task.now (held_inputs task.now held)
        (found_values_in task.now room.new) (output_in task.now room.new)) }
    ensures elements { OnOk result (AreAllOfTheirTypes task.now (found_values_in task.now room.new)
        (output_in task.now room.new)) }
    ensures step { Steps NoChange 0 (calls_to_read task.now) (C.shown access.old)
        (C.shown access.new) }
    ensures all { IsSure task.now → OnOk result (Made (calls_to_read task.now)
        (C.shown access.old).calls (C.shown access.new).calls) }
    ensures called { IsSure task.now → OnOk result (Adds (tally_to_read (C.weight store.now) task.now)
        (C.tally access.old) (C.tally access.new)) }
    ensures cause { IfErr result (IsOwnFault task.now (C.shown access.old) (C.shown access.new)) }
{
    let walk = input_walk(task, 0);
    let before_output = room.len() - result_bytes(task);
    let (reads, output) = room.split_at_mut(before_output);
    let before_inputs = before_output - walk_bytes(task, &walk);
    let (scratch, inputs) = reads.split_at_mut(before_inputs);
    read_parts::<C>(store, access, task, &walk, merge.axis, inputs, scratch)?;
    merge_parts(task, merge, inputs, output);
    Ok(())
}

/// Reads the region of a walk so that what it has at each index on an axis stands in one run, one
/// behind another. The array stands in chunks of one on this axis, so each chunk is read once. It
/// goes by halves: so few calls stand inside one another.
fn read_parts<C: Chunks>(
    store: &C::Store,
    access: &mut C::Access,
    task: &PlanTask<'_>,
    walk: &Walk,
    axis: u32,
    out: &mut [u8],
    scratch: &mut [u8],
) -> Result<(), TaskFault>
    requires belongs { C.belongs store.now access.old }
    requires may { MayReadWalk task.now.plan.arrays walk.now (C.may_get store.now access.old) }
    requires walk { IsWalkOver task.now.plan.arrays walk.now }
    requires apart { StandsApart task.now.plan.arrays axis walk.now }
    requires room { length out.old ≡ walk_room task.now.plan.arrays walk.now }
    requires scratch { chunk_room task.now.plan.arrays walk.now.array ≤ length scratch.old }
    ensures open { StaysOpen (C.belongs store.now access.new) (C.may_get store.now access.old)
        (C.may_get store.now access.new) }
    ensures read { (held : Contents)
        → StillHolds (IsWalkKey task.now.plan.arrays walk.now) held (C.shown access.old)
        → OnOk result (HasWalkParts task.now (held_inputs task.now held) axis walk.now out.new) }
    ensures step { Steps NoChange 0 (length (walk_cells task.now.plan.arrays walk.now))
        (C.shown access.old) (C.shown access.new) }
    ensures all { OnOk result (Made (length (walk_cells task.now.plan.arrays walk.now))
        (C.shown access.old).calls (C.shown access.new).calls) }
    ensures called { OnOk result (Adds (weight_of_walk (C.weight store.now) task.now walk.now)
        (C.tally access.old) (C.tally access.new)) }
    ensures cause { IfErr result (IsWalkFault (C.shown access.old) (C.shown access.new)
        task.now.plan.arrays walk.now) }
{
    let _array = task.array(walk.array);
    let first = walk.region.lo.at(axis);
    let count = walk.region.hi.at(axis) - first;
    if count <= 1 {
        return read_walk::<C>(store, access, task, walk, out, scratch);
    }
    let middle = first + count / 2;
    let mut front = *walk;
    front.region.hi.put(axis, middle);
    let mut back = *walk;
    back.region.lo.put(axis, middle);
    let (own, others) = out.split_at_mut(walk_bytes(task, &front));
    read_parts::<C>(store, access, task, &front, axis, own, scratch)?;
    read_parts::<C>(store, access, task, &back, axis, others, scratch)
}

/// The results of a task, from its partial results, which stand one behind another: they are merged
/// as rows of an array with an axis for the parts and one for the results.
fn merge_parts(task: &PlanTask<'_>, merge: &PartMerge, input: &[u8], output: &mut [u8])
    requires merge { MergesParts task.now merge.now }
    requires input { length input.now ≡ read_bytes task.now }
    requires output { length output.old ≡ made_bytes task.now }
    ensures values { (at : Elements)
        → HasWalkParts task.now at merge.now.axis (walk_at task.now 0) input.now
        → HasMade task.now at output.new }
    ensures elements { AreOfItsType task.now output.new }
{
    let walk = input_walk(task, 0);
    let dtype = dtype_of(task, merge.out);
    let parts = walk.region.hi.at(merge.axis) - walk.region.lo.at(merge.axis);
    let results = output.len() as u64 / u64::from(size(dtype));
    let mut rows = Dims::default();
    rows.push(parts);
    rows.push(results);
    merge_region(merge.kind, dtype, &rows, 0, input, output);
}
