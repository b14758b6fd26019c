//! What a task has made: its rooms, and the chunks of its region.
ghost use Rattle.std.specs.Prelude.{◌≡◌, ℕ, ◌<◌, ◌≤◌, [], ◌∷◌, Some, length, Contains, IfErr, OnOk};
ghost use Rattle.cu_store.specs.Chunks.{Adds, StaysOpen};
ghost use Rattle.cu_task.specs.Asks.{MayReadRegion, AllowsRegion, AllowsResult};
ghost use Rattle.cu_store.specs.Steps.{Shown, Steps};
ghost use Rattle.cu_op.specs.Arrays.{array_at, type_at};
ghost use Rattle.cu_op.specs.Cells.{task_lo, task_hi};
ghost use Rattle.cu_op.specs.Operation.{target_of, writes_of, value_array};
ghost use Rattle.cu_op.specs.Sound.{Sound};
ghost use Rattle.cu_op.specs.TaskView.{task_op};
ghost use Rattle.cu_op.specs.Elements.{Elements};
ghost use Rattle.cu_op.specs.Chunks.{walk};
ghost use Rattle.cu_op.specs.Walks.{walk_cells};
ghost use Rattle.cu_region.specs.Calls.{Made};
ghost use Rattle.cu_region.specs.Writing.{AreElements, LateIsOwn, RegionPut, StoresRegion, IsWriteFault};
ghost use Rattle.cu_task.specs.OfTask.{found_bytes, calls_to_write, tally_to_write, weight_of_walk, MayReadMade, IsReadyFor, HoldsMade, IsOwnTask, scratch_bytes, made_bytes, IsMadeOver, AreOfItsType, ChangeBy};
ghost use Rattle.cu_task.specs.Task.{result_room};
ghost use Rattle.cu_task.specs.TaskRoom.{IsRoomOf, IsAllMadeOver, AreAllOfTheirTypes, AllowsMade};

use crate::inputs::region_bytes;
use crate::room::TaskRoom;
use cu_op::PlanTask;
use cu_region::write_region_of;
use cu_store::{Chunks, TaskFault};

/// The bytes of the elements that a task computes.
pub(crate) fn result_bytes(task: &PlanTask<'_>) -> usize
    ensures bytes { result ≡ made_bytes task.now }
    ensures sound { Sound task.now.plan }
{
    region_room(task, task.operation().target())
}

/// The bytes of the values that a task finds: none but of a search.
pub(crate) fn value_bytes(task: &PlanTask<'_>) -> usize
    ensures { result ≡ found_bytes task.now }
{
    match task.operation().compared() {
        Some(array) => region_room(task, array),
        None => 0,
    }
}

/// The bytes of the region that a task computes, in the type of an array.
fn region_room(task: &PlanTask<'_>, array: u32) -> usize
    requires { array < length task.now.plan.arrays }
    ensures bytes { result ≡ result_room task.now.plan task.now.op task.now.number array }
    ensures sound { Sound task.now.plan }
{
    let dtype = task.array(array).layout.dtype;
    region_bytes(dtype, task.region())
}

/// Stores the chunks of an array that lie in the region of a task, through `scratch`, which has the bytes of a chunk.
fn write_array<C: Chunks>(
    store: &C::Store,
    access: &mut C::Access,
    task: &PlanTask<'_>,
    array: u32,
    output: &[u8],
    scratch: &mut [u8],
) -> Result<(), TaskFault>
    requires belongs { C.belongs store.now access.old }
    requires puts { AllowsRegion task.now.plan task.now.op task.now.number array output.now
        (C.may_put store.now) }
    requires array { Contains (writes_of (task_op task.now)) array }
    requires output { length output.now
        ≡ result_room task.now.plan task.now.op task.now.number array }
    requires elements { AreElements (type_at task.now.plan.arrays array) output.now }
    requires scratch { scratch_bytes task.now ≤ length scratch.old }
    ensures open { StaysOpen (C.belongs store.now access.new) (C.may_get store.now access.old)
        (C.may_get store.now access.new) }
    ensures got { OnOk result (MayReadRegion task.now.plan task.now.op task.now.number array
        (C.may_get store.now access.new)) }
    ensures stored { LateIsOwn (array_at task.now.plan.arrays array) (task_lo task.now.plan.arrays (task_op task.now) task.now.number) (task_hi task.now.plan.arrays (task_op task.now) task.now.number) output.now (C.shown access.old).late
        → OnOk result (StoresRegion (array_at task.now.plan.arrays array)
        (task_lo task.now.plan.arrays (task_op task.now) task.now.number)
        (task_hi task.now.plan.arrays (task_op task.now) task.now.number) output.now
        (C.shown access.new).held) }
    ensures step { Steps (RegionPut (array_at task.now.plan.arrays array) (task_lo task.now.plan.arrays (task_op task.now) task.now.number) (task_hi task.now.plan.arrays (task_op task.now) task.now.number) output.now)
        0 (length (walk_cells task.now.plan.arrays (walk array (task_lo task.now.plan.arrays (task_op task.now) task.now.number) (task_hi task.now.plan.arrays (task_op task.now) task.now.number)))) (C.shown access.old) (C.shown access.new) }
    ensures all { OnOk result (Made (length (walk_cells task.now.plan.arrays (walk array (task_lo task.now.plan.arrays (task_op task.now) task.now.number) (task_hi task.now.plan.arrays (task_op task.now) task.now.number))))
        (C.shown access.old).calls (C.shown access.new).calls) }
    ensures called { OnOk result (Adds (weight_of_walk (C.weight store.now) task.now
        (walk array (task_lo task.now.plan.arrays (task_op task.now) task.now.number)
        (task_hi task.now.plan.arrays (task_op task.now) task.now.number)))
        (C.tally access.old) (C.tally access.new)) }
    ensures cause { IfErr result (IsWriteFault (C.shown access.old).faults
        (C.shown access.new).faults (C.shown access.new).lacks) }
{
    let region = task.region();
    write_region_of::<C>(store, access, task.array(array), region, output, scratch)
}

/// Stores the chunks of the one array that an operation writes.
fn write_only<C: Chunks>(
    store: &C::Store,
    access: &mut C::Access,
    task: &PlanTask<'_>,
    output: &[u8],
    scratch: &mut [u8],
) -> Result<(), TaskFault>
    requires belongs { C.belongs store.now access.old }
    requires puts { AllowsResult task.now.plan task.now.op task.now.number
        (target_of (task_op task.now)) output.now (C.may_put store.now) }
    requires own { IsOwnTask task.now }
    requires only { writes_of (task_op task.now) ≡ target_of (task_op task.now) ∷ [] }
    requires output { length output.now ≡ made_bytes task.now }
    requires elements { AreOfItsType task.now output.now }
    requires scratch { scratch_bytes task.now ≤ length scratch.old }
    ensures open { StaysOpen (C.belongs store.now access.new) (C.may_get store.now access.old)
        (C.may_get store.now access.new) }
    ensures got { OnOk result (MayReadMade task.now (C.may_get store.now access.new)) }
    ensures step { (start : Shown) → IsMadeOver task.now start output.now
        → Steps (ChangeBy task.now start) 0 (calls_to_write task.now) (C.shown access.old)
        (C.shown access.new) }
    ensures stored { (env : Elements) (start : Shown) (calls : ℕ) → IsMadeOver task.now start output.now
        → IsReadyFor task.now env start
        → Steps (ChangeBy task.now start) 0 calls start (C.shown access.old)
        → OnOk result (HoldsMade task.now env (C.shown access.new)) }
    ensures all { OnOk result (Made (calls_to_write task.now) (C.shown access.old).calls
        (C.shown access.new).calls) }
    ensures called { OnOk result (Adds (tally_to_write (C.weight store.now) task.now)
        (C.tally access.old) (C.tally access.new)) }
    ensures cause { IfErr result (IsWriteFault (C.shown access.old).faults
        (C.shown access.new).faults (C.shown access.new).lacks) }
{
    let array = task.operation().target();
    write_array::<C>(store, access, task, array, output, scratch)
}

/// Stores the chunks of both arrays that a search writes: the values before the places.
fn write_both<C: Chunks>(
    store: &C::Store,
    access: &mut C::Access,
    task: &PlanTask<'_>,
    array: u32,
    room: &mut TaskRoom<'_>,
) -> Result<(), TaskFault>
    requires belongs { C.belongs store.now access.old }
    requires puts { AllowsMade task.now room.old (C.may_put store.now) }
    requires own { IsOwnTask task.now }
    requires stored { value_array (task_op task.now) ≡ Some array }
    requires room { IsRoomOf task.now room.old }
    requires elements { AreAllOfTheirTypes task.now room.old.values.now
        room.old.output.now }
    ensures open { StaysOpen (C.belongs store.now access.new) (C.may_get store.now access.old)
        (C.may_get store.now access.new) }
    ensures got { OnOk result (MayReadMade task.now (C.may_get store.now access.new)) }
    ensures step { (start : Shown) → IsAllMadeOver task.now start room.old
        → Steps (ChangeBy task.now start) 0 (calls_to_write task.now) (C.shown access.old)
        (C.shown access.new) }
    ensures stored { (env : Elements) (start : Shown) (calls : ℕ)
        → IsAllMadeOver task.now start room.old
        → IsReadyFor task.now env start
        → Steps (ChangeBy task.now start) 0 calls start (C.shown access.old)
        → OnOk result (HoldsMade task.now env (C.shown access.new)) }
    ensures all { OnOk result (Made (calls_to_write task.now) (C.shown access.old).calls
        (C.shown access.new).calls) }
    ensures called { OnOk result (Adds (tally_to_write (C.weight store.now) task.now)
        (C.tally access.old) (C.tally access.new)) }
    ensures cause { IfErr result (IsWriteFault (C.shown access.old).faults
        (C.shown access.new).faults (C.shown access.new).lacks) }
{
    let target = task.operation().target();
    let values = &mut *room.values;
    let places = &mut *room.output;
    let scratch = &mut *room.scratch;
    write_array::<C>(store, access, task, array, values, scratch)?;
    write_array::<C>(store, access, task, target, places, scratch)
}

/// Stores what a task has made, and before it the values that a search has found, where they are stored.
pub(crate) fn write_results<C: Chunks>(
    store: &C::Store,
    access: &mut C::Access,
    task: &PlanTask<'_>,
    room: &mut TaskRoom<'_>,
) -> Result<(), TaskFault>
    requires belongs { C.belongs store.now access.old }
    requires puts { AllowsMade task.now room.old (C.may_put store.now) }
    requires own { IsOwnTask task.now }
    requires room { IsRoomOf task.now room.old }
    requires elements { AreAllOfTheirTypes task.now room.old.values.now
        room.old.output.now }
    ensures open { StaysOpen (C.belongs store.now access.new) (C.may_get store.now access.old)
        (C.may_get store.now access.new) }
    ensures got { OnOk result (MayReadMade task.now (C.may_get store.now access.new)) }
    ensures step { (start : Shown) → IsAllMadeOver task.now start room.old
        → Steps (ChangeBy task.now start) 0 (calls_to_write task.now) (C.shown access.old)
        (C.shown access.new) }
    ensures stored { (env : Elements) (start : Shown) (calls : ℕ)
        → IsAllMadeOver task.now start room.old
        → IsReadyFor task.now env start
        → Steps (ChangeBy task.now start) 0 calls start (C.shown access.old)
        → OnOk result (HoldsMade task.now env (C.shown access.new)) }
    ensures all { OnOk result (Made (calls_to_write task.now) (C.shown access.old).calls
        (C.shown access.new).calls) }
    ensures called { OnOk result (Adds (tally_to_write (C.weight store.now) task.now)
        (C.tally access.old) (C.tally access.new)) }
    ensures cause { IfErr result (IsWriteFault (C.shown access.old).faults
        (C.shown access.new).faults (C.shown access.new).lacks) }
{
    match task.operation().stored() {
        Some(array) => write_both::<C>(store, access, task, array, room),
        None => {
            let output = &mut *room.output;
            let scratch = &mut *room.scratch;
            write_only::<C>(store, access, task, output, scratch)
        }
    }
}
