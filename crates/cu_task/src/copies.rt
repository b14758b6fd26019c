//! Tasks of copies.
ghost use Rattle.std.specs.Prelude.{◌≡◌, ◌≤◌, length, IfErr, OnOk};
ghost use Rattle.cu_store.specs.Held.{Contents};
ghost use Rattle.cu_store.specs.Chunks.{Adds, StaysOpen};
ghost use Rattle.cu_store.specs.Steps.{NoChange, Steps};
ghost use Rattle.cu_op.specs.TaskView.{task_op};
ghost use Rattle.cu_region.specs.Calls.{Made};
ghost use Rattle.cu_task.specs.OfTask.{scratch_bytes, made_bytes, calls_to_read, tally_to_read, MayRead, AreSteady, HasMade, AreOfItsType, IsOwnFault, stored_elements};
ghost use Rattle.cu_task.specs.Task.{IsCopy};

use crate::inputs::{input_walk, read_walk};
use cu_op::PlanTask;
use cu_store::{Chunks, TaskFault};

/// The elements of the region that a task copies, row-major and little-endian, each chunk of the source read through `scratch`.
pub(crate) fn copy_region<C: Chunks>(
    store: &C::Store,
    access: &mut C::Access,
    task: &PlanTask<'_>,
    output: &mut [u8],
    scratch: &mut [u8],
) -> Result<(), TaskFault>
    requires belongs { C.belongs store.now access.old }
    requires may { MayRead task.now (C.may_get store.now access.old) }
    requires copy { IsCopy (task_op task.now) }
    requires output { length output.old ≡ made_bytes task.now }
    requires scratch { scratch_bytes task.now ≤ length scratch.old }
    ensures open { StaysOpen (C.belongs store.now access.new) (C.may_get store.now access.old)
        (C.may_get store.now access.new) }
    ensures values { (held : Contents) → AreSteady task.now (C.shown access.old) held
        → OnOk result (HasMade task.now (stored_elements task.now held) output.new) }
    ensures elements { OnOk result (AreOfItsType task.now output.new) }
    ensures step { Steps NoChange 0 (calls_to_read task.now) (C.shown access.old)
        (C.shown access.new) }
    ensures all { OnOk result (Made (calls_to_read task.now) (C.shown access.old).calls
        (C.shown access.new).calls) }
    ensures called { OnOk result (Adds (tally_to_read (C.weight store.now) task.now)
        (C.tally access.old) (C.tally access.new)) }
    ensures cause { IfErr result (IsOwnFault task.now (C.shown access.old) (C.shown access.new)) }
{
    let walk = input_walk(task, 0);
    read_walk::<C>(store, access, task, &walk, output, scratch)
}
