//! Tasks of views.
ghost use Rattle.std.specs.Prelude.{◌+◌, ◌≤◌, length, IfErr, OnOk};
ghost use Rattle.cu_store.specs.Held.{Contents};
ghost use Rattle.cu_store.specs.Chunks.{Adds, StaysOpen};
ghost use Rattle.cu_store.specs.Steps.{NoChange, Steps};
ghost use Rattle.cu_op.specs.TaskView.{task_op};
ghost use Rattle.cu_region.specs.Calls.{Made};
ghost use Rattle.cu_task.specs.OfTask.{scratch_bytes, made_bytes, calls_to_read, tally_to_read, MayRead, AreSteady, HasMade, AreOfItsType, IsOwnFault, stored_elements};
ghost use Rattle.cu_task.specs.TaskRoom.{output_in};
ghost use Rattle.cu_task.specs.ViewJobs.{IsViewJob};
ghost use Rattle.cu_task.specs.Calls.{MakesSureCalls};

use crate::results::result_bytes;
use crate::views::{ViewJob, lay_numbers, read_sources};
use cu_store::{Chunks, TaskFault};

/// The elements of a view's result in the region of a task, row-major and little-endian, at the end
/// of `room`. What stands before them is overwritten: through it chunks of the sources are read.
pub(crate) fn pull_result<C: Chunks>(
    store: &C::Store,
    access: &mut C::Access,
    job: &ViewJob<'_>,
    room: &mut [u8],
) -> Result<(), TaskFault>
    requires belongs { C.belongs store.now access.old }
    requires may { MayRead job.now.task.now (C.may_get store.now access.old) }
    requires job { IsViewJob job.now }
    requires room { scratch_bytes job.now.task.now + made_bytes job.now.task.now
        ≤ length room.old }
    ensures open { StaysOpen (C.belongs store.now access.new) (C.may_get store.now access.old)
        (C.may_get store.now access.new) }
    ensures values { (held : Contents) → AreSteady job.now.task.now (C.shown access.old) held
        → OnOk result (HasMade job.now.task.now (stored_elements job.now.task.now held)
        (output_in job.now.task.now room.new)) }
    ensures elements { OnOk result (AreOfItsType job.now.task.now
        (output_in job.now.task.now room.new)) }
    ensures step { Steps NoChange 0 (calls_to_read job.now.task.now) (C.shown access.old)
        (C.shown access.new) }
    ensures all { MakesSureCalls (task_op job.now.task.now)
        → OnOk result (Made (calls_to_read job.now.task.now) (C.shown access.old).calls
        (C.shown access.new).calls) }
    ensures called { MakesSureCalls (task_op job.now.task.now)
        → OnOk result (Adds (tally_to_read (C.weight store.now) job.now.task.now)
        (C.tally access.old) (C.tally access.new)) }
    ensures cause { IfErr result (IsOwnFault job.now.task.now (C.shown access.old)
        (C.shown access.new)) }
{
    let before = room.len() - result_bytes(job.task);
    let (_, output) = room.split_at_mut(before);
    lay_numbers(job, output);
    read_sources::<C>(store, access, job, room)
}
