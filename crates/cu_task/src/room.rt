//! The memory that a task is lent.
ghost use Rattle.std.specs.Prelude.{◌≡◌, ◌≤◌, ◌<◌, ◌^◌, ◌++◌, length};
ghost use Rattle.cu_task.specs.OfTask.{kept_bytes};
ghost use Rattle.cu_task.specs.TaskRoom.{output_in, room_bytes, found_values_in, IsRoomOf};

use crate::inputs::input_bytes;
use crate::results::{result_bytes, value_bytes};
use crate::routes::{Route, route_of};
use cu_op::PlanTask;

/// The memory that a task is lent, in its parts, once its result is made.
#[derive(Drop)]
pub(crate) struct TaskRoom<'a> {
    /// Through which chunks are written. Before that the regions stood here from which the task
    /// computed, and those of what stands inside it.
    pub(crate) scratch: &'a mut [u8],
    /// The values that a search finds.
    pub(crate) values: &'a mut [u8],
    /// The elements of the result.
    pub(crate) output: &'a mut [u8],
}

impl<'a> TaskRoom<'a> {
    /// Parts the bytes that a task is lent: the scratch has what the other parts leave.
    pub(crate) fn split(task: &PlanTask<'_>, bytes: &'a mut [u8]) -> TaskRoom<'a>
        requires { room_bytes task.now ≤ length bytes.old }
        ensures room { IsRoomOf task.now result }
        ensures together { bytes.old ≡ result.scratch.now ++ result.values.now
            ++ result.output.now }
        ensures values { result.values.now ≡ found_values_in task.now bytes.old }
        ensures output { result.output.now ≡ output_in task.now bytes.old }
    {
        let before_output = bytes.len() - result_bytes(task);
        let (front, output) = bytes.split_at_mut(before_output);
        let before_values = before_output - value_bytes(task);
        let (scratch, values) = front.split_at_mut(before_values);
        TaskRoom {
            scratch,
            values,
            output,
        }
    }
}

/// The bytes of the regions that a task keeps beside its scratch and what it makes: none of a view,
/// or of a copy, which reads into its result.
pub(crate) fn kept_bytes(task: &PlanTask<'_>) -> usize
    requires { kept_bytes task.now < 2 ^ 64 }
    ensures { result ≡ kept_bytes task.now }
{
    match route_of(task) {
        Route::View { .. } => 0,
        Route::Copying => 0,
        Route::Computing => input_bytes(task),
    }
}
