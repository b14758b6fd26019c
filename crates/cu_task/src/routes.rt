//! The route by which a task comes by the elements that it makes.
ghost use Rattle.cu_op.specs.Sound.{Sound};
ghost use Rattle.cu_op.specs.TaskView.{task_op};
ghost use Rattle.cu_task.specs.Routes.{IsRouteOf};

use cu_op::{Op, PlanTask};
use cu_origin::Pull;

/// A route by which a task comes by the elements that it makes.
#[derive(Clone, Copy)]
pub(crate) enum Route<'a> {
    /// From where each element comes is asked of a view.
    View {
        /// The view.
        pull: &'a Pull,
        /// The numbers of its sources.
        ins: &'a [u32],
    },
    /// A region is read and written as it is.
    Copying,
    /// Elements are computed from regions that are read before.
    Computing,
}

/// The route by which a task comes by the elements that it makes.
pub(crate) fn route_of<'a>(task: &PlanTask<'a>) -> Route<'a>
    ensures route { IsRouteOf (task_op task.now) result }
    ensures sound { Sound task.now.plan }
{
    match task.operation() {
        Op::Pull { pull, ins, .. } => Route::View {
            pull,
            ins: ins.as_slice(),
        },
        Op::Copy { .. } => Route::Copying,
        _ => Route::Computing,
    }
}
