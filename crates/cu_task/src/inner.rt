//! What stands inside a task.
ghost use Rattle.std.specs.Prelude.{◌≡◌, ◌<◌, IfSome, None, length};
ghost use Rattle.cu_op.specs.Sound.{Sound};
ghost use Rattle.cu_op.specs.TaskView.{walk_at, IsReadAsIs};
ghost use Rattle.cu_task.specs.Inside.{StandsInside};
ghost use Rattle.cu_task.specs.OfTask.{walks_from};

use cu_op::PlanTask;

/// What makes the region that a task reads at a place; none where that is read as it is stored, or
/// has no chunk.
pub(crate) fn inner_task<'a>(task: &PlanTask<'a>, place: usize) -> Option<PlanTask<'a>>
    requires { place < length (walks_from task.now 0) }
    ensures made { IfSome result (λ t. StandsInside task.now (walk_at task.now place) t) }
    ensures none { result ≡ None → IsReadAsIs task.now.plan.arrays (walk_at task.now place) }
    ensures sound { Sound task.now.plan }
{
    task.inner(place)
}
