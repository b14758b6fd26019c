//! The law over all schedules: a call that does nothing and whose clauses are the law.
ghost use Rattle.std.specs.Prelude.{◌≡◌, ℕ, ◌<◌, Bool, false, List, length};
ghost use Rattle.cu_shape.specs.Index.{IsInside};
ghost use Rattle.cu_store.specs.Held.{Contents};
ghost use Rattle.cu_op.specs.Arrays.{grid_at, is_inlined};
ghost use Rattle.cu_op.specs.Value.{plan_value, stored_inputs};
ghost use Rattle.cu_run_law.specs.Left.{IsLeft};
ghost use Rattle.cu_run_law.specs.Pieces.{chunks_alone};
ghost use Rattle.cu_table.specs.Machine.{AllDone};
ghost use Rattle.cu_table.specs.Step.{Settings};
ghost use Rattle.cu_work.specs.World.{World, Event, IsFound, AllHappen, IsRight, first_world, still};

use cu_op::range_law;

/// From any map whose cells are absent or have their values, and any list of tasks whose cells are all held, after any events the
/// world is right, and where all tasks are done the elements of each array that is stored are its values.
pub fn world_law()
    ensures right { (g : Settings) (done : List Bool) (held : Contents) (events : List Event) (w : World)
        → IsLeft (chunks_alone g.plan) (stored_inputs g.plan.arrays held) (still held) → IsFound g.plan held done
        → AllHappen g (first_world done held) events w → IsRight g.plan (stored_inputs g.plan.arrays held) w }
    ensures complete { (g : Settings) (done : List Bool) (held : Contents) (events : List Event) (w : World) (a : ℕ) (idx : List ℕ)
        → IsLeft (chunks_alone g.plan) (stored_inputs g.plan.arrays held) (still held) → IsFound g.plan held done
        → AllHappen g (first_world done held) events w → AllDone g.plan w.machine
        → a < length g.plan.arrays → is_inlined g.plan.arrays a ≡ false → IsInside (grid_at g.plan.arrays a).shape idx
        → stored_inputs g.plan.arrays w.held a idx ≡ plan_value g.plan (stored_inputs g.plan.arrays held) a idx }
{
    range_law();
}
