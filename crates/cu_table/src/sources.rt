//! Whether the operations are done that make what a region needs.
ghost use Rattle.std.specs.Prelude.{◌≡◌, ◌<◌, ◌↔◌, IsTrue, false, length};
ghost use Rattle.cu_op.specs.Arrays.{is_inlined};
ghost use Rattle.cu_op.specs.TaskView.{task_op, walk_at};
ghost use Rattle.cu_op.specs.Walks.{input_walks, walk_cells};
ghost use Rattle.cu_op.specs.Within.{fetched_chunks};
ghost use Rattle.cu_table.specs.Sources.{IsPullOp, TellsOf};

use cu_op::{Op, PlanTask};

/// Whether the operations are done that make what is fetched for a region.
#[derive(Clone, Copy)]
pub(crate) enum Sources {
    /// Each of them is.
    Complete,
    /// Some of them isn't.
    Partial,
    /// This one isn't, and each of its tasks makes a chunk that is fetched.
    Awaited(u32),
}

/// Whether an operation is a view, which needs whole arrays.
fn is_view(op: &Op) -> bool
    ensures { IsTrue result ↔ IsPullOp op.now }
{
    match op {
        Op::Pull { .. } => true,
        _ => false,
    }
}

/// Of a stored array that a region needs, by its place among those that are read for it.
fn stored_source(task: &PlanTask, place: usize, undone: &[usize]) -> Sources
    requires place { place
        < length (input_walks task.now.plan.arrays (task_op task.now) task.now.number) }
    requires stored { is_inlined task.now.plan.arrays (walk_at task.now place).array ≡ false }
    requires counts { length undone.now ≡ length task.now.plan.ops }
    ensures { TellsOf task.now undone.now
        (walk_cells task.now.plan.arrays (walk_at task.now place)) result }
{
    let walk = &task.input_walks()[place];
    let array = task.array(walk.array);
    if let Some(source) = array.maker {
        if undone[source as usize] != 0 {
            if is_view(task.operation()) {
                return Sources::Awaited(source);
            }
            // an empty region has no chunk
            if array.layout.grid.cover(&walk.region).next().is_some() {
                return Sources::Partial;
            }
        }
    }
    Sources::Complete
}

/// Of all that a region needs. What stands inside it is asked too, since there a view needs whole
/// arrays as well.
pub(crate) fn sources_of(task: &PlanTask, undone: &[usize]) -> Sources
    requires { length undone.now ≡ length task.now.plan.ops }
    ensures { TellsOf task.now undone.now
        (fetched_chunks task.now.plan task.now.op task.now.number) result }
{
    let mut found = Sources::Complete;
    for place in 0..task.input_walks().len() {
        let own = if task.array(task.input_walks()[place].array).inlined {
            match task.inner(place) {
                Some(inner) => sources_of(&inner, undone),
                None => Sources::Complete,
            }
        } else {
            stored_source(task, place, undone)
        };
        match own {
            Sources::Complete => {}
            Sources::Partial => found = Sources::Partial,
            Sources::Awaited(_) => return own,
        }
    }
    found
}
