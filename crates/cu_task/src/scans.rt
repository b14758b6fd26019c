//! Tasks of prefix sums.
ghost use Rattle.std.specs.Prelude.{◌≡◌, length};
ghost use Rattle.cu_op.specs.TaskView.{task_op};
ghost use Rattle.cu_task.specs.Inputs.{IsCarryOf, IsScanOf};
ghost use Rattle.cu_task.specs.OfTask.{read_bytes, made_bytes, IsMadeFrom, AreOfItsType};

use crate::inputs::{input_walk, walk_bytes};
use crate::reductions::dtype_of;
use cu_op::PlanTask;
use cu_scan::{carry_region, scan_region};
use cu_shape::difference;

/// What comes before the sums of a task, from the region of the sums before them in their group,
/// which may be empty, and, behind it, of what is carried into the group, where something is.
pub(crate) fn carry(task: &PlanTask<'_>, axis: u32, out: u32, inputs: &[u8], output: &mut [u8])
    requires carry { IsCarryOf (task_op task.now) axis out }
    requires inputs { length inputs.now ≡ read_bytes task.now }
    requires output { length output.old ≡ made_bytes task.now }
    ensures values { IsMadeFrom task.now inputs.now output.new }
    ensures elements { AreOfItsType task.now output.new }
{
    let walk = input_walk(task, 0);
    let dims = difference(&walk.region.hi, &walk.region.lo);
    let (sums, above) = inputs.split_at(walk_bytes(task, &walk));
    carry_region(dtype_of(task, out), &dims, axis, sums, above, output);
}

/// The prefix sums of a task, from the region of the source in a chunk and, behind it, of what is
/// carried into the chunk, where something is.
pub(crate) fn scan(
    task: &PlanTask<'_>,
    axis: u32,
    source: u32,
    out: u32,
    inputs: &[u8],
    output: &mut [u8],
)
    requires scan { IsScanOf (task_op task.now) axis source out }
    requires inputs { length inputs.now ≡ read_bytes task.now }
    requires output { length output.old ≡ made_bytes task.now }
    ensures values { IsMadeFrom task.now inputs.now output.new }
    ensures elements { AreOfItsType task.now output.new }
{
    let walk = input_walk(task, 0);
    let dims = difference(&walk.region.hi, &walk.region.lo);
    let (own, carry) = inputs.split_at(walk_bytes(task, &walk));
    scan_region(
        dtype_of(task, source),
        dtype_of(task, out),
        &dims,
        axis,
        own,
        carry,
        output,
    );
}
