//! What a task computes from the regions that it reads.
ghost use Rattle.std.specs.Prelude.{◌≡◌, ◌≤◌, ℕ, length, Some};
ghost use Rattle.cu_op.specs.Arrays.{type_at};
ghost use Rattle.cu_op.specs.Operation.{value_array};
ghost use Rattle.cu_op.specs.TaskView.{task_op};
ghost use Rattle.cu_region.specs.Writing.{AreElements};
ghost use Rattle.cu_task.specs.OfTask.{found_bytes, made_bytes, own_words, read_bytes};
ghost use Rattle.cu_task.specs.OfTask.{AreOfItsType, IsMadeFrom};
ghost use Rattle.cu_task.specs.Task.{IsComputing, IsComputed};

use crate::groups::{LabelFold, reduce_groups};
use crate::maps::run_map;
use crate::products::multiply;
use crate::reductions::{fold, merge};
use crate::scans::{carry, scan};
use crate::searches::{find_again, find_first};
use cu_op::{Op, PlanTask};

/// The elements of the result in the region of a task, and the values that a search finds, from the
/// regions of the arrays that the task reads, which stand one behind another in `inputs`.
pub(crate) fn compute(
    task: &PlanTask<'_>,
    inputs: &[u8],
    values: &mut [u8],
    output: &mut [u8],
    words: &mut [u64],
)
    requires computing { IsComputing (task_op task.now) }
    requires inputs { length inputs.now ≡ read_bytes task.now }
    requires values { length values.old ≡ found_bytes task.now }
    requires output { length output.old ≡ made_bytes task.now }
    requires words { own_words task.now ≤ length words.old }
    ensures output { IsMadeFrom task.now inputs.now output.new }
    ensures values { (array : ℕ) → value_array (task_op task.now) ≡ Some array
        → IsComputed task.now.plan task.now.op task.now.number array inputs.now values.new }
    ensures output_elements { AreOfItsType task.now output.new }
    ensures value_elements { (array : ℕ) → value_array (task_op task.now) ≡ Some array
        → AreElements (type_at task.now.plan.arrays array) values.new }
{
    match task.operation() {
        Op::Map { kernel, .. } => run_map(task, kernel, inputs, output, words),
        Op::Fold {
            kind,
            axes,
            source,
            out,
        } => fold(task, *kind, *axes, *source, *out, inputs, output),
        Op::Merge {
            kind,
            axis,
            out,
            ..
        } => merge(task, *kind, *axis, *out, inputs, output),
        Op::Mul { left, right, out } => multiply(task, *left, *right, *out, inputs, output),
        &Op::GroupFold {
            kind,
            axis,
            groups,
            source,
            labels,
            out,
        } => {
            let fold = LabelFold {
                kind,
                axis,
                groups,
                source,
                labels,
                out,
            };
            reduce_groups(task, &fold, inputs, output)
        }
        Op::PairFold {
            least,
            axis,
            source,
            ..
        } => find_first(task, *least, *axis, *source, inputs, values, output),
        Op::PairMerge {
            least,
            axis,
            value_source,
            ..
        } => find_again(task, *least, *axis, *value_source, inputs, values, output),
        Op::Carry { axis, out, .. } => carry(task, *axis, *out, inputs, output),
        Op::Scan {
            axis,
            source,
            out,
            ..
        } => scan(task, *axis, *source, *out, inputs, output),
        Op::Pull { .. } => unreachable!(),
        Op::Copy { .. } => unreachable!(),
    }
}
