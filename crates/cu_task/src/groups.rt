//! Tasks of folds by labels.
ghost use Rattle.std.specs.Prelude.{◌≡◌, length};
ghost use Rattle.cu_op.specs.TaskView.{task_op};
ghost use Rattle.cu_task.specs.ByLabels.{fold_by_labels};
ghost use Rattle.cu_task.specs.OfTask.{read_bytes, made_bytes, IsMadeFrom, AreOfItsType};

use crate::inputs::{input_walk, walk_bytes};
use crate::reductions::dtype_of;
use cu_group::group_region;
use cu_num::FoldKind;
use cu_op::PlanTask;
use cu_shape::difference;

/// A fold by labels: what is made of the elements of each label along an axis, of which arrays.
#[derive(Clone, Copy)]
pub(crate) struct LabelFold {
    /// What is made of the elements.
    pub kind: FoldKind,
    /// The axis.
    pub axis: u32,
    /// How many groups there are.
    pub groups: u32,
    /// The array that is reduced.
    pub source: u32,
    /// The array of the labels along the axis.
    pub labels: u32,
    /// The array that is made.
    pub out: u32,
}

/// The results of a task, from the regions of the source and of the labels, which stand one behind
/// the other in `input`: of each group what is made of the elements in the task's part that have
/// its label.
pub(crate) fn reduce_groups(task: &PlanTask<'_>, fold: &LabelFold, input: &[u8], output: &mut [u8])
    requires fold { task_op task.now ≡ fold_by_labels fold.now }
    requires input { length input.now ≡ read_bytes task.now }
    requires output { length output.old ≡ made_bytes task.now }
    ensures values { IsMadeFrom task.now input.now output.new }
    ensures elements { AreOfItsType task.now output.new }
{
    let walk = input_walk(task, 0);
    let (elements, labels) = input.split_at(walk_bytes(task, &walk));
    group_region(
        fold.kind,
        dtype_of(task, fold.source),
        dtype_of(task, fold.out),
        dtype_of(task, fold.labels),
        &difference(&walk.region.hi, &walk.region.lo),
        fold.axis,
        fold.groups,
        elements,
        labels,
        output,
    );
}
