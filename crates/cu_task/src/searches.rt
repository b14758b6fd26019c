//! Searches for least or greatest elements and their places.
ghost use Rattle.std.specs.Prelude.{◌≡◌, ℕ, Some, length};
ghost use Rattle.cu_op.specs.Arrays.{type_at};
ghost use Rattle.cu_op.specs.TaskView.{task_op};
ghost use Rattle.cu_region.specs.Writing.{AreElements};
ghost use Rattle.cu_task.specs.Inputs.{IsSearchOf, IsSearchAmong};
ghost use Rattle.cu_task.specs.OfTask.{read_bytes, made_bytes, IsMadeFrom, AreOfItsType};
ghost use Rattle.cu_task.specs.Task.{compared_by, result_room, IsComputed};
ghost use Rattle.cu_op.specs.Operation.{value_array};

use crate::inputs::{input_walk, walk_bytes};
use crate::reductions::dtype_of;
use cu_fold::{pair_fold, pair_merge};
use cu_op::PlanTask;
use cu_shape::difference;

/// The least or the greatest elements of the region of the source in a chunk, and their first places.
pub(crate) fn find_first(
    task: &PlanTask<'_>,
    least: bool,
    axis: Option<u32>,
    source: u32,
    inputs: &[u8],
    values: &mut [u8],
    places: &mut [u8],
)
    requires search { IsSearchOf (task_op task.now) least axis source }
    requires inputs { length inputs.now ≡ read_bytes task.now }
    requires values { length values.old
        ≡ result_room task.now.plan task.now.op task.now.number (compared_by (task_op task.now)) }
    requires places { length places.old ≡ made_bytes task.now }
    ensures places { IsMadeFrom task.now inputs.now places.new }
    ensures values { (array : ℕ) → value_array (task_op task.now) ≡ Some array
        → IsComputed task.now.plan task.now.op task.now.number array inputs.now values.new }
    ensures place_elements { AreOfItsType task.now places.new }
    ensures value_elements { AreElements (type_at task.now.plan.arrays
        (compared_by (task_op task.now))) values.new }
{
    let walk = input_walk(task, 0);
    let layout = &task.array(source).layout;
    pair_fold(
        least,
        layout.dtype,
        layout.grid.shape(),
        &walk.region.lo,
        &difference(&walk.region.hi, &walk.region.lo),
        axis,
        inputs,
        values,
        places,
    );
}

/// The least or the greatest of partial results, and their places.
pub(crate) fn find_again(
    task: &PlanTask<'_>,
    least: bool,
    axis: u32,
    source: u32,
    inputs: &[u8],
    values: &mut [u8],
    places: &mut [u8],
)
    requires search { IsSearchAmong (task_op task.now) least axis source }
    requires inputs { length inputs.now ≡ read_bytes task.now }
    requires values { length values.old
        ≡ result_room task.now.plan task.now.op task.now.number (compared_by (task_op task.now)) }
    requires places { length places.old ≡ made_bytes task.now }
    ensures places { IsMadeFrom task.now inputs.now places.new }
    ensures values { (array : ℕ) → value_array (task_op task.now) ≡ Some array
        → IsComputed task.now.plan task.now.op task.now.number array inputs.now values.new }
    ensures place_elements { AreOfItsType task.now places.new }
    ensures value_elements { AreElements (type_at task.now.plan.arrays
        (compared_by (task_op task.now))) values.new }
{
    let walk = input_walk(task, 0);
    let (values_from, places_from) = inputs.split_at(walk_bytes(task, &walk));
    pair_merge(
        least,
        dtype_of(task, source),
        &difference(&walk.region.hi, &walk.region.lo),
        axis,
        values_from,
        places_from,
        values,
        places,
    );
}
