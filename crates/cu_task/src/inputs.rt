//! The regions from which a task computes, one behind another in its memory.
ghost use Rattle.std.specs.Prelude.{◌≡◌, ◌*◌, ◌<◌, ◌≤◌, ◌^◌, Some, All, length, IfErr, OnOk};
ghost use Rattle.cu_num.specs.Dtype.{size_of};
ghost use Rattle.cu_shape.specs.Index.{product, differences};
ghost use Rattle.cu_store.specs.Held.{Contents};
ghost use Rattle.cu_store.specs.Chunks.{Adds, StaysOpen};
ghost use Rattle.cu_task.specs.Asks.{MayReadWalk};
ghost use Rattle.cu_store.specs.Steps.{NoChange, Steps};
ghost use Rattle.cu_op.specs.Arrays.{array_at, type_at, chunk_room};
ghost use Rattle.cu_op.specs.Sound.{Sound};
ghost use Rattle.cu_op.specs.TaskView.{task_op, walk_at};
ghost use Rattle.cu_op.specs.Walks.{IsWalkOver, walk_cells, input_walks};
ghost use Rattle.cu_region.specs.Reading.{ReadsRegion};
ghost use Rattle.cu_region.specs.Calls.{Made};
ghost use Rattle.cu_region.specs.Writing.{AreElements};
ghost use Rattle.cu_task.specs.Inputs.{walk_room, room_of_walks, lays_from, IsWalkKey, IsWalkFault};
ghost use Rattle.cu_task.specs.OfTask.{read_bytes, walks_from, weight_of_walk};
ghost use Rattle.cu_task.specs.Task.{StillHolds};

use arrayvec::ArrayVec;
use cu_grid::Region;
use cu_kern::Lay;
use cu_num::{Dtype, size};
use cu_op::{PlanTask, Walk};
use cu_region::read_region_of;
use cu_shape::difference;
use cu_store::{Chunks, TaskFault};

/// Reads the region of a walk.
pub(crate) fn read_walk<C: Chunks>(
    store: &C::Store,
    access: &mut C::Access,
    task: &PlanTask<'_>,
    walk: &Walk,
    out: &mut [u8],
    scratch: &mut [u8],
) -> Result<(), TaskFault>
    requires belongs { C.belongs store.now access.old }
    requires may { MayReadWalk task.now.plan.arrays walk.now (C.may_get store.now access.old) }
    requires walk { IsWalkOver task.now.plan.arrays walk.now }
    requires room { length out.old ≡ walk_room task.now.plan.arrays walk.now }
    requires scratch { chunk_room task.now.plan.arrays walk.now.array ≤ length scratch.old }
    ensures open { StaysOpen (C.belongs store.now access.new) (C.may_get store.now access.old)
        (C.may_get store.now access.new) }
    ensures read { (held : Contents)
        → StillHolds (IsWalkKey task.now.plan.arrays walk.now) held (C.shown access.old)
        → OnOk result (ReadsRegion (array_at task.now.plan.arrays walk.now.array) walk.now.region.lo
        walk.now.region.hi (Some held) out.new) }
    ensures elements { OnOk result (AreElements (type_at task.now.plan.arrays walk.now.array)
        out.new) }
    ensures step { Steps NoChange 0 (length (walk_cells task.now.plan.arrays walk.now))
        (C.shown access.old) (C.shown access.new) }
    ensures all { OnOk result (Made (length (walk_cells task.now.plan.arrays walk.now))
        (C.shown access.old).calls (C.shown access.new).calls) }
    ensures called { OnOk result (Adds (weight_of_walk (C.weight store.now) task.now walk.now)
        (C.tally access.old) (C.tally access.new)) }
    ensures cause { IfErr result (IsWalkFault (C.shown access.old) (C.shown access.new)
        task.now.plan.arrays walk.now) }
{
    read_region_of::<C>(
        store,
        access,
        task.array(walk.array),
        &walk.region,
        out,
        scratch,
    )
}

/// The bytes of the elements of a walk's region.
pub(crate) fn walk_bytes(task: &PlanTask<'_>, walk: &Walk) -> usize
    requires { IsWalkOver task.now.plan.arrays walk.now }
    ensures bytes { result ≡ walk_room task.now.plan.arrays walk.now }
    ensures sound { Sound task.now.plan }
{
    let layout = &task.array(walk.array).layout;
    region_bytes(layout.dtype, &walk.region)
}

/// The bytes of the elements of a region, in a type.
pub(crate) fn region_bytes(t: Dtype, region: &Region) -> usize
    requires ranks { length region.now.hi ≡ length region.now.lo }
    requires few { product (differences region.now.hi region.now.lo) ≤ 2 ^ 56 }
    ensures { result ≡ product (differences region.now.hi region.now.lo) * size_of t }
{
    let sizes = difference(&region.hi, &region.lo);
    let mut bytes = u64::from(size(t));
    for axis in 0..sizes.rank() {
        bytes = bytes.saturating_mul(sizes.at(axis));
    }
    bytes as usize
}

/// The bytes of the regions that a task reads.
pub(crate) fn input_bytes(task: &PlanTask<'_>) -> usize
    requires { read_bytes task.now < 2 ^ 64 }
    ensures { result ≡ read_bytes task.now }
{
    room_of(task, task.input_walks())
}

/// The bytes of those from the one at a place on.
pub(crate) fn bytes_from(task: &PlanTask<'_>, place: usize) -> usize
    requires place { place ≤ length (walks_from task.now 0) }
    requires small { room_of_walks task.now.plan.arrays (walks_from task.now place) < 2 ^ 64 }
    ensures { result ≡ room_of_walks task.now.plan.arrays (walks_from task.now place) }
{
    room_of(task, &task.input_walks()[place..])
}

/// The bytes of the region of each walk together.
fn room_of(task: &PlanTask<'_>, walks: &[Walk]) -> usize
    requires over { All (IsWalkOver task.now.plan.arrays) walks.now }
    requires small { room_of_walks task.now.plan.arrays walks.now < 2 ^ 64 }
    ensures { result ≡ room_of_walks task.now.plan.arrays walks.now }
{
    let mut room = 0;
    for walk in walks {
        room += walk_bytes(task, walk);
    }
    room
}

/// Where the regions stand.
pub(crate) fn lays_of(task: &PlanTask<'_>, walks: &[Walk]) -> ArrayVec<Lay, 8>
    requires over { All (IsWalkOver task.now.plan.arrays) walks.now }
    requires few { length walks.now ≤ 8 }
    requires small { room_of_walks task.now.plan.arrays walks.now < 2 ^ 64 }
    ensures { result.items ≡ lays_from task.now.plan.arrays 0 walks.now }
{
    let mut lays = ArrayVec::new();
    let mut at = 0;
    for walk in walks {
        lays.push(Lay {
            at,
            dtype: task.array(walk.array).layout.dtype,
            dims: difference(&walk.region.hi, &walk.region.lo),
        });
        at += walk_bytes(task, walk);
    }
    lays
}

/// The region of an array that a task reads, by its place among them.
pub(crate) fn input_walk(task: &PlanTask<'_>, at: usize) -> Walk
    requires { at < length (input_walks task.now.plan.arrays (task_op task.now) task.now.number) }
    ensures walk { result ≡ walk_at task.now at }
    ensures over { IsWalkOver task.now.plan.arrays result }
    ensures sound { Sound task.now.plan }
{
    task.input_walks()[at]
}
