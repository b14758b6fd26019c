//! Copies whose region is kept as the chunks of the array that they make, one behind another: so
//! each element is moved once, out of a chunk that was just read into the bytes of the chunk that
//! is put.
ghost use Rattle.std.specs.Prelude.{◌≡◌, ℕ, ◌+◌, ◌≤◌, length, IfErr, OnOk};
ghost use Rattle.std.specs.Bool.{OnTrue};
ghost use Rattle.cu_store.specs.Held.{Contents};
ghost use Rattle.cu_store.specs.Chunks.{Adds, Allows, StaysOpen};
ghost use Rattle.cu_store.specs.Steps.{NoChange, Shown, Steps};
ghost use Rattle.cu_grid.specs.Cover.{Meets};
ghost use Rattle.cu_grid.specs.Counts.{IsRegion};
ghost use Rattle.cu_grid.specs.Grid.{IsCoordinate};
ghost use Rattle.cu_op.specs.Arrays.{array_at, grid_at, chunk_room};
ghost use Rattle.cu_op.specs.Elements.{Elements};
ghost use Rattle.cu_op.specs.Sound.{Sound};
ghost use Rattle.cu_op.specs.TaskView.{task_op};
ghost use Rattle.cu_op.specs.Walks.{walk_cells};
ghost use Rattle.cu_region.specs.Calls.{Made};
ghost use Rattle.cu_region.specs.Reading.{bytes_of, key_at, IsChunkReadFault};
ghost use Rattle.cu_region.specs.Writing.{AreElements, IsWriteFault};
ghost use Rattle.cu_task.specs.Asks.{MayReadWalk};
ghost use Rattle.cu_task.specs.ChunkCopies.{region_chunks, made_info, own_lo, own_hi};
ghost use Rattle.cu_task.specs.ChunkCopies.{part_room, room_of_parts, AllowsPart, AllowsParts};
ghost use Rattle.cu_task.specs.ChunkCopies.{chunk_bytes_of, ArePartsOfType, CarriesPart};
ghost use Rattle.cu_task.specs.ChunkCopies.{HasEachPart, HavePartsTaken};
ghost use Rattle.cu_task.specs.ChunkCopies.{HoldsPart, IsChunkCopy, ReadsParts, TakesChunk};
ghost use Rattle.cu_task.specs.Inputs.{IsWalkFault, IsWalkKey};
ghost use Rattle.cu_task.specs.OfTask.{calls_to_read, calls_to_write, made_bytes, scratch_bytes};
ghost use Rattle.cu_task.specs.OfTask.{tally_of_task, tally_to_write, weight_of_walk, ChangeBy};
ghost use Rattle.cu_task.specs.OfTask.{HoldsMade, IsOwnFault, IsOwnTask, IsReadyFor};
ghost use Rattle.cu_task.specs.OfTask.{MayRead, MayReadMade};
ghost use Rattle.cu_task.specs.Task.{IsCopy, StillHolds};

use crate::inputs::{input_walk, region_bytes};
use crate::results::result_bytes;
use crate::routes::{Route, route_of};
use cu_codec::{chunk_bytes, take_part};
use cu_grid::Region;
use cu_num::{Endian, size};
use cu_op::{ArrayInfo, PlanTask, Walk};
use cu_region::{read_chunk, write_region_of};
use cu_shape::Dims;
use cu_store::{Chunks, TaskFault};

/// The least bytes that a chunk which is read and one which is made share in the mean, where a copy
/// goes by chunks: below, the moves of so many parts cost more than one move of all rows.
const LEAST_SHARED: usize = 4096;

/// Whether a task is a copy that goes by chunks: several are made in its region, and those that are
/// read have enough in common with each of them.
pub(crate) fn is_copied_by_chunks(task: &PlanTask<'_>) -> bool
    ensures copy { OnTrue result (IsCopy (task_op task.now)) }
    ensures room { OnTrue result (room_of_parts task.now (region_chunks task.now)
        ≤ made_bytes task.now) }
    ensures sound { Sound task.now.plan }
{
    match route_of(task) {
        Route::Copying => shares_enough(task) && parts_fit(task, result_bytes(task)),
        _ => false,
    }
}

/// Whether a copy makes several chunks, with enough bytes in common with each that it reads.
fn shares_enough(task: &PlanTask<'_>) -> bool
    requires { IsCopy (task_op task.now) }
{
    let walk = input_walk(task, 0);
    let read = chunk_count(task.array(walk.array), &walk.region);
    let made = chunk_count(target_array(task), task.region());
    let pairs = read.saturating_mul(made);
    made > 1 && pairs.saturating_mul(LEAST_SHARED) <= result_bytes(task)
}

/// How many chunks of an array a region meets.
fn chunk_count(info: &ArrayInfo, region: &Region) -> usize
    requires { IsRegion info.now.layout.grid.shape region.now.lo region.now.hi }
{
    let mut count: usize = 0;
    for _coord in info.layout.grid.cover(region) {
        count = count.saturating_add(1);
    }
    count
}

/// The array that a task makes.
fn target_array<'a>(task: &PlanTask<'a>) -> &'a ArrayInfo
    ensures info { result.now ≡ made_info task.now }
    ensures region { IsRegion result.now.layout.grid.shape (own_lo task.now) (own_hi task.now) }
    ensures sound { Sound task.now.plan }
{
    task.array(task.operation().target())
}

/// Whether the parts of a task's region have room in so many bytes.
fn parts_fit(task: &PlanTask<'_>, room: usize) -> bool
    ensures { OnTrue result (room_of_parts task.now (region_chunks task.now) ≤ room) }
{
    let info = target_array(task);
    let mut left = room;
    for coord in info.layout.grid.cover(task.region()) {
        let region = info.layout.grid.chunk_region(&coord);
        let bytes = region_bytes(info.layout.dtype, &region);
        if left < bytes {
            return false;
        }
        left -= bytes;
    }
    true
}

/// Runs a task of a copy by chunks: reads each chunk of the source that meets its region into the
/// parts, and then stores each part. Nothing is put before all is read. The parts stand behind the
/// scratch, as a result does.
pub(crate) fn copy_by_chunks<C: Chunks>(
    store: &C::Store,
    access: &mut C::Access,
    task: &PlanTask<'_>,
    bytes: &mut [u8],
) -> Result<(), TaskFault>
    requires belongs { C.belongs store.now access.old }
    requires may { MayRead task.now (C.may_get store.now access.old) }
    requires puts { Allows (ChangeBy task.now (C.shown access.old)) (C.may_put store.now) }
    requires own { IsOwnTask task.now }
    requires copy { IsCopy (task_op task.now) }
    requires parts { room_of_parts task.now (region_chunks task.now) ≤ made_bytes task.now }
    requires room { scratch_bytes task.now + made_bytes task.now ≤ length bytes.old }
    ensures open { StaysOpen (C.belongs store.now access.new) (C.may_get store.now access.old)
        (C.may_get store.now access.new) }
    ensures got { OnOk result (MayReadMade task.now (C.may_get store.now access.new)) }
    ensures stored { (env : Elements) → IsReadyFor task.now env (C.shown access.old)
        → OnOk result (HoldsMade task.now env (C.shown access.new)) }
    ensures step { Steps (ChangeBy task.now (C.shown access.old)) 0
        (calls_to_read task.now + calls_to_write task.now) (C.shown access.old)
        (C.shown access.new) }
    ensures all { OnOk result (Made (calls_to_read task.now + calls_to_write task.now)
        (C.shown access.old).calls (C.shown access.new).calls) }
    ensures called { OnOk result (Adds (tally_of_task (C.weight store.now) task.now)
        (C.tally access.old) (C.tally access.new)) }
    ensures cause { IfErr result (IsOwnFault task.now (C.shown access.old) (C.shown access.new)) }
{
    let walk = input_walk(task, 0);
    let before_parts = bytes.len() - result_bytes(task);
    let (scratch, output) = bytes.split_at_mut(before_parts);
    read_parts::<C>(store, access, task, &walk, output, scratch)?;
    write_parts::<C>(store, access, task, output, scratch)
}

/// Reads each chunk of a walk, through `scratch`, into the parts of `output`.
fn read_parts<C: Chunks>(
    store: &C::Store,
    access: &mut C::Access,
    task: &PlanTask<'_>,
    walk: &Walk,
    output: &mut [u8],
    scratch: &mut [u8],
) -> Result<(), TaskFault>
    requires belongs { C.belongs store.now access.old }
    requires may { MayReadWalk task.now.plan.arrays walk.now (C.may_get store.now access.old) }
    requires copy { IsChunkCopy task.now walk.now }
    requires output { room_of_parts task.now (region_chunks task.now) ≤ length output.old }
    requires scratch { chunk_room task.now.plan.arrays walk.now.array ≤ length scratch.old }
    ensures open { StaysOpen (C.belongs store.now access.new) (C.may_get store.now access.old)
        (C.may_get store.now access.new) }
    ensures read { (held : Contents)
        → StillHolds (IsWalkKey task.now.plan.arrays walk.now) held (C.shown access.old)
        → OnOk result (ReadsParts task.now walk.now held (region_chunks task.now) output.new) }
    ensures elements { OnOk result (ArePartsOfType task.now (region_chunks task.now) output.new) }
    ensures step { Steps NoChange 0 (length (walk_cells task.now.plan.arrays walk.now))
        (C.shown access.old) (C.shown access.new) }
    ensures all { OnOk result (Made (length (walk_cells task.now.plan.arrays walk.now))
        (C.shown access.old).calls (C.shown access.new).calls) }
    ensures called { OnOk result (Adds (weight_of_walk (C.weight store.now) task.now walk.now)
        (C.tally access.old) (C.tally access.new)) }
    ensures cause { IfErr result (IsWalkFault (C.shown access.old) (C.shown access.new)
        task.now.plan.arrays walk.now) }
{
    let from = task.array(walk.array);
    for coord in from.layout.grid.cover(&walk.region) {
        read_into_parts::<C>(store, access, task, walk, &coord, output, scratch)?;
    }
    Ok(())
}

/// Reads one chunk of a walk into the front of `scratch`, and takes its elements into the parts.
fn read_into_parts<C: Chunks>(
    store: &C::Store,
    access: &mut C::Access,
    task: &PlanTask<'_>,
    walk: &Walk,
    coord: &Dims,
    output: &mut [u8],
    scratch: &mut [u8],
) -> Result<(), TaskFault>
    requires belongs { C.belongs store.now access.old }
    requires may { C.may_get store.now access.old
        (key_at (array_at task.now.plan.arrays walk.now.array) coord.now) }
    requires copy { IsChunkCopy task.now walk.now }
    requires coordinate { IsCoordinate (grid_at task.now.plan.arrays walk.now.array) coord.now }
    requires output { room_of_parts task.now (region_chunks task.now) ≤ length output.old }
    requires scratch { chunk_room task.now.plan.arrays walk.now.array ≤ length scratch.old }
    ensures open { StaysOpen (C.belongs store.now access.new) (C.may_get store.now access.old)
        (C.may_get store.now access.new) }
    ensures takes { OnOk result (TakesChunk task.now walk.now coord.now (C.shown access.new).held
        output.old output.new) }
    ensures step { Steps NoChange 1 1 (C.shown access.old) (C.shown access.new) }
    ensures called { Adds (C.weight store.now
        (key_at (array_at task.now.plan.arrays walk.now.array) coord.now))
        (C.tally access.old) (C.tally access.new) }
    ensures cause { IfErr result (IsChunkReadFault (C.shown access.old) (C.shown access.new)
        (λ key. key ≡ key_at (array_at task.now.plan.arrays walk.now.array) coord.now)
        (bytes_of (array_at task.now.plan.arrays walk.now.array).layout)) }
{
    let from = task.array(walk.array);
    let chunk = &mut scratch[..chunk_bytes(&from.layout.grid, from.layout.dtype)];
    read_chunk::<C>(store, access, from, coord, chunk)?;
    take_into_parts(task, walk, coord, chunk, output);
    Ok(())
}

/// Takes the elements of a chunk of a walk into the parts that share some with it.
fn take_into_parts(task: &PlanTask<'_>, walk: &Walk, coord: &Dims, chunk: &[u8], output: &mut [u8])
    requires copy { IsChunkCopy task.now walk.now }
    requires coordinate { IsCoordinate (grid_at task.now.plan.arrays walk.now.array) coord.now }
    requires chunk { length chunk.now
        ≡ bytes_of (array_at task.now.plan.arrays walk.now.array).layout }
    requires output { room_of_parts task.now (region_chunks task.now) ≤ length output.old }
    ensures { HavePartsTaken task.now
        (chunk_bytes_of task.now walk.now coord.now chunk.now)
        (region_chunks task.now) output.old output.new }
{
    let from = task.array(walk.array);
    let made = target_array(task);
    let size = u64::from(size(made.layout.dtype));
    let mut at = 0;
    for part in made.layout.grid.cover(task.region()) {
        let region = made.layout.grid.chunk_region(&part);
        let end = at + region_bytes(made.layout.dtype, &region);
        let own = &mut output[at..end];
        take_part(
            &from.layout.grid,
            size,
            Endian::Little,
            coord,
            chunk,
            &region,
            own,
        );
        at = end;
    }
}

/// Stores each part of a task's region as the chunk that it is.
fn write_parts<C: Chunks>(
    store: &C::Store,
    access: &mut C::Access,
    task: &PlanTask<'_>,
    output: &[u8],
    scratch: &mut [u8],
) -> Result<(), TaskFault>
    requires belongs { C.belongs store.now access.old }
    requires puts { AllowsParts task.now output.now (C.may_put store.now) }
    requires own { IsOwnTask task.now }
    requires copy { IsCopy (task_op task.now) }
    requires output { room_of_parts task.now (region_chunks task.now) ≤ length output.now }
    requires elements { ArePartsOfType task.now (region_chunks task.now) output.now }
    requires scratch { scratch_bytes task.now ≤ length scratch.old }
    ensures open { StaysOpen (C.belongs store.now access.new) (C.may_get store.now access.old)
        (C.may_get store.now access.new) }
    ensures got { OnOk result (MayReadMade task.now (C.may_get store.now access.new)) }
    ensures step { (start : Shown)
        → HasEachPart task.now (CarriesPart task.now start) (region_chunks task.now) output.now
        → Steps (ChangeBy task.now start) 0 (calls_to_write task.now) (C.shown access.old)
        (C.shown access.new) }
    ensures stored { (env : Elements) (start : Shown) (calls : ℕ)
        → HasEachPart task.now (CarriesPart task.now start) (region_chunks task.now) output.now
        → IsReadyFor task.now env start
        → Steps (ChangeBy task.now start) 0 calls start (C.shown access.old)
        → OnOk result (HoldsMade task.now env (C.shown access.new)) }
    ensures all { OnOk result (Made (calls_to_write task.now) (C.shown access.old).calls
        (C.shown access.new).calls) }
    ensures called { OnOk result (Adds (tally_to_write (C.weight store.now) task.now)
        (C.tally access.old) (C.tally access.new)) }
    ensures cause { IfErr result (IsWriteFault (C.shown access.old).faults
        (C.shown access.new).faults (C.shown access.new).lacks) }
{
    let info = target_array(task);
    let mut from = 0;
    for coord in info.layout.grid.cover(task.region()) {
        let region = info.layout.grid.chunk_region(&coord);
        let to = from + region_bytes(info.layout.dtype, &region);
        let own = &output[from..to];
        write_part::<C>(store, access, task, &coord, own, scratch)?;
        from = to;
    }
    Ok(())
}

/// Stores the chunk at a coordinate from the bytes of its part.
fn write_part<C: Chunks>(
    store: &C::Store,
    access: &mut C::Access,
    task: &PlanTask<'_>,
    coord: &Dims,
    own: &[u8],
    scratch: &mut [u8],
) -> Result<(), TaskFault>
    requires belongs { C.belongs store.now access.old }
    requires puts { AllowsPart task.now coord.now own.now (C.may_put store.now) }
    requires own { IsOwnTask task.now }
    requires meets { Meets (made_info task.now).layout.grid (own_lo task.now) (own_hi task.now)
        coord.now }
    requires part { length own.now ≡ part_room task.now coord.now }
    requires elements { AreElements (made_info task.now).layout.dtype own.now }
    requires scratch { scratch_bytes task.now ≤ length scratch.old }
    ensures open { StaysOpen (C.belongs store.now access.new) (C.may_get store.now access.old)
        (C.may_get store.now access.new) }
    ensures got { OnOk result (C.may_get store.now access.new
        (key_at (made_info task.now) coord.now)) }
    ensures step { (start : Shown) → CarriesPart task.now start coord.now own.now
        → Steps (ChangeBy task.now start) 0 1 (C.shown access.old) (C.shown access.new) }
    ensures stored { (env : Elements) (start : Shown) (calls : ℕ)
        → CarriesPart task.now start coord.now own.now → IsReadyFor task.now env start
        → Steps (ChangeBy task.now start) 0 calls start (C.shown access.old)
        → OnOk result (HoldsPart task.now env (C.shown access.new) coord.now) }
    ensures all { OnOk result (Made 1 (C.shown access.old).calls (C.shown access.new).calls) }
    ensures called { OnOk result (Adds (C.weight store.now (key_at (made_info task.now) coord.now))
        (C.tally access.old) (C.tally access.new)) }
    ensures cause { IfErr result (IsWriteFault (C.shown access.old).faults
        (C.shown access.new).faults (C.shown access.new).lacks) }
{
    let info = target_array(task);
    let region = info.layout.grid.chunk_region(coord);
    write_region_of::<C>(store, access, info, &region, own, scratch)
}
