//! Tasks of views: the chunks of their sources that they need, read one at a time.
ghost use Rattle.std.specs.Prelude.{◌≡◌, ℕ, ◌+◌, ◌*◌, ◌-◌, ◌<◌, ◌≤◌, true, Option, IsTrue, All, length, IfErr, OnOk};
ghost use Rattle.cu_num.specs.Dtype.{size_of};
ghost use Rattle.cu_shape.specs.Index.{product, differences};
ghost use Rattle.cu_store.specs.Faults.{Rose};
ghost use Rattle.cu_store.specs.Held.{Contents};
ghost use Rattle.cu_store.specs.Chunks.{Adds, Keeps, StaysOpen};
ghost use Rattle.cu_task.specs.Asks.{MayReadSources};
ghost use Rattle.cu_store.specs.Steps.{NoChange, Steps};
ghost use Rattle.cu_op.specs.Kind.Pull.{shapes_at};
ghost use Rattle.cu_region.specs.Reading.{key_at, HasFront, IsChunkReadFault};
ghost use Rattle.cu_region.specs.Writing.{AreElements};
ghost use Rattle.cu_task.specs.Views.{source_in, is_exact, source_calls, sure_calls, view_calls, IsSourceKey, IsKnown, HaveCome, IsAny, HasPulled};
ghost use Rattle.cu_task.specs.ViewJobs.{IsViewJob, view_task_of, made_in, buffer_in, buffer_room, source_room, view_of_part, IsSourceRegion, IsSourceChunk, IsChunkRegion, view_of_chunk, source_of_chunk, room_for_chunk, IsKeyOfSource, is_needed_chunk, calls_for_chunk, HaveComeFrom, IsMovedFrom, HasHull, IsFront, IsViewFault};
ghost use Rattle.cu_task.specs.Straight.{IsStraight, StandsFrom};
ghost use Rattle.cu_task.specs.ViewJobs.{tally_for_chunk, tally_for_source, tally_for_sources, IsExactJob};

use crate::results::result_bytes;
use crate::rows::place_of_rows;
use crate::straight::is_straight;
use arrayvec::ArrayVec;
use cu_grid::Region;
use cu_num::size;
use cu_op::{ArrayInfo, PlanTask};
use cu_origin::Pull;
use cu_region::{read_chunk, read_front};
use cu_shape::{Dims, difference};
use cu_store::{Chunks, TaskFault};
use cu_view::{gather, hull_of, lay_constants, touches_of};
use cu_view_box::Block;

/// A task of a view, with the shapes of its sources.
#[derive(Drop)]
pub(crate) struct ViewJob<'a> {
    /// The task.
    pub(crate) task: &'a PlanTask<'a>,
    /// The view that it is of.
    pub(crate) pull: &'a Pull,
    /// The view's sources.
    pub(crate) ins: &'a [u32],
    /// Their shapes.
    pub(crate) shapes: &'a [Dims],
}

/// A source of a view, and a region of it with all that is needed of it.
#[derive(Drop)]
pub(crate) struct SourceRegion<'a> {
    /// The task of the view.
    pub(crate) job: &'a ViewJob<'a>,
    /// The number of the source.
    pub(crate) source: u32,
    /// The region.
    pub(crate) region: Region,
}

/// A chunk of a source of a view.
#[derive(Drop)]
pub(crate) struct SourceChunk<'a> {
    /// The task of the view.
    pub(crate) job: &'a ViewJob<'a>,
    /// The number of the source.
    pub(crate) source: u32,
    /// The coordinate of the chunk.
    pub(crate) coord: Dims,
    /// A region of the source with all that is needed of it.
    pub(crate) needed: Region,
}

/// The shapes of arrays of a plan.
pub(crate) fn shapes_of(task: &PlanTask<'_>, numbers: &[u32]) -> ArrayVec<Dims, 8>
    requires few { length numbers.now ≤ 8 }
    requires within { All (λ a. a < length task.now.plan.arrays) numbers.now }
    ensures { result.items ≡ shapes_at task.now.plan.arrays numbers.now }
{
    let mut shapes = ArrayVec::new();
    for number in numbers {
        shapes.push(*task.array(*number).layout.grid.shape());
    }
    shapes
}

/// Writes the elements of the region that come from no source. The others may be anything afterwards.
pub(crate) fn lay_numbers(job: &ViewJob<'_>, output: &mut [u8])
    requires job { IsViewJob job.now }
    requires output { length output.old ≡ buffer_room (view_task_of job.now) }
    ensures { (told : Option Contents) → HasPulled (view_task_of job.now) 0 told output.new }
{
    let made = made_array(job);
    lay_constants(
        job.pull,
        job.shapes,
        made.layout.grid.shape(),
        &result_block(job),
        output,
    );
}

/// The array that a view makes.
pub(crate) fn made_array<'a>(job: &ViewJob<'a>) -> &'a ArrayInfo
    requires { IsViewJob job.now }
    ensures { result.now ≡ made_in (view_task_of job.now) }
{
    job.task.array(job.task.operation().target())
}

/// The region of the task in its buffer.
pub(crate) fn result_block(job: &ViewJob<'_>) -> Block
    requires { IsViewJob job.now }
    ensures lo { result.region.lo ≡ (view_task_of job.now).lo }
    ensures hi { result.region.hi ≡ (view_task_of job.now).hi }
    ensures dims { result.dims ≡ differences (view_task_of job.now).hi (view_task_of job.now).lo }
    ensures dtype { result.dtype ≡ (made_in (view_task_of job.now)).layout.dtype }
{
    let region = *job.task.region();
    Block {
        region,
        dims: difference(&region.hi, &region.lo),
        dtype: made_array(job).layout.dtype,
    }
}

/// Takes the elements of the region that come from the sources, one source after another, to the
/// end of `room`. Before them it has the bytes of a chunk of each, which are free.
pub(crate) fn read_sources<C: Chunks>(
    store: &C::Store,
    access: &mut C::Access,
    job: &ViewJob<'_>,
    room: &mut [u8],
) -> Result<(), TaskFault>
    requires belongs { C.belongs store.now access.old }
    requires may { MayReadSources (view_task_of job.now) (C.may_get store.now access.old) }
    requires job { IsViewJob job.now }
    requires room { (source : ℕ) → source < length job.now.ins.now
        → source_room (view_task_of job.now) source + buffer_room (view_task_of job.now)
        ≤ length room.old }
    ensures open { StaysOpen (C.belongs store.now access.new) (C.may_get store.now access.old)
        (C.may_get store.now access.new) }
    ensures pulled { (told : Option Contents)
        → ((source : ℕ) → source < length job.now.ins.now
        → IsKnown (IsSourceKey (view_task_of job.now) source) told (C.shown access.old))
        → HasPulled (view_task_of job.now) 0 told (buffer_in (view_task_of job.now) room.old)
        → OnOk result (HasPulled (view_task_of job.now) (length job.now.ins.now) told
        (buffer_in (view_task_of job.now) room.new)) }
    ensures step { Steps NoChange 0 (view_calls (view_task_of job.now) (length job.now.ins.now))
        (C.shown access.old) (C.shown access.new) }
    ensures all { OnOk result (Rose
        (sure_calls job.now.pull.now (view_calls (view_task_of job.now) (length job.now.ins.now)))
        (C.shown access.old).calls (C.shown access.new).calls) }
    ensures called { IsExactJob job.now → OnOk result
        (Adds (tally_for_sources (C.weight store.now) job.now (length job.now.ins.now))
        (C.tally access.old) (C.tally access.new)) }
    ensures cause { IfErr result (IsViewFault (C.shown access.old) (C.shown access.new)
        (view_task_of job.now)) }
{
    for source in 0..job.ins.len() as u32 {
        read_source::<C>(store, access, job, source, room)?;
    }
    Ok(())
}

/// Takes the elements of the region that come from one source.
fn read_source<C: Chunks>(
    store: &C::Store,
    access: &mut C::Access,
    job: &ViewJob<'_>,
    source: u32,
    room: &mut [u8],
) -> Result<(), TaskFault>
    requires belongs { C.belongs store.now access.old }
    requires may { Keeps (IsSourceKey (view_task_of job.now) source) (C.may_get store.now access.old) }
    requires job { IsViewJob job.now }
    requires source { source < length job.now.ins.now }
    requires room { source_room (view_task_of job.now) source + buffer_room (view_task_of job.now)
        ≤ length room.old }
    ensures open { StaysOpen (C.belongs store.now access.new) (C.may_get store.now access.old)
        (C.may_get store.now access.new) }
    ensures takes { (told : Option Contents)
        → IsKnown (IsSourceKey (view_task_of job.now) source) told (C.shown access.old)
        → OnOk result (HaveCome (view_task_of job.now) source IsAny told
        (buffer_in (view_task_of job.now) room.old) (buffer_in (view_task_of job.now) room.new)) }
    ensures step { Steps NoChange 0 (source_calls (view_task_of job.now) source)
        (C.shown access.old) (C.shown access.new) }
    ensures all { OnOk result (Rose
        (sure_calls job.now.pull.now (source_calls (view_task_of job.now) source))
        (C.shown access.old).calls (C.shown access.new).calls) }
    ensures called { IsExactJob job.now → OnOk result
        (Adds (tally_for_source (C.weight store.now) job.now source)
        (C.tally access.old) (C.tally access.new)) }
    ensures cause { IfErr result (IsChunkReadFault (C.shown access.old) (C.shown access.new)
        (IsSourceKey (view_task_of job.now) source) (source_room (view_task_of job.now) source)) }
{
    match needed_hull(job, source) {
        None => Ok(()),
        Some(region) => {
            let part = SourceRegion {
                job: &*job,
                source,
                region,
            };
            read_within::<C>(store, access, &part, room)
        }
    }
}

/// A region of a source with all that is needed of it, where anything is.
pub(crate) fn needed_hull(job: &ViewJob<'_>, source: u32) -> Option<Region>
    requires job { IsViewJob job.now }
    requires source { source < length job.now.ins.now }
    ensures { HasHull (view_task_of job.now) source result }
{
    let made = made_array(job);
    hull_of(
        job.pull,
        job.shapes,
        made.layout.grid.shape(),
        source,
        job.task.region(),
    )
}

/// Takes the elements of the region that come from one source, where all that do come from a region of it.
fn read_within<C: Chunks>(
    store: &C::Store,
    access: &mut C::Access,
    part: &SourceRegion<'_>,
    room: &mut [u8],
) -> Result<(), TaskFault>
    requires belongs { C.belongs store.now access.old }
    requires may { Keeps (IsSourceKey (view_of_part part.now) part.now.source)
        (C.may_get store.now access.old) }
    requires part { IsSourceRegion part.now }
    requires room { source_room (view_of_part part.now) part.now.source
        + buffer_room (view_of_part part.now) ≤ length room.old }
    ensures open { StaysOpen (C.belongs store.now access.new) (C.may_get store.now access.old)
        (C.may_get store.now access.new) }
    ensures takes { (told : Option Contents)
        → IsKnown (IsSourceKey (view_of_part part.now) part.now.source) told (C.shown access.old)
        → OnOk result (HaveCome (view_of_part part.now) part.now.source IsAny told
        (buffer_in (view_of_part part.now) room.old)
        (buffer_in (view_of_part part.now) room.new)) }
    ensures step { Steps NoChange 0 (source_calls (view_of_part part.now) part.now.source)
        (C.shown access.old) (C.shown access.new) }
    ensures all { OnOk result (Rose (sure_calls part.now.job.now.pull.now
        (source_calls (view_of_part part.now) part.now.source))
        (C.shown access.old).calls (C.shown access.new).calls) }
    ensures called { IsExactJob part.now.job.now → OnOk result
        (Adds (tally_for_source (C.weight store.now) part.now.job.now part.now.source)
        (C.tally access.old) (C.tally access.new)) }
    ensures cause { IfErr result (IsChunkReadFault (C.shown access.old) (C.shown access.new)
        (IsSourceKey (view_of_part part.now) part.now.source)
        (source_room (view_of_part part.now) part.now.source)) }
{
    let from = source_array(part.job, part.source);
    for coord in from.layout.grid.cover(&part.region) {
        let chunk = SourceChunk {
            job: part.job,
            source: part.source,
            coord,
            needed: part.region,
        };
        read_piece::<C>(store, access, &chunk, room)?;
    }
    Ok(())
}

/// The array that is a source.
pub(crate) fn source_array<'a>(job: &ViewJob<'a>, source: u32) -> &'a ArrayInfo
    requires job { IsViewJob job.now }
    requires source { source < length job.now.ins.now }
    ensures { result.now ≡ source_in (view_task_of job.now) source }
{
    job.task.array(job.ins[source as usize])
}

/// Takes the elements of the region that come from one chunk of a source, which is read only where some do.
fn read_piece<C: Chunks>(
    store: &C::Store,
    access: &mut C::Access,
    chunk: &SourceChunk<'_>,
    room: &mut [u8],
) -> Result<(), TaskFault>
    requires belongs { C.belongs store.now access.old }
    requires may { Keeps (IsKeyOfSource chunk.now) (C.may_get store.now access.old) }
    requires chunk { IsSourceChunk chunk.now }
    requires room { room_for_chunk chunk.now + buffer_room (view_of_chunk chunk.now)
        ≤ length room.old }
    ensures open { StaysOpen (C.belongs store.now access.new) (C.may_get store.now access.old)
        (C.may_get store.now access.new) }
    ensures takes { (told : Option Contents)
        → IsKnown (IsKeyOfSource chunk.now) told (C.shown access.old)
        → OnOk result (HaveComeFrom chunk.now told (buffer_in (view_of_chunk chunk.now) room.old)
        (buffer_in (view_of_chunk chunk.now) room.new)) }
    ensures step { Steps NoChange (sure_calls chunk.now.job.now.pull.now (calls_for_chunk chunk.now))
        (calls_for_chunk chunk.now)
        (C.shown access.old) (C.shown access.new) }
    ensures called { IsExactJob chunk.now.job.now
        → Adds (tally_for_chunk (C.weight store.now) chunk.now) (C.tally access.old) (C.tally access.new) }
    ensures cause { IfErr result (IsChunkReadFault (C.shown access.old) (C.shown access.new)
        (IsKeyOfSource chunk.now) (room_for_chunk chunk.now)) }
{
    if !is_needed(chunk) {
        return Ok(());
    }
    take_chunk::<C>(store, access, chunk, room)
}

/// Whether an element of the region comes from a chunk of a source; of a reshaped source it may be that none does.
pub(crate) fn is_needed(chunk: &SourceChunk<'_>) -> bool
    requires { IsSourceChunk chunk.now }
    ensures needed { is_needed_chunk chunk.now ≡ true → IsTrue result }
    ensures only { is_exact chunk.now.job.now.pull.now ≡ true → IsTrue result
        → is_needed_chunk chunk.now ≡ true }
{
    let job = chunk.job;
    let made = made_array(job);
    let part = chunk_part(chunk);
    touches_of(
        job.pull,
        job.shapes,
        made.layout.grid.shape(),
        chunk.source,
        job.task.region(),
        &part,
    )
}

/// The region of a source that a chunk of it has.
pub(crate) fn chunk_part(chunk: &SourceChunk<'_>) -> Region
    requires { IsSourceChunk chunk.now }
    ensures { IsChunkRegion chunk.now result }
{
    source_array(chunk.job, chunk.source)
        .layout
        .grid
        .chunk_region(&chunk.coord)
}

/// A chunk of a source in its buffer, which also has the places past the source's edge.
fn chunk_block(chunk: &SourceChunk<'_>) -> Block
    requires { IsSourceChunk chunk.now }
    ensures region { IsChunkRegion chunk.now result.region }
    ensures dims { result.dims ≡ (source_of_chunk chunk.now).layout.grid.chunk }
    ensures dtype { result.dtype ≡ (source_of_chunk chunk.now).layout.dtype }
{
    let from = source_array(chunk.job, chunk.source);
    Block {
        region: chunk_part(chunk),
        dims: *from.layout.grid.chunk(),
        dtype: from.layout.dtype,
    }
}

/// The elements of a chunk of a source up to the last row, along its first axis, of which something
/// is needed. Row-major they are the chunk's first, so that a read from its beginning has them.
pub(crate) fn front_block(chunk: &SourceChunk<'_>) -> Block
    requires { IsSourceChunk chunk.now }
    ensures { IsFront chunk.now result }
{
    let mut front = chunk_block(chunk);
    if front.dims.rank() > 0 {
        let first = front.region.lo.at(0);
        let end = front.region.hi.at(0).min(chunk.needed.hi.at(0)).max(first);
        front.region.hi.put(0, end);
        front.dims.put(0, end - first);
    }
    front
}

/// The bytes of the front of a chunk.
pub(crate) fn front_bytes(chunk: &SourceChunk<'_>, front: &Block) -> usize
    requires chunk { IsSourceChunk chunk.now }
    requires front { IsFront chunk.now front.now }
    ensures bytes { result ≡ product front.now.dims * size_of front.now.dtype }
    ensures within { result ≤ room_for_chunk chunk.now }
{
    match front.dims.elements() {
        Some(count) => (count * u64::from(size(front.dtype))) as usize,
        None => unreachable!(),
    }
}

/// Takes the elements of the region that come from one chunk of a source. Where whole rows of the
/// region come from it, it is read to where they stand.
fn take_chunk<C: Chunks>(
    store: &C::Store,
    access: &mut C::Access,
    chunk: &SourceChunk<'_>,
    room: &mut [u8],
) -> Result<(), TaskFault>
    requires belongs { C.belongs store.now access.old }
    requires may { Keeps (IsKeyOfSource chunk.now) (C.may_get store.now access.old) }
    requires chunk { IsSourceChunk chunk.now }
    requires room { room_for_chunk chunk.now + buffer_room (view_of_chunk chunk.now)
        ≤ length room.old }
    ensures open { StaysOpen (C.belongs store.now access.new) (C.may_get store.now access.old)
        (C.may_get store.now access.new) }
    ensures takes { (told : Option Contents)
        → IsKnown (IsKeyOfSource chunk.now) told (C.shown access.old)
        → OnOk result (HaveComeFrom chunk.now told (buffer_in (view_of_chunk chunk.now) room.old)
        (buffer_in (view_of_chunk chunk.now) room.new)) }
    ensures step { Steps NoChange 1 1 (C.shown access.old) (C.shown access.new) }
    ensures called { Adds (C.weight store.now (key_at (source_of_chunk chunk.now) chunk.now.coord))
        (C.tally access.old) (C.tally access.new) }
    ensures cause { IfErr result (IsChunkReadFault (C.shown access.old) (C.shown access.new)
        (IsKeyOfSource chunk.now) (room_for_chunk chunk.now)) }
{
    let front = front_block(chunk);
    match place_of_rows(chunk, &front, room.len()) {
        Some(at) => take_rows::<C>(store, access, chunk, &front, at, room),
        None => take_through::<C>(store, access, chunk, &front, room),
    }
}

/// Reads the front of a chunk into `room`, from byte `at` on. The rows of it that the region has
/// are then at their places in the region's buffer. Those before them may be in front of the
/// buffer, where the memory is free.
fn take_rows<C: Chunks>(
    store: &C::Store,
    access: &mut C::Access,
    chunk: &SourceChunk<'_>,
    front: &Block,
    at: usize,
    room: &mut [u8],
) -> Result<(), TaskFault>
    requires belongs { C.belongs store.now access.old }
    requires may { Keeps (IsKeyOfSource chunk.now) (C.may_get store.now access.old) }
    requires chunk { IsSourceChunk chunk.now }
    requires front { IsFront chunk.now front.now }
    requires stands { StandsFrom chunk.now
        (length room.old - buffer_room (view_of_chunk chunk.now)) at }
    requires fits { at + product front.now.dims * size_of front.now.dtype ≤ length room.old }
    requires room { buffer_room (view_of_chunk chunk.now) ≤ length room.old }
    ensures open { StaysOpen (C.belongs store.now access.new) (C.may_get store.now access.old)
        (C.may_get store.now access.new) }
    ensures takes { (told : Option Contents)
        → IsKnown (IsKeyOfSource chunk.now) told (C.shown access.old)
        → OnOk result (HaveComeFrom chunk.now told (buffer_in (view_of_chunk chunk.now) room.old)
        (buffer_in (view_of_chunk chunk.now) room.new)) }
    ensures step { Steps NoChange 1 1 (C.shown access.old) (C.shown access.new) }
    ensures called { Adds (C.weight store.now (key_at (source_of_chunk chunk.now) chunk.now.coord))
        (C.tally access.old) (C.tally access.new) }
    ensures cause { IfErr result (IsChunkReadFault (C.shown access.old) (C.shown access.new)
        (IsKeyOfSource chunk.now) (room_for_chunk chunk.now)) }
{
    let (_, behind) = room.split_at_mut(at);
    let (rows, _) = behind.split_at_mut(front_bytes(chunk, front));
    fetch_front::<C>(store, access, chunk, front, rows)
}

/// Takes the elements of the region that come from one chunk of a source. Where the region is the
/// chunk, nothing is moved, and else they go through what stands before the region's buffer.
fn take_through<C: Chunks>(
    store: &C::Store,
    access: &mut C::Access,
    chunk: &SourceChunk<'_>,
    front: &Block,
    room: &mut [u8],
) -> Result<(), TaskFault>
    requires belongs { C.belongs store.now access.old }
    requires may { Keeps (IsKeyOfSource chunk.now) (C.may_get store.now access.old) }
    requires chunk { IsSourceChunk chunk.now }
    requires front { IsFront chunk.now front.now }
    requires room { room_for_chunk chunk.now + buffer_room (view_of_chunk chunk.now)
        ≤ length room.old }
    ensures open { StaysOpen (C.belongs store.now access.new) (C.may_get store.now access.old)
        (C.may_get store.now access.new) }
    ensures takes { (told : Option Contents)
        → IsKnown (IsKeyOfSource chunk.now) told (C.shown access.old)
        → OnOk result (HaveComeFrom chunk.now told (buffer_in (view_of_chunk chunk.now) room.old)
        (buffer_in (view_of_chunk chunk.now) room.new)) }
    ensures step { Steps NoChange 1 1 (C.shown access.old) (C.shown access.new) }
    ensures called { Adds (C.weight store.now (key_at (source_of_chunk chunk.now) chunk.now.coord))
        (C.tally access.old) (C.tally access.new) }
    ensures cause { IfErr result (IsChunkReadFault (C.shown access.old) (C.shown access.new)
        (IsKeyOfSource chunk.now) (room_for_chunk chunk.now)) }
{
    let before = room.len() - result_bytes(chunk.job.task);
    let (scratch, output) = room.split_at_mut(before);
    if is_straight(chunk) {
        take_straight::<C>(store, access, chunk, output)
    } else {
        take_front::<C>(store, access, chunk, front, output, scratch)
    }
}

/// Reads a chunk of a source into the region's buffer, where the region is the chunk.
fn take_straight<C: Chunks>(
    store: &C::Store,
    access: &mut C::Access,
    chunk: &SourceChunk<'_>,
    output: &mut [u8],
) -> Result<(), TaskFault>
    requires belongs { C.belongs store.now access.old }
    requires may { Keeps (IsKeyOfSource chunk.now) (C.may_get store.now access.old) }
    requires chunk { IsSourceChunk chunk.now }
    requires output { length output.old ≡ buffer_room (view_of_chunk chunk.now) }
    requires straight { IsStraight chunk.now }
    ensures open { StaysOpen (C.belongs store.now access.new) (C.may_get store.now access.old)
        (C.may_get store.now access.new) }
    ensures takes { (told : Option Contents)
        → IsKnown (IsKeyOfSource chunk.now) told (C.shown access.old)
        → OnOk result (HaveComeFrom chunk.now told output.old output.new) }
    ensures step { Steps NoChange 1 1 (C.shown access.old) (C.shown access.new) }
    ensures called { Adds (C.weight store.now (key_at (source_of_chunk chunk.now) chunk.now.coord))
        (C.tally access.old) (C.tally access.new) }
    ensures cause { IfErr result (IsChunkReadFault (C.shown access.old) (C.shown access.new)
        (IsKeyOfSource chunk.now) (room_for_chunk chunk.now)) }
{
    let from = source_array(chunk.job, chunk.source);
    read_chunk::<C>(store, access, from, &chunk.coord, output)
}

/// Reads the front of one chunk of a source, with all that is needed of it, into the front of
/// `scratch`, and takes the elements of the region that come from it.
fn take_front<C: Chunks>(
    store: &C::Store,
    access: &mut C::Access,
    chunk: &SourceChunk<'_>,
    front: &Block,
    output: &mut [u8],
    scratch: &mut [u8],
) -> Result<(), TaskFault>
    requires belongs { C.belongs store.now access.old }
    requires may { Keeps (IsKeyOfSource chunk.now) (C.may_get store.now access.old) }
    requires chunk { IsSourceChunk chunk.now }
    requires front { IsFront chunk.now front.now }
    requires output { length output.old ≡ buffer_room (view_of_chunk chunk.now) }
    requires scratch { room_for_chunk chunk.now ≤ length scratch.old }
    ensures open { StaysOpen (C.belongs store.now access.new) (C.may_get store.now access.old)
        (C.may_get store.now access.new) }
    ensures takes { (told : Option Contents)
        → IsKnown (IsKeyOfSource chunk.now) told (C.shown access.old)
        → OnOk result (HaveComeFrom chunk.now told output.old output.new) }
    ensures step { Steps NoChange 1 1 (C.shown access.old) (C.shown access.new) }
    ensures called { Adds (C.weight store.now (key_at (source_of_chunk chunk.now) chunk.now.coord))
        (C.tally access.old) (C.tally access.new) }
    ensures cause { IfErr result (IsChunkReadFault (C.shown access.old) (C.shown access.new)
        (IsKeyOfSource chunk.now) (room_for_chunk chunk.now)) }
{
    let bytes = &mut scratch[..front_bytes(chunk, front)];
    fetch_front::<C>(store, access, chunk, front, bytes)?;
    move_front(chunk, front, bytes, output);
    Ok(())
}

/// Reads the front of one chunk of a source, with all that is needed of it.
pub(crate) fn fetch_front<C: Chunks>(
    store: &C::Store,
    access: &mut C::Access,
    chunk: &SourceChunk<'_>,
    front: &Block,
    bytes: &mut [u8],
) -> Result<(), TaskFault>
    requires belongs { C.belongs store.now access.old }
    requires may { Keeps (IsKeyOfSource chunk.now) (C.may_get store.now access.old) }
    requires chunk { IsSourceChunk chunk.now }
    requires front { IsFront chunk.now front.now }
    requires bytes { length bytes.old ≡ product front.now.dims * size_of front.now.dtype }
    ensures open { StaysOpen (C.belongs store.now access.new) (C.may_get store.now access.old)
        (C.may_get store.now access.new) }
    ensures read { OnOk result (HasFront (source_of_chunk chunk.now) chunk.now.coord
        (C.shown access.new).held bytes.new) }
    ensures elements { OnOk result
        (AreElements (source_of_chunk chunk.now).layout.dtype bytes.new) }
    ensures step { Steps NoChange 1 1 (C.shown access.old) (C.shown access.new) }
    ensures called { Adds (C.weight store.now (key_at (source_of_chunk chunk.now) chunk.now.coord))
        (C.tally access.old) (C.tally access.new) }
    ensures cause { IfErr result (IsChunkReadFault (C.shown access.old) (C.shown access.new)
        (IsKeyOfSource chunk.now) (room_for_chunk chunk.now)) }
{
    let from = source_array(chunk.job, chunk.source);
    read_front::<C>(store, access, from, &chunk.coord, bytes)
}

/// Takes the elements of the region that come from a chunk of a source, whose front was read.
fn move_front(chunk: &SourceChunk<'_>, front: &Block, bytes: &[u8], output: &mut [u8])
    requires chunk { IsSourceChunk chunk.now }
    requires front { IsFront chunk.now front.now }
    requires bytes { length bytes.now ≡ product front.now.dims * size_of front.now.dtype }
    requires elements { AreElements (source_of_chunk chunk.now).layout.dtype bytes.now }
    requires output { length output.old ≡ buffer_room (view_of_chunk chunk.now) }
    ensures { IsMovedFrom (view_of_chunk chunk.now) chunk.now.source chunk.now.coord bytes.now
        output.old output.new }
{
    let job = chunk.job;
    let made = made_array(job);
    let shape = made.layout.grid.shape();
    gather(
        job.pull,
        job.shapes,
        shape,
        chunk.source,
        front,
        bytes,
        &result_block(job),
        output,
    );
}
