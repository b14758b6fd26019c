//! Rows of a chunk that are rows of a view's region: to where the chunk may be read, so that they
//! stand in the region's buffer. A row has all elements of one index of the first axis.
ghost use Rattle.std.specs.Prelude.{◌≡◌, ◌+◌, ◌*◌, ◌-◌, ◌<◌, ◌≤◌, IfSome, length};
ghost use Rattle.std.specs.Bool.{OnTrue};
ghost use Rattle.cu_num.specs.Dtype.{size_of};
ghost use Rattle.cu_shape.specs.Index.{product};
ghost use Rattle.cu_task.specs.Straight.{behind_first, AreSameBehind, HasChunkRows, StandsFrom};
ghost use Rattle.cu_task.specs.ViewJobs.{buffer_room, view_of_chunk, IsFront, IsSourceChunk};

use crate::results::result_bytes;
use crate::straight::is_shifted;
use crate::views::{SourceChunk, chunk_part, front_bytes, made_array, result_block, source_array};
use cu_num::size;
use cu_op::ArrayInfo;
use cu_shape::Dims;
use cu_view_box::Block;

/// The byte of the memory of a view's task, which ends with its region's buffer, to which a chunk's
/// front may be read, so that what the region has of it is at its place. Of a chunk that begins
/// before what is needed, the rows in front of that then stand before the buffer. None where the
/// region's rows aren't rows of the chunk, or where the front doesn't fit there.
pub(crate) fn place_of_rows(chunk: &SourceChunk<'_>, front: &Block, room: usize) -> Option<usize>
    requires chunk { IsSourceChunk chunk.now }
    requires front { IsFront chunk.now front.now }
    requires room { buffer_room (view_of_chunk chunk.now) ≤ room }
    ensures stands { IfSome result
        (StandsFrom chunk.now (room - buffer_room (view_of_chunk chunk.now))) }
    ensures fits { IfSome result
        (λ at. at + product front.now.dims * size_of front.now.dtype ≤ room) }
{
    let before = room - result_bytes(chunk.job.task);
    let bytes = front_bytes(chunk, front);
    let at = first_row(chunk, before)?;
    if at > room || room - at < bytes {
        return None;
    }
    Some(at)
}

/// The byte at which a chunk's first row has its place, in memory with so many bytes before the
/// region's buffer.
fn first_row(chunk: &SourceChunk<'_>, before: usize) -> Option<usize>
    requires { IsSourceChunk chunk.now }
    ensures { IfSome result (StandsFrom chunk.now before) }
{
    if !has_rows(chunk) {
        return None;
    }
    let row = row_bytes(source_array(chunk.job, chunk.source))?;
    let part = chunk_part(chunk);
    row_place(part.lo.at(0), chunk.needed.lo.at(0), row, before)
}

/// The byte at which the row of index `first` has its place, where that of index `needed` has it
/// behind `before` bytes and each row has `row` bytes.
fn row_place(first: u64, needed: u64, row: u64, before: usize) -> Option<usize>
    ensures { IfSome result (λ at. at + needed * row ≡ before + first * row) }
{
    if first < needed {
        let bytes = (needed - first).checked_mul(row)?;
        before.checked_sub(bytes as usize)
    } else {
        let bytes = (first - needed).checked_mul(row)?;
        before.checked_add(bytes as usize)
    }
}

/// The bytes of a row of a chunk.
fn row_bytes(info: &ArrayInfo) -> Option<u64>
    requires { 0 < length info.now.layout.grid.chunk }
    ensures { IfSome result (λ n. n
        ≡ product (behind_first info.now.layout.grid.chunk) * size_of info.now.layout.dtype) }
{
    let mut row = *info.layout.grid.chunk();
    row.put(0, 1);
    let count = row.elements()?;
    count.checked_mul(u64::from(size(info.layout.dtype)))
}

/// Whether a row of the region is a row of the chunk or of its neighbours along the first axis.
fn has_rows(chunk: &SourceChunk<'_>) -> bool
    requires { IsSourceChunk chunk.now }
    ensures { OnTrue result (HasChunkRows chunk.now) }
{
    let from = source_array(chunk.job, chunk.source);
    let made = made_array(chunk.job);
    if from.layout.dtype != made.layout.dtype {
        return false;
    }
    let to = result_block(chunk.job);
    if !is_same_behind(&to.dims, from.layout.grid.chunk()) {
        return false;
    }
    let part = chunk_part(chunk);
    if !is_same_behind(&chunk.needed.lo, &part.lo) {
        return false;
    }
    is_shifted(chunk, &chunk.needed)
}

/// Whether these have a first axis, and are the same on all others.
fn is_same_behind(one: &Dims, other: &Dims) -> bool
    ensures { OnTrue result (AreSameBehind one.now other.now) }
{
    if one.rank() == 0 || other.rank() == 0 {
        return false;
    }
    let mut alike = *one;
    alike.put(0, other.at(0));
    alike.is(other)
}
