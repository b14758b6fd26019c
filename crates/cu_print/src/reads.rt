//! Bands that are read from the depot, chunk by chunk.
ghost use Rattle.std.specs.Prelude.{◌≡◌, ◌≢◌, ℕ, ◌+◌, ◌*◌, ◌<◌, ◌≤◌, List, length, max, IfErr, OnOk, OnErr};
ghost use Rattle.cu_num.specs.Dtype.{size_of};
ghost use Rattle.cu_shape.specs.Index.{product, axis_by_axis, quotients, differences};
ghost use Rattle.cu_grid.specs.Counts.{chunk_lo, IsRegion, IsWithin};
ghost use Rattle.cu_grid.specs.Cover.{Meets};
ghost use Rattle.cu_codec.specs.Parts.{part_at, place_within};
ghost use Rattle.cu_region.specs.Reading.{bytes_of, HasChunkPart, key_at};
ghost use Rattle.cu_region.specs.Calls.{chunks_met};
ghost use Rattle.cu_region.specs.Steady.{IsSteady};
ghost use Rattle.cu_store.specs.Steps.{Shown, NoChange, OnceEach};
ghost use Rattle.cu_command.specs.Chunks.{IsStoredArray};
ghost use Rattle.cu_command.specs.Seen.{Stepped, WithinCalls};
ghost use Rattle.cu_print.specs.Bands.{HasFirst, IsBandUnread};
ghost use Rattle.cu_print.specs.Runs.{IsReadEnd};

use crate::runs::extents;
use cu_codec::{chunk_bytes, take_part};
use cu_command::{Status, read_stored_chunk};
use cu_grid::{Grid, Region};
use cu_num::{Endian, size};
use cu_op::ArrayInfo;
use cu_shape::{Dims, difference, place};
use cu_store::PutStore;

/// Why a band wasn't read whole.
#[derive(Clone, Copy)]
pub(crate) struct Unread {
    /// How many of its first elements were read: those before the first one of the chunk that wasn't.
    pub(crate) ready: u64,
    /// Why that chunk wasn't read.
    pub(crate) status: Status,
}

/// Reads a chunk, again where the store failed, and copies what of it lies in the region into the region's buffer. Else it says
/// why reading it ended.
fn read_part<D: PutStore>(
    depot: &mut D,
    info: &ArrayInfo,
    coord: &Dims,
    region: &Region,
    retries: u32,
    out: &mut [u8],
    scratch: &mut [u8],
) -> Result<(), Status>
    requires shown { IsStoredArray info.now }
    requires region { IsRegion info.now.layout.grid.shape region.now.lo region.now.hi }
    requires meets { Meets info.now.layout.grid region.now.lo region.now.hi coord.now }
    requires out_length { length out.old ≡ product (differences region.now.hi region.now.lo) * size_of info.now.layout.dtype }
    requires scratch_length { bytes_of info.now.layout ≤ length scratch.old }
    ensures part { (entry : Shown) → Stepped NoChange entry (D.shown depot.old) → IsSteady (λ key. key ≡ key_at info.now coord.now) entry.held entry.late
        → OnOk result (HasChunkPart info.now coord.now region.now.lo region.now.hi entry.held out.new) }
    ensures others { OnOk result ((idx : List ℕ) → IsWithin region.now.lo region.now.hi idx → quotients idx info.now.layout.grid.chunk ≢ coord.now
        → part_at (size_of info.now.layout.dtype) out.new (place_within region.now.lo region.now.hi idx)
        ≡ part_at (size_of info.now.layout.dtype) out.old (place_within region.now.lo region.now.hi idx)) }
    ensures same { OnErr result (out.new ≡ out.old) }
    ensures step { Stepped NoChange (D.shown depot.old) (D.shown depot.new) }
    ensures cause { IfErr result (IsReadEnd (retries + 1) (D.shown depot.old) (D.shown depot.new) info.now.layout (key_at info.now coord.now)) }
    ensures calls { WithinCalls (retries + 1) (D.shown depot.old) (D.shown depot.new) }
    ensures once { OnceEach 1 (D.shown depot.old) (D.shown depot.new) }
{
    let layout = &info.layout;
    let _shape = layout.grid.shape();
    let chunk = &mut scratch[..chunk_bytes(&layout.grid, layout.dtype)];
    match read_stored_chunk(depot, info, coord, retries, chunk) {
        Ok(()) => {}
        Err(status) => return Err(status),
    }
    take_part(
        &layout.grid,
        size(layout.dtype),
        Endian::Little,
        coord,
        chunk,
        region,
        out,
    );
    Ok(())
}

/// The first index of a region that lies in the chunk at this coordinate.
fn first_in(grid: &Grid, coord: &Dims, region: &Region) -> Dims
    requires region { IsRegion grid.now.shape region.now.lo region.now.hi }
    requires meets { Meets grid.now region.now.lo region.now.hi coord.now }
    ensures { result ≡ axis_by_axis max (chunk_lo grid.now.chunk coord.now) region.now.lo }
{
    let own = grid.chunk_region(coord);
    let mut first = region.lo;
    for axis in 0..region.lo.rank() {
        first.put(axis, own.lo.at(axis).max(region.lo.at(axis)));
    }
    first
}

/// How many elements of a region stand before the first one that lies in the chunk at this coordinate.
fn ready_before(grid: &Grid, coord: &Dims, region: &Region) -> u64
    requires region { IsRegion grid.now.shape region.now.lo region.now.hi }
    requires meets { Meets grid.now region.now.lo region.now.hi coord.now }
    ensures { result ≡ place_within region.now.lo region.now.hi (axis_by_axis max (chunk_lo grid.now.chunk coord.now) region.now.lo) }
{
    let _shape = grid.shape();
    let first = first_in(grid, coord, region);
    place(&extents(region), &difference(&first, &region.lo))
}

/// Reads a region into its buffer, row-major and little-endian: each chunk that shares an element with it once, in row-major
/// order, and again where the store failed.
pub(crate) fn read_band<D: PutStore>(
    depot: &mut D,
    info: &ArrayInfo,
    region: &Region,
    retries: u32,
    out: &mut [u8],
    scratch: &mut [u8],
) -> Result<(), Unread>
    requires shown { IsStoredArray info.now }
    requires region { IsRegion info.now.layout.grid.shape region.now.lo region.now.hi }
    requires out_length { length out.old ≡ product (differences region.now.hi region.now.lo) * size_of info.now.layout.dtype }
    requires scratch_length { bytes_of info.now.layout ≤ length scratch.old }
    ensures all { OnOk result (HasFirst info.now region.now (D.shown depot.old) (product (differences region.now.hi region.now.lo)) out.new) }
    ensures front { IfErr result (λ unread. HasFirst info.now region.now (D.shown depot.old) unread.ready out.new) }
    ensures unread { IfErr result (IsBandUnread (retries + 1) (D.shown depot.old) (D.shown depot.new) info.now region.now) }
    ensures step { Stepped NoChange (D.shown depot.old) (D.shown depot.new) }
    ensures calls { WithinCalls (chunks_met info.now.layout.grid region.now.lo region.now.hi * (retries + 1)) (D.shown depot.old) (D.shown depot.new) }
    ensures once { OnceEach (chunks_met info.now.layout.grid region.now.lo region.now.hi) (D.shown depot.old) (D.shown depot.new) }
{
    let grid = &info.layout.grid;
    for coord in grid.cover(region) {
        match read_part(depot, info, &coord, region, retries, out, scratch) {
            Ok(()) => {}
            Err(status) => {
                return Err(Unread {
                    ready: ready_before(grid, &coord, region),
                    status,
                });
            }
        }
    }
    Ok(())
}
