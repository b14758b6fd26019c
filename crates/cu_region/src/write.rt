//! Regions that are written.
ghost use Rattle.std.specs.Prelude.{◌≡◌, ℕ, ◌*◌, ◌<◌, ◌≤◌, List, Some, All, IsTrue, length, IfErr, OnOk};
ghost use Rattle.cu_num.specs.Dtype.{size_of, InRange};
ghost use Rattle.cu_shape.specs.Index.{product, differences};
ghost use Rattle.cu_grid.specs.Counts.{IsRegion};
ghost use Rattle.cu_grid.specs.Cover.{Meets};
ghost use Rattle.cu_store.specs.Held.{Holds};
ghost use Rattle.cu_store.specs.Chunks.{Adds, Keeps, Allows, StaysOpen};
ghost use Rattle.cu_store.specs.Steps.{PutOf, Steps};
ghost use Rattle.cu_region.specs.Calls.{chunks_met, region_tally, Made};
ghost use Rattle.cu_region.specs.Reading.{bytes_of, IsChunkKey};
ghost use Rattle.cu_region.specs.RegionPart.{IsRegionPart, key_of_part, bytes_of_chunk, IsAllOfChunk, HasWholeParts, value_of_part, StoresPart, PutOfRegion};
ghost use Rattle.cu_region.specs.Writing.{AreElements, HasWholeChunks, RegionPut, LateIsOwn, StoresRegion, IsWriteFault};

use crate::part::RegionPart;
use cu_codec::{chunk_bytes, chunk_key, is_one_chunk, lay_part, reorder};
use cu_grid::Region;
use cu_num::{Endian, size};
use cu_op::ArrayInfo;
use cu_store::{Chunks, DepotFault, Key, TaskFault};

/// Writes a region of a stored array, in either byte order, from a buffer, row-major and little-endian. Each chunk that
/// shares an element with the region lies whole in it, and is stored once, through `scratch`, which has at least the bytes
/// of a chunk, but a region that is one whole chunk, stored little-endian, is put straight from its buffer. Past the array's
/// edge a chunk has the fill value.
pub fn write_region_of<C: Chunks>(
    store: &C::Store,
    access: &mut C::Access,
    info: &ArrayInfo,
    region: &Region,
    input: &[u8],
    scratch: &mut [u8],
) -> Result<(), TaskFault>
    requires short { length info.now.prefix ≤ 45 }
    requires fill { InRange info.now.layout.dtype info.now.layout.fill }
    requires region { IsRegion info.now.layout.grid.shape region.now.lo region.now.hi }
    requires belongs { C.belongs store.now access.old }
    requires may { Allows (RegionPut info.now region.now.lo region.now.hi input.now) (C.may_put store.now) }
    requires whole { HasWholeChunks info.now.layout.grid region.now.lo region.now.hi }
    requires coordinates { (coord : List ℕ) → Meets info.now.layout.grid region.now.lo region.now.hi coord → All (λ i. i < 1048576) coord }
    requires input_length { length input.now ≡ product (differences region.now.hi region.now.lo) * size_of info.now.layout.dtype }
    requires elements { AreElements info.now.layout.dtype input.now }
    requires scratch_length { bytes_of info.now.layout ≤ length scratch.old }
    ensures got { OnOk result (Keeps (IsChunkKey info.now region.now.lo region.now.hi) (C.may_get store.now access.new)) }
    ensures stored { LateIsOwn info.now region.now.lo region.now.hi input.now (C.shown access.old).late
        → OnOk result (StoresRegion info.now region.now.lo region.now.hi input.now (C.shown access.new).held) }
    ensures open { StaysOpen (C.belongs store.now access.new) (C.may_get store.now access.old) (C.may_get store.now access.new) }
    ensures step { Steps (RegionPut info.now region.now.lo region.now.hi input.now) 0 (chunks_met info.now.layout.grid region.now.lo region.now.hi)
        (C.shown access.old) (C.shown access.new) }
    ensures cause { IfErr result (IsWriteFault (C.shown access.old).faults (C.shown access.new).faults (C.shown access.new).lacks) }
    ensures calls_all { OnOk result (Made (chunks_met info.now.layout.grid region.now.lo region.now.hi) (C.shown access.old).calls (C.shown access.new).calls) }
    ensures called { OnOk result (Adds (region_tally (C.weight store.now) info.now region.now.lo region.now.hi)
        (C.tally access.old) (C.tally access.new)) }
{
    for coord in info.layout.grid.cover(region) {
        let part = RegionPart {
            info,
            region,
            coord,
        };
        write_part::<C>(store, access, &part, input, scratch)?;
    }
    Ok(())
}

/// Stores the chunk of a part, from the region's buffer.
fn write_part<C: Chunks>(
    store: &C::Store,
    access: &mut C::Access,
    part: &RegionPart<'_>,
    input: &[u8],
    scratch: &mut [u8],
) -> Result<(), TaskFault>
    requires belongs { C.belongs store.now access.old }
    requires part { IsRegionPart part.now }
    requires whole { HasWholeParts part.now input.now }
    requires may { (bytes : List ℕ) → value_of_part part.now input.now ≡ Some bytes
        → C.may_put store.now (key_of_part part.now) bytes }
    requires scratch_length { bytes_of_chunk part.now ≤ length scratch.old }
    ensures got { OnOk result (C.may_get store.now access.new (key_of_part part.now)) }
    ensures stored { OnOk result (StoresPart part.now input.now (C.shown access.new).held) }
    ensures open { StaysOpen (C.belongs store.now access.new) (C.may_get store.now access.old) (C.may_get store.now access.new) }
    ensures step { Steps (PutOfRegion part.now input.now) 1 1 (C.shown access.old)
        (C.shown access.new) }
    ensures called { Adds (C.weight store.now (key_of_part part.now)) (C.tally access.old) (C.tally access.new) }
    ensures cause { IfErr result (IsWriteFault (C.shown access.old).faults (C.shown access.new).faults (C.shown access.new).lacks) }
{
    let key = chunk_key(&part.info.prefix, part.info.layout.encoding, &part.coord);
    if lies_stored(part) {
        return put_chunk::<C>(store, access, &key, input);
    }
    let chunk = &mut scratch[..chunk_bytes(&part.info.layout.grid, part.info.layout.dtype)];
    spell_chunk(part, input, chunk);
    put_chunk::<C>(store, access, &key, chunk)
}

/// Whether the region's buffer has the bytes of the chunk as they are stored: it is the whole chunk, stored little-endian.
fn lies_stored(part: &RegionPart<'_>) -> bool
    requires { IsRegionPart part.now }
    ensures one { IsTrue result → IsAllOfChunk part.now }
    ensures little { IsTrue result → part.now.info.now.layout.endian ≡ Endian.Little }
{
    match part.info.layout.endian {
        Endian::Little => is_one_chunk(&part.info.layout.grid, &part.coord, part.region),
        Endian::Big => false,
    }
}

/// Stores the bytes of a chunk.
fn put_chunk<C: Chunks>(
    store: &C::Store,
    access: &mut C::Access,
    key: &Key,
    bytes: &[u8],
) -> Result<(), TaskFault>
    requires belongs { C.belongs store.now access.old }
    requires may { C.may_put store.now key.now bytes.now }
    ensures got { OnOk result (C.may_get store.now access.new key.now) }
    ensures stored { OnOk result (Holds (C.shown access.new).held key.now bytes.now) }
    ensures open { StaysOpen (C.belongs store.now access.new) (C.may_get store.now access.old) (C.may_get store.now access.new) }
    ensures step { Steps (PutOf key.now bytes.now) 1 1 (C.shown access.old) (C.shown access.new) }
    ensures called { Adds (C.weight store.now key.now) (C.tally access.old) (C.tally access.new) }
    ensures cause { IfErr result (IsWriteFault (C.shown access.old).faults (C.shown access.new).faults (C.shown access.new).lacks) }
{
    match C::put(store, access, key, bytes) {
        Ok(()) => Ok(()),
        Err(DepotFault::Failed) => Err(TaskFault::Store),
        Err(DepotFault::NoMemory) => Err(TaskFault::NoMemory),
    }
}

/// Writes the bytes of the chunk of a part as they are stored, from the region's buffer.
fn spell_chunk(part: &RegionPart<'_>, input: &[u8], chunk: &mut [u8])
    requires part { IsRegionPart part.now }
    requires whole { HasWholeParts part.now input.now }
    requires chunk_length { length chunk.old ≡ bytes_of_chunk part.now }
    ensures { value_of_part part.now input.now ≡ Some chunk.new }
{
    let layout = &part.info.layout;
    lay_part(
        &layout.grid,
        layout.dtype,
        layout.fill,
        &part.coord,
        part.region,
        input,
        chunk,
    );
    reorder(layout.endian, u64::from(size(layout.dtype)), chunk);
}
