//! Regions that are read.
ghost use Rattle.std.specs.Prelude.{◌≡◌, ℕ, ◌*◌, ◌%◌, ◌<◌, ◌≤◌, List, All, length, IfOk, IfErr, OnOk};
ghost use Rattle.cu_num.specs.Dtype.{size_of, InRange};
ghost use Rattle.cu_shape.specs.Index.{product, differences};
ghost use Rattle.cu_grid.specs.Counts.{IsRegion};
ghost use Rattle.cu_grid.specs.Cover.{Meets};
ghost use Rattle.cu_store.specs.Chunks.{Adds, Keeps, StaysOpen};
ghost use Rattle.cu_store.specs.Steps.{NoChange, Steps};
ghost use Rattle.cu_region.specs.Reading.{key_at, IsChunkKey, bytes_of, Fetches, ReadsFront, HasChunk, HasFront, ReadsRegion, IsChunkReadFault};
ghost use Rattle.cu_region.specs.RegionPart.{IsRegionPart, key_of_part, bytes_of_chunk, bytes_of_region, ReadsRegionPart};
ghost use Rattle.cu_region.specs.Calls.{chunks_met, region_tally, Made};
ghost use Rattle.cu_region.specs.Steady.{IsSteady, HoldSame};
ghost use Rattle.cu_region.specs.Writing.{AreElements};

use crate::part::RegionPart;
use crate::settle::settle;
use cu_codec::{chunk_bytes, chunk_key, fill_with, is_one_chunk, reorder, take_part};
use cu_grid::Region;
use cu_num::{Endian, size};
use cu_op::{ArrayInfo, Layout};
use cu_shape::Dims;
use cu_store::{Chunks, DepotFault, Got, Key, TaskFault};

/// Reads a region of a stored array, in either byte order, into a buffer, row-major and little-endian. Each chunk that
/// shares an element with the region is read once, through `scratch`, which has at least the bytes of a chunk, but a region
/// that is one whole chunk is read straight into its buffer. An absent chunk reads as the fill value, and a stored truth byte
/// other than 0 and 1 as 1: what was read are elements, which can be written again.
pub fn read_region_of<C: Chunks>(
    store: &C::Store,
    access: &mut C::Access,
    info: &ArrayInfo,
    region: &Region,
    out: &mut [u8],
    scratch: &mut [u8],
) -> Result<(), TaskFault>
    requires belongs { C.belongs store.now access.old }
    requires may { Keeps (IsChunkKey info.now region.now.lo region.now.hi) (C.may_get store.now access.old) }
    requires short { length info.now.prefix ≤ 45 }
    requires fill { InRange info.now.layout.dtype info.now.layout.fill }
    requires region { IsRegion info.now.layout.grid.shape region.now.lo region.now.hi }
    requires coordinates { (coord : List ℕ) → Meets info.now.layout.grid region.now.lo region.now.hi coord → All (λ i. i < 1048576) coord }
    requires out_length { length out.old ≡ product (differences region.now.hi region.now.lo) * size_of info.now.layout.dtype }
    requires scratch_length { bytes_of info.now.layout ≤ length scratch.old }
    ensures elements { OnOk result (AreElements info.now.layout.dtype out.new) }
    ensures read { IsSteady (IsChunkKey info.now region.now.lo region.now.hi) (C.shown access.old).held (C.shown access.old).late
        → OnOk result (ReadsRegion info.now region.now.lo region.now.hi (C.shown access.new).held out.new) }
    ensures same { IsSteady (IsChunkKey info.now region.now.lo region.now.hi) (C.shown access.old).held (C.shown access.old).late
        → HoldSame (IsChunkKey info.now region.now.lo region.now.hi) (C.shown access.old).held (C.shown access.new).held }
    ensures steady { IsSteady (IsChunkKey info.now region.now.lo region.now.hi) (C.shown access.old).held (C.shown access.old).late
        → IsSteady (IsChunkKey info.now region.now.lo region.now.hi) (C.shown access.new).held (C.shown access.new).late }
    ensures open { StaysOpen (C.belongs store.now access.new) (C.may_get store.now access.old) (C.may_get store.now access.new) }
    ensures step { Steps NoChange 0 (chunks_met info.now.layout.grid region.now.lo region.now.hi) (C.shown access.old) (C.shown access.new) }
    ensures cause { IfErr result (IsChunkReadFault (C.shown access.old) (C.shown access.new)
        (IsChunkKey info.now region.now.lo region.now.hi) (bytes_of info.now.layout)) }
    ensures calls_all { OnOk result (Made (chunks_met info.now.layout.grid region.now.lo region.now.hi) (C.shown access.old).calls (C.shown access.new).calls) }
    ensures called { OnOk result (Adds (region_tally (C.weight store.now) info.now region.now.lo region.now.hi)
        (C.tally access.old) (C.tally access.new)) }
{
    for coord in info.layout.grid.cover(region) {
        let part = RegionPart {
            info,
            region,
            coord,
        };
        read_part::<C>(store, access, &part, out, scratch)?;
    }
    settle(info.layout.dtype, out);
    Ok(())
}

/// Reads the chunk at this coordinate of a stored array, in either byte order, into a buffer of a chunk's bytes, row-major and
/// little-endian. An absent chunk reads as the fill value. It makes one call of the store.
pub fn read_chunk<C: Chunks>(
    store: &C::Store,
    access: &mut C::Access,
    info: &ArrayInfo,
    coord: &Dims,
    buf: &mut [u8],
) -> Result<(), TaskFault>
    requires belongs { C.belongs store.now access.old }
    requires may { C.may_get store.now access.old (key_at info.now coord.now) }
    requires short { length info.now.prefix ≤ 45 }
    requires fill { InRange info.now.layout.dtype info.now.layout.fill }
    requires small { All (λ i. i < 1048576) coord.now }
    requires length { length buf.old ≡ bytes_of info.now.layout }
    ensures read { OnOk result (HasChunk info.now coord.now (C.shown access.new).held buf.new) }
    ensures elements { OnOk result (AreElements info.now.layout.dtype buf.new) }
    ensures open { StaysOpen (C.belongs store.now access.new) (C.may_get store.now access.old) (C.may_get store.now access.new) }
    ensures step { Steps NoChange 1 1 (C.shown access.old) (C.shown access.new) }
    ensures called { Adds (C.weight store.now (key_at info.now coord.now)) (C.tally access.old) (C.tally access.new) }
    ensures cause { IfErr result (IsChunkReadFault (C.shown access.old) (C.shown access.new)
        (λ key. key ≡ key_at info.now coord.now) (bytes_of info.now.layout)) }
{
    let _grid = info.layout.grid.shape();
    read_front::<C>(store, access, info, coord, buf)
}

/// Reads the front of the chunk at this coordinate of a stored array, in either byte order: its first elements, row-major and
/// little-endian, as many as the buffer has room for. So a caller that needs no element behind them moves no more bytes than
/// these. It answers as `read_chunk` does: of a chunk that is absent the front is of the fill value, and a value that hasn't
/// the bytes of a chunk is bad, however short the front is. It makes one call of the store.
pub fn read_front<C: Chunks>(
    store: &C::Store,
    access: &mut C::Access,
    info: &ArrayInfo,
    coord: &Dims,
    buf: &mut [u8],
) -> Result<(), TaskFault>
    requires belongs { C.belongs store.now access.old }
    requires may { C.may_get store.now access.old (key_at info.now coord.now) }
    requires short { length info.now.prefix ≤ 45 }
    requires fill { InRange info.now.layout.dtype info.now.layout.fill }
    requires small { All (λ i. i < 1048576) coord.now }
    requires within { length buf.old ≤ bytes_of info.now.layout }
    requires whole { length buf.old % size_of info.now.layout.dtype ≡ 0 }
    ensures read { OnOk result (HasFront info.now coord.now (C.shown access.new).held buf.new) }
    ensures elements { OnOk result (AreElements info.now.layout.dtype buf.new) }
    ensures open { StaysOpen (C.belongs store.now access.new) (C.may_get store.now access.old) (C.may_get store.now access.new) }
    ensures step { Steps NoChange 1 1 (C.shown access.old) (C.shown access.new) }
    ensures called { Adds (C.weight store.now (key_at info.now coord.now)) (C.tally access.old) (C.tally access.new) }
    ensures cause { IfErr result (IsChunkReadFault (C.shown access.old) (C.shown access.new)
        (λ key. key ≡ key_at info.now coord.now) (bytes_of info.now.layout)) }
{
    let _grid = info.layout.grid.shape();
    let key = chunk_key(&info.prefix, info.layout.encoding, coord);
    read_bytes::<C>(store, access, &key, &info.layout, buf)?;
    settle(info.layout.dtype, buf);
    Ok(())
}

/// Reads the elements of a part into the region's buffer.
fn read_part<C: Chunks>(
    store: &C::Store,
    access: &mut C::Access,
    part: &RegionPart<'_>,
    out: &mut [u8],
    scratch: &mut [u8],
) -> Result<(), TaskFault>
    requires belongs { C.belongs store.now access.old }
    requires part { IsRegionPart part.now }
    requires may { C.may_get store.now access.old (key_of_part part.now) }
    requires out_length { length out.old ≡ bytes_of_region part.now }
    requires scratch_length { bytes_of_chunk part.now ≤ length scratch.old }
    ensures part { OnOk result (ReadsRegionPart part.now (C.shown access.new).held out.old
        out.new) }
    ensures open { StaysOpen (C.belongs store.now access.new) (C.may_get store.now access.old) (C.may_get store.now access.new) }
    ensures step { Steps NoChange 1 1 (C.shown access.old) (C.shown access.new) }
    ensures called { Adds (C.weight store.now (key_of_part part.now)) (C.tally access.old) (C.tally access.new) }
    ensures cause { IfErr result (IsChunkReadFault (C.shown access.old) (C.shown access.new)
        (λ key. key ≡ key_of_part part.now) (bytes_of_chunk part.now)) }
{
    let layout = &part.info.layout;
    let key = chunk_key(&part.info.prefix, layout.encoding, &part.coord);
    if is_one_chunk(&layout.grid, &part.coord, part.region) {
        return read_bytes::<C>(store, access, &key, layout, out);
    }
    let chunk = &mut scratch[..chunk_bytes(&layout.grid, layout.dtype)];
    let order = fetch::<C>(store, access, &key, layout, chunk)?;
    take_part(
        &layout.grid,
        u64::from(size(layout.dtype)),
        order,
        &part.coord,
        chunk,
        part.region,
        out,
    );
    Ok(())
}

/// Reads the front of the chunk under this key, as many bytes as `buf` has, little-endian. An absent chunk reads as the fill
/// value.
fn read_bytes<C: Chunks>(
    store: &C::Store,
    access: &mut C::Access,
    key: &Key,
    layout: &Layout,
    buf: &mut [u8],
) -> Result<(), TaskFault>
    requires within { length buf.old ≤ bytes_of layout.now }
    requires whole { length buf.old % size_of layout.now.dtype ≡ 0 }
    requires belongs { C.belongs store.now access.old }
    requires may { C.may_get store.now access.old key.now }
    ensures read { OnOk result (ReadsFront layout.now (C.shown access.new).held key.now buf.new) }
    ensures open { StaysOpen (C.belongs store.now access.new) (C.may_get store.now access.old) (C.may_get store.now access.new) }
    ensures step { Steps NoChange 1 1 (C.shown access.old) (C.shown access.new) }
    ensures called { Adds (C.weight store.now key.now) (C.tally access.old) (C.tally access.new) }
    ensures cause { IfErr result (IsChunkReadFault (C.shown access.old) (C.shown access.new)
        (λ bad. bad ≡ key.now) (bytes_of layout.now)) }
{
    let order = fetch::<C>(store, access, key, layout, buf)?;
    reorder(order, u64::from(size(layout.dtype)), buf);
    Ok(())
}

/// Reads the front of the chunk under this key, as many bytes as `buf` has, and says in which order the bytes of its elements
/// are: as it is stored, or the fill value in little-endian order where the chunk is absent.
fn fetch<C: Chunks>(
    store: &C::Store,
    access: &mut C::Access,
    key: &Key,
    layout: &Layout,
    buf: &mut [u8],
) -> Result<Endian, TaskFault>
    requires within { length buf.old ≤ bytes_of layout.now }
    requires belongs { C.belongs store.now access.old }
    requires may { C.may_get store.now access.old key.now }
    ensures fetched { IfOk result (λ e. Fetches layout.now (C.shown access.new).held key.now e buf.new) }
    ensures open { StaysOpen (C.belongs store.now access.new) (C.may_get store.now access.old) (C.may_get store.now access.new) }
    ensures step { Steps NoChange 1 1 (C.shown access.old) (C.shown access.new) }
    ensures called { Adds (C.weight store.now key.now) (C.tally access.old) (C.tally access.new) }
    ensures cause { IfErr result (IsChunkReadFault (C.shown access.old) (C.shown access.new)
        (λ bad. bad ≡ key.now) (bytes_of layout.now)) }
{
    match C::get(store, access, key, buf) {
        Ok(Got::Absent) => {
            fill_with(layout.dtype, layout.fill, buf);
            Ok(Endian::Little)
        }
        Ok(Got::Held(got)) => {
            let want = chunk_bytes(&layout.grid, layout.dtype) as u64;
            if got == want {
                Ok(layout.endian)
            } else {
                Err(TaskFault::BadChunk {
                    key: *key,
                    got,
                    want,
                })
            }
        }
        Err(DepotFault::Failed) => Err(TaskFault::Store),
        Err(DepotFault::NoMemory) => Err(TaskFault::NoMemory),
    }
}
