//! Regions of arrays whose chunks lie in a yard.
ghost use Rattle.std.specs.Prelude.{◌≡◌, ℕ, ◌*◌, ◌<◌, ◌≤◌, IsTrue, List, All, length, IfErr, OnOk};
ghost use Rattle.cu_num.specs.Dtype.{size_of, InRange};
ghost use Rattle.cu_shape.specs.Index.{product, differences};
ghost use Rattle.cu_grid.specs.Counts.{IsRegion};
ghost use Rattle.cu_grid.specs.Cover.{Meets};
ghost use Rattle.cu_store.specs.Steps.{NoChange, Steps};
ghost use Rattle.cu_store.specs.Yard.{shown_by, MayGet, MayPut};
ghost use Rattle.cu_store.specs.Chunks.{Adds, Keeps, Allows};
ghost use Rattle.cu_region.specs.Calls.{chunks_met, region_tally, Made};
ghost use Rattle.cu_region.specs.Passes.{IsLaterIn};
ghost use Rattle.cu_region.specs.Reading.{IsChunkKey, bytes_of, ReadsRegion, IsChunkReadFault};
ghost use Rattle.cu_region.specs.Writing.{AreElements, HasWholeChunks, RegionPut, StoresRegion, IsWriteFault};

use crate::read::read_region_of;
use crate::write::write_region_of;
use cu_grid::Region;
use cu_op::ArrayInfo;
use cu_store::{InYard, TaskFault, Yard};

/// Reads a region of an array whose chunks lie in a yard, into a buffer, row-major and little-endian. Each chunk that shares an
/// element with the region is served by the yard, and was seen by the pass where it is a made one; `scratch` has at least the
/// bytes of a chunk. It reads these chunks as `read_region_of` does, and what it reads is what the pass shows of them.
///
/// `Store`: a call of the yard failed. `BadChunk`: one of these chunks has another number of bytes than a chunk of the array.
/// `NoMemory`: the yard lacked memory.
pub fn read_region<Y: Yard>(
    yard: &Y,
    pass: &mut Y::Pass,
    info: &ArrayInfo,
    region: &Region,
    out: &mut [u8],
    scratch: &mut [u8],
) -> Result<(), TaskFault>
    requires own { Y.owns yard.now pass.old }
    requires may { Keeps (IsChunkKey info.now region.now.lo region.now.hi) (MayGet (Y.serves yard.now).specs (Y.knows pass.old).seen) }
    requires short { length info.now.prefix ≤ 45 }
    requires fill { InRange info.now.layout.dtype info.now.layout.fill }
    requires region { IsRegion info.now.layout.grid.shape region.now.lo region.now.hi }
    requires coordinates { (coord : List ℕ) → Meets info.now.layout.grid region.now.lo region.now.hi coord → All (λ i. i < 1048576) coord }
    requires out_length { length out.old ≡ product (differences region.now.hi region.now.lo) * size_of info.now.layout.dtype }
    requires scratch_length { bytes_of info.now.layout ≤ length scratch.old }
    ensures own { Y.owns yard.now pass.new }
    ensures later { IsLaterIn (Y.serves yard.now).specs (Y.knows pass.old) (Y.knows pass.new) }
    ensures elements { OnOk result (AreElements info.now.layout.dtype out.new) }
    ensures read { OnOk result (ReadsRegion info.now region.now.lo region.now.hi (shown_by (Y.knows pass.new)).held out.new) }
    ensures step { Steps NoChange 0 (chunks_met info.now.layout.grid region.now.lo region.now.hi) (shown_by (Y.knows pass.old)) (shown_by (Y.knows pass.new)) }
    ensures cause { IfErr result (IsChunkReadFault (shown_by (Y.knows pass.old)) (shown_by (Y.knows pass.new))
        (IsChunkKey info.now region.now.lo region.now.hi) (bytes_of info.now.layout)) }
    ensures calls_all { OnOk result (Made (chunks_met info.now.layout.grid region.now.lo region.now.hi) (Y.knows pass.old).calls (Y.knows pass.new).calls) }
    ensures called { OnOk result (Adds (region_tally (Y.weight yard.now) info.now region.now.lo region.now.hi)
        (Y.tally pass.old) (Y.tally pass.new)) }
{
    read_region_of::<InYard<Y>>(yard, pass, info, region, out, scratch)
}

/// Writes a region of an array whose chunks lie in a yard, from a buffer, row-major and little-endian. Each chunk that shares an
/// element with the region lies whole in it and has a made key, whose promise, where the yard tells it, is the chunk's bytes;
/// `scratch` has at least the bytes of a chunk. After Ok the pass has seen each of these chunks.
///
/// `Store`: a call of the yard failed. `NoMemory`: the yard lacked memory.
pub fn write_region<Y: Yard>(
    yard: &Y,
    pass: &mut Y::Pass,
    info: &ArrayInfo,
    region: &Region,
    input: &[u8],
    scratch: &mut [u8],
) -> Result<(), TaskFault>
    requires own { Y.owns yard.now pass.old }
    requires may { Allows (RegionPut info.now region.now.lo region.now.hi input.now) (MayPut (Y.serves yard.now)) }
    requires short { length info.now.prefix ≤ 45 }
    requires fill { InRange info.now.layout.dtype info.now.layout.fill }
    requires region { IsRegion info.now.layout.grid.shape region.now.lo region.now.hi }
    requires whole { HasWholeChunks info.now.layout.grid region.now.lo region.now.hi }
    requires coordinates { (coord : List ℕ) → Meets info.now.layout.grid region.now.lo region.now.hi coord → All (λ i. i < 1048576) coord }
    requires input_length { length input.now ≡ product (differences region.now.hi region.now.lo) * size_of info.now.layout.dtype }
    requires elements { AreElements info.now.layout.dtype input.now }
    requires scratch_length { bytes_of info.now.layout ≤ length scratch.old }
    ensures own { Y.owns yard.now pass.new }
    ensures later { IsLaterIn (Y.serves yard.now).specs (Y.knows pass.old) (Y.knows pass.new) }
    ensures seen { OnOk result (Keeps (IsChunkKey info.now region.now.lo region.now.hi) (λ key. IsTrue ((Y.knows pass.new).seen key))) }
    ensures stored { OnOk result (StoresRegion info.now region.now.lo region.now.hi input.now (shown_by (Y.knows pass.new)).held) }
    ensures step { Steps (RegionPut info.now region.now.lo region.now.hi input.now) 0 (chunks_met info.now.layout.grid region.now.lo region.now.hi)
        (shown_by (Y.knows pass.old)) (shown_by (Y.knows pass.new)) }
    ensures cause { IfErr result (IsWriteFault (Y.knows pass.old).faults (Y.knows pass.new).faults (Y.knows pass.new).lacks) }
    ensures calls_all { OnOk result (Made (chunks_met info.now.layout.grid region.now.lo region.now.hi) (Y.knows pass.old).calls (Y.knows pass.new).calls) }
    ensures called { OnOk result (Adds (region_tally (Y.weight yard.now) info.now region.now.lo region.now.hi)
        (Y.tally pass.old) (Y.tally pass.new)) }
{
    write_region_of::<InYard<Y>>(yard, pass, info, region, input, scratch)
}
