//! Arrays that are read chunk by chunk, each chunk once.
ghost use Rattle.std.specs.Prelude.{◌≡◌, ◌+◌, ◌*◌, ◌<◌, length, IfErr, OnOk};
ghost use Rattle.cu_num.specs.Dtype.{size_of};
ghost use Rattle.cu_shape.specs.Index.{product};
ghost use Rattle.cu_grid.specs.Counts.{counts_of};
ghost use Rattle.cu_grid.specs.Grid.{IsCoordinate, coordinate_of};
ghost use Rattle.cu_region.specs.Reading.{bytes_of, key_at};
ghost use Rattle.cu_store.specs.Steps.{Shown, NoChange, OnceEach};
ghost use Rattle.cu_command.specs.Chunks.{IsStoredArray, IsChunkFault};
ghost use Rattle.cu_command.specs.Seen.{Stepped, WithinCalls};
ghost use Rattle.cu_check.specs.Arrays.{input_chunk_count};
ghost use Rattle.cu_check.specs.Chunks.{input_of, IsPlaced, HasChunksBelow, HasAllSteady, AtEachEntry, IsArrayFault};

use cu_codec::take_part;
use cu_command::{Status, read_stored_chunk};
use cu_grid::Region;
use cu_num::{Endian, size};
use cu_op::{ArrayInfo, Layout};
use cu_shape::{Dims, difference};
use cu_store::PutStore;

/// Copies the elements of a chunk to their places among the bytes of the whole array.
fn place_chunk(layout: &Layout, coord: &Dims, chunk: &[u8], all: &mut [u8])
    requires coordinate { IsCoordinate layout.now.grid coord.now }
    requires chunk_length { length chunk.now ≡ bytes_of layout.now }
    requires all_length { length all.old ≡ product layout.now.grid.shape * size_of layout.now.dtype }
    ensures { IsPlaced layout.now coord.now chunk.now all.old all.new }
{
    let shape = layout.grid.shape();
    let region = Region {
        lo: difference(shape, shape),
        hi: *shape,
    };
    take_part(
        &layout.grid,
        u64::from(size(layout.dtype)),
        Endian::Little,
        coord,
        chunk,
        &region,
        all,
    );
}

/// Reads chunk number `number`, row-major, and copies its elements to their places.
fn read_numbered<D: PutStore>(
    depot: &mut D,
    info: &ArrayInfo,
    number: u64,
    retries: u32,
    chunk: &mut [u8],
    all: &mut [u8],
) -> Result<(), Status>
    requires readable { IsStoredArray info.now }
    requires number { number < product (counts_of info.now.layout.grid.shape info.now.layout.grid.chunk) }
    requires chunk_length { length chunk.old ≡ bytes_of info.now.layout }
    requires all_length { length all.old ≡ product info.now.layout.grid.shape * size_of info.now.layout.dtype }
    ensures read { OnOk result ((entry : Shown) → Stepped NoChange entry (D.shown depot.old) → HasChunksBelow (input_of info.now) all.old number entry
        → HasChunksBelow (input_of info.now) all.new (number + 1) entry) }
    ensures step { Stepped NoChange (D.shown depot.old) (D.shown depot.new) }
    ensures cause { IfErr result (IsChunkFault (retries + 1) (D.shown depot.old) (D.shown depot.new) info.now.layout (λ key. key ≡ key_at info.now (coordinate_of info.now.layout.grid number))) }
    ensures calls { WithinCalls (retries + 1) (D.shown depot.old) (D.shown depot.new) }
    ensures once { OnceEach 1 (D.shown depot.old) (D.shown depot.new) }
{
    let coord = info.layout.grid.coordinate(number);
    match read_stored_chunk(depot, info, &coord, retries, chunk) {
        Ok(()) => {
            place_chunk(&info.layout, &coord, chunk, all);
            Ok(())
        }
        Err(status) => Err(status),
    }
}

/// Reads all chunks of a stored array in row-major order, each with at most `retries + 1` calls, into the bytes of all its elements,
/// row-major and little-endian. An absent chunk reads as the fill value. `chunk` has the bytes of a chunk.
pub(crate) fn read_chunks<D: PutStore>(
    depot: &mut D,
    info: &ArrayInfo,
    retries: u32,
    chunk: &mut [u8],
    all: &mut [u8],
) -> Result<(), Status>
    requires readable { IsStoredArray info.now }
    requires chunk_length { length chunk.old ≡ bytes_of info.now.layout }
    requires all_length { length all.old ≡ product info.now.layout.grid.shape * size_of info.now.layout.dtype }
    ensures read { OnOk result (AtEachEntry (D.shown depot.old) (HasAllSteady (input_of info.now) all.new)) }
    ensures step { Stepped NoChange (D.shown depot.old) (D.shown depot.new) }
    ensures cause { IfErr result (IsArrayFault (retries + 1) (D.shown depot.old) (D.shown depot.new) (input_of info.now)) }
    ensures calls { WithinCalls (input_chunk_count (input_of info.now) * (retries + 1)) (D.shown depot.old) (D.shown depot.new) }
    ensures once { OnceEach (input_chunk_count (input_of info.now)) (D.shown depot.old) (D.shown depot.new) }
{
    for number in 0..info.layout.grid.count() {
        match read_numbered(depot, info, number, retries, chunk, all) {
            Ok(()) => {}
            Err(status) => return Err(status),
        }
    }
    Ok(())
}
