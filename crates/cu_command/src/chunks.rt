//! A chunk of a stored array, read again where the store failed.
ghost use Rattle.std.specs.Prelude.{◌≡◌, ◌+◌, ◌<◌, length, All, IfErr, OnOk};
ghost use Rattle.cu_region.specs.Reading.{bytes_of, key_at};
ghost use Rattle.cu_store.specs.Steps.{NoChange, OnceEach};
ghost use Rattle.cu_command.specs.Chunks.{IsStoredArray, HasHeldChunk, IsChunkFault, read_end};
ghost use Rattle.cu_command.specs.Seen.{Stepped, WithinCalls};

use crate::Status;
use cu_codec::chunk_key;
use cu_op::ArrayInfo;
use cu_region::read_chunk;
use cu_shape::Dims;
use cu_store::{InDepot, Key, PutStore, TaskFault};

/// Reads a chunk once.
fn read_once<D: PutStore>(
    depot: &mut D,
    info: &ArrayInfo,
    coord: &Dims,
    chunk: &mut [u8],
) -> Result<(), Status>
    requires readable { IsStoredArray info.now }
    requires coordinate { All (λ i. i < 1048576) coord.now }
    requires length { length chunk.old ≡ bytes_of info.now.layout }
    ensures read { OnOk result (HasHeldChunk info.now coord.now (D.shown depot.old) chunk.new) }
    ensures step { Stepped NoChange (D.shown depot.old) (D.shown depot.new) }
    ensures cause { IfErr result (IsChunkFault 1 (D.shown depot.old) (D.shown depot.new) info.now.layout (λ key. key ≡ key_at info.now coord.now)) }
    ensures calls { WithinCalls 1 (D.shown depot.old) (D.shown depot.new) }
    ensures once { OnceEach 1 (D.shown depot.old) (D.shown depot.new) }
{
    match read_chunk::<InDepot<D>>(&(), depot, info, coord, chunk) {
        Ok(()) => Ok(()),
        Err(fault) => {
            let key = chunk_key(&info.prefix, info.layout.encoding, coord);
            Err(read_end(&fault, &key))
        }
    }
}

/// What is answered where reading the chunk under this key ends so.
fn read_end(fault: &TaskFault, key: &Key) -> Status
    ensures { result ≡ read_end key.now fault.now }
{
    match fault {
        TaskFault::Store => Status::DepotFailed { key: *key },
        TaskFault::BadChunk { key, got, want } => Status::BadChunk {
            key: *key,
            got: *got,
            want: *want,
        },
        TaskFault::NoMemory => Status::NoMemory,
    }
}

/// Reads the chunk at this coordinate, row-major and little-endian, with at most `retries + 1` calls of the depot. `chunk` has the
/// bytes of a chunk. An absent chunk reads as the fill value.
pub fn read_stored_chunk<D: PutStore>(
    depot: &mut D,
    info: &ArrayInfo,
    coord: &Dims,
    retries: u32,
    chunk: &mut [u8],
) -> Result<(), Status>
    requires readable { IsStoredArray info.now }
    requires coordinate { All (λ i. i < 1048576) coord.now }
    requires length { length chunk.old ≡ bytes_of info.now.layout }
    ensures read { OnOk result (HasHeldChunk info.now coord.now (D.shown depot.old) chunk.new) }
    ensures step { Stepped NoChange (D.shown depot.old) (D.shown depot.new) }
    ensures cause { IfErr result (IsChunkFault (retries + 1) (D.shown depot.old) (D.shown depot.new) info.now.layout (λ key. key ≡ key_at info.now coord.now)) }
    ensures calls { WithinCalls (retries + 1) (D.shown depot.old) (D.shown depot.new) }
    ensures once { OnceEach 1 (D.shown depot.old) (D.shown depot.new) }
{
    for _ in 0..retries {
        match read_once(depot, info, coord, chunk) {
            Err(Status::DepotFailed { .. }) => {}
            ended => return ended,
        }
    }
    read_once(depot, info, coord, chunk)
}
