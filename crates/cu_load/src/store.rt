//! The chunks and the metadata of an array that is loaded, stored.
ghost use Rattle.std.specs.Prelude.{◌≡◌, ◌+◌, ◌*◌, ◌<◌, length, IfErr, OnOk};
ghost use Rattle.cu_store.specs.Held.{Holds};
ghost use Rattle.cu_store.specs.Steps.{Steps, OnceEach};
ghost use Rattle.cu_command.specs.Seen.{Stepped, WithinCalls};
ghost use Rattle.cu_command.specs.Keys.{IsKeyFault, IsValueUnput};
ghost use Rattle.cu_zarr.specs.Key.{metadata_key_of};
ghost use Rattle.cu_zarr.specs.Layout.{stored_chunk_bytes};
ghost use Rattle.cu_zarr.specs.Metadata.{metadata_text};
ghost use Rattle.cu_load.specs.Load.{ArrayPut, ChunkPut, ChunksPut, HasBytes, IsArrayCalm, IsStoreFault, HoldsChunk, HoldsChunks, StoresGiven, chunks_in, key_of_chunk};
ghost use Rattle.cu_load.specs.LoadForm.{IsGivenArray, given_by};

use crate::chunk::spell_chunk;
use crate::load_form::LoadForm;
use cu_codec::{chunk_key, metadata_key};
use cu_command::{Status, put_value};
use cu_name::key_of_name;
use cu_shape::index_of;
use cu_store::PutStore;

/// Stores chunk `number` of the array, chunks counted row-major. `input` has the bytes of the array's elements, and
/// `chunk` is a buffer of the length of a chunk.
fn store_chunk<D: PutStore>(
    depot: &mut D,
    form: &LoadForm,
    number: u64,
    input: &[u8],
    chunk: &mut [u8],
    retries: u32,
) -> Result<(), Status>
    requires given { IsGivenArray (given_by form.now) }
    requires number { number < chunks_in (given_by form.now) }
    requires input { HasBytes form.now.layout.dtype form.now.elements.items input.now }
    requires chunk_length { length chunk.old ≡ stored_chunk_bytes (given_by form.now).layout }
    ensures stored { OnOk result (HoldsChunk (given_by form.now) (D.shown depot.new).held number) }
    ensures step { Steps (ChunkPut (given_by form.now) number) 1 (retries + 1) (D.shown depot.old) (D.shown depot.new) }
    ensures once { OnceEach 1 (D.shown depot.old) (D.shown depot.new) }
    ensures cause { IfErr result (IsKeyFault (retries + 1) (D.shown depot.old).faults (D.shown depot.new).faults (D.shown depot.new).lacks (key_of_chunk (given_by form.now) number)) }
    ensures unput { IfErr result (IsValueUnput (D.shown depot.old) (D.shown depot.new)) }
{
    let layout = &form.layout;
    let coord = index_of(&layout.grid.counts(), number);
    let name = key_of_name(&form.name);
    let key = chunk_key(&name, layout.encoding, &coord);
    spell_chunk(form, &coord, input, chunk);
    put_value(depot, &key, chunk, retries)
}

/// Stores the chunks of the array, in order.
fn store_chunks<D: PutStore>(
    depot: &mut D,
    form: &LoadForm,
    input: &[u8],
    chunk: &mut [u8],
    retries: u32,
) -> Result<(), Status>
    requires given { IsGivenArray (given_by form.now) }
    requires input { HasBytes form.now.layout.dtype form.now.elements.items input.now }
    requires chunk_length { length chunk.old ≡ stored_chunk_bytes (given_by form.now).layout }
    ensures step { OnOk result (Stepped (ChunksPut (given_by form.now) (chunks_in (given_by form.now))) (D.shown depot.old) (D.shown depot.new)) }
    ensures failed { IfErr result (IsStoreFault (retries + 1) (given_by form.now) (D.shown depot.old) (D.shown depot.new)) }
    ensures stored { IsArrayCalm (given_by form.now) (D.shown depot.old).late → OnOk result (HoldsChunks (given_by form.now) (D.shown depot.new).held (chunks_in (given_by form.now))) }
    ensures calls { WithinCalls (chunks_in (given_by form.now) * (retries + 1)) (D.shown depot.old) (D.shown depot.new) }
    ensures once { OnceEach (chunks_in (given_by form.now)) (D.shown depot.old) (D.shown depot.new) }
{
    for number in 0..form.layout.grid.count() {
        if let Err(status) = store_chunk(depot, form, number, input, chunk, retries) {
            return Err(status);
        }
    }
    Ok(())
}

/// Stores the array: its chunks in order, and then its metadata, which is given as its text. A call of the depot that fails is tried
/// again, up to `retries` times. Where all calls for a key failed, the answer names it, and only the chunks up to that one were stored.
pub fn store_array<D: PutStore>(
    depot: &mut D,
    form: &LoadForm,
    input: &[u8],
    metadata: &[u8],
    chunk: &mut [u8],
    retries: u32,
) -> Result<(), Status>
    requires given { IsGivenArray (given_by form.now) }
    requires input { HasBytes form.now.layout.dtype form.now.elements.items input.now }
    requires metadata { metadata.now ≡ metadata_text (given_by form.now).layout }
    requires chunk_length { length chunk.old ≡ stored_chunk_bytes (given_by form.now).layout }
    ensures step { OnOk result (Stepped (ArrayPut (given_by form.now)) (D.shown depot.old) (D.shown depot.new)) }
    ensures failed { IfErr result (IsStoreFault (retries + 1) (given_by form.now) (D.shown depot.old) (D.shown depot.new)) }
    ensures stores { IsArrayCalm (given_by form.now) (D.shown depot.old).late → OnOk result (StoresGiven (given_by form.now) (D.shown depot.new).held) }
    ensures metadata { OnOk result (Holds (D.shown depot.new).held (metadata_key_of (given_by form.now).name) (metadata_text (given_by form.now).layout)) }
    ensures calls { WithinCalls ((chunks_in (given_by form.now) + 1) * (retries + 1)) (D.shown depot.old) (D.shown depot.new) }
    ensures once { OnceEach (chunks_in (given_by form.now) + 1) (D.shown depot.old) (D.shown depot.new) }
{
    let _shape = form.layout.grid.shape();
    if let Err(status) = store_chunks(depot, form, input, chunk, retries) {
        return Err(status);
    }
    let name = key_of_name(&form.name);
    let key = metadata_key(&name);
    put_value(depot, &key, metadata, retries)
}
