//! The memory that storing an array takes, all of it taken before anything is stored.
ghost use Rattle.std.specs.Prelude.{◌≡◌, length, IfOk};
ghost use Rattle.cu_zarr.specs.Layout.{stored_chunk_bytes};
ghost use Rattle.cu_zarr.specs.Metadata.{metadata_text};
ghost use Rattle.cu_load.specs.Load.{HasBytes};
ghost use Rattle.cu_load.specs.LoadForm.{IsGivenArray, given_by};

use crate::chunk::element_bytes;
use crate::load_form::LoadForm;
use cu_command::zeros;
use cu_meta::write_meta;
use cu_num::size;
use cu_store::NoMemory;
use std::alloc::Global;

/// The bytes that storing an array takes.
#[derive(Drop)]
pub struct Room {
    /// Those of the elements.
    pub input: Vec<u8>,
    /// Those of the metadata.
    pub metadata: Vec<u8>,
    /// The room of a chunk.
    pub chunk: Vec<u8>,
}

/// The bytes of a chunk.
fn chunk_bytes(form: &LoadForm) -> usize
    requires { IsGivenArray (given_by form.now) }
    ensures { result ≡ stored_chunk_bytes (given_by form.now).layout }
{
    match form.layout.grid.chunk().elements() {
        Some(count) => (count * size(form.layout.dtype)) as usize,
        None => unreachable!(),
    }
}

/// Takes the memory that storing this array takes.
pub fn take_room(alloc: Global, form: &LoadForm) -> Result<Room, NoMemory>
    requires { IsGivenArray (given_by form.now) }
    ensures input { IfOk result (λ room. HasBytes form.now.layout.dtype form.now.elements.items room.input.items) }
    ensures metadata { IfOk result (λ room. room.metadata.items ≡ metadata_text (given_by form.now).layout) }
    ensures chunk { IfOk result (λ room. length room.chunk.items ≡ stored_chunk_bytes (given_by form.now).layout) }
{
    let _shape = form.layout.grid.shape();
    let input = element_bytes(alloc, form.layout.dtype, &form.elements)?;
    let metadata = write_meta(alloc, &form.layout)?;
    let chunk = zeros(alloc, chunk_bytes(form))?;
    Ok(Room {
        input,
        metadata,
        chunk,
    })
}
