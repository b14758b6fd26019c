//! The bytes of the elements that are given, and those of the chunks.
ghost use Rattle.std.specs.Prelude.{◌≡◌, ◌*◌, ◌≤◌, ◌^◌, IfOk, Some, length, replicate};
ghost use Rattle.cu_num.specs.Dtype.{size_of};
ghost use Rattle.cu_grid.specs.Grid.{IsGrid, IsCoordinate};
ghost use Rattle.cu_zarr.specs.Layout.{stored_chunk_bytes};
ghost use Rattle.cu_zarr.specs.Spelling.{spelled};
ghost use Rattle.cu_load.specs.Load.{HasBytes, given_at};
ghost use Rattle.cu_load.specs.LoadForm.{IsGivenArray, given_by};

use crate::load_form::LoadForm;
use cu_codec::lay_part;
use cu_command::zeros;
use cu_grid::{Grid, Region};
use cu_num::{Dtype, save, size};
use cu_shape::Dims;
use cu_store::NoMemory;
use std::alloc::Global;

/// The bytes of the elements, one after another, the lowest byte of each first.
pub(crate) fn element_bytes(
    alloc: Global,
    dtype: Dtype,
    elements: &[i128],
) -> Result<Vec<u8>, NoMemory>
    requires { length elements.now ≤ 2 ^ 40 }
    ensures { IfOk result (λ v. HasBytes dtype elements.now v.items) }
{
    let mut bytes = zeros(alloc, elements.len() * size(dtype) as usize)?;
    save_all(dtype, elements, &mut bytes);
    Ok(bytes)
}

/// Writes the elements, one after another.
fn save_all(dtype: Dtype, elements: &[i128], bytes: &mut [u8])
    requires { length bytes.old ≡ length elements.now * size_of dtype }
    ensures { HasBytes dtype elements.now bytes.new }
{
    for at in 0..elements.len() {
        save(dtype, elements[at], bytes, at);
    }
}

/// The region that is the whole array.
fn whole_region(grid: &Grid) -> Region
    ensures lo { result.lo ≡ replicate (length grid.now.shape) 0 }
    ensures hi { result.hi ≡ grid.now.shape }
    ensures kept { IsGrid grid.now }
{
    let hi = *grid.shape();
    let mut lo = hi;
    for axis in 0..hi.rank() {
        lo.put(axis, 0);
    }
    Region { lo, hi }
}

/// Writes the bytes of one chunk as they are stored. `input` has those of the array's elements.
pub(crate) fn spell_chunk(form: &LoadForm, coord: &Dims, input: &[u8], chunk: &mut [u8])
    requires given { IsGivenArray (given_by form.now) }
    requires coordinate { IsCoordinate form.now.layout.grid coord.now }
    requires input { HasBytes form.now.layout.dtype form.now.elements.items input.now }
    requires chunk_length { length chunk.old ≡ stored_chunk_bytes (given_by form.now).layout }
    ensures { spelled (given_by form.now).layout (given_at (given_by form.now)) coord.now ≡ Some chunk.new }
{
    let layout = &form.layout;
    let region = whole_region(&layout.grid);
    lay_part(
        &layout.grid,
        layout.dtype,
        layout.fill,
        coord,
        &region,
        input,
        chunk,
    );
}
