//! Regions of a reshape's result that are a chunk of its source: the same places of both arrays.
ghost use Rattle.std.specs.Prelude.{◌≡◌, ◌<◌, ◌^◌, IfSome};
ghost use Rattle.std.specs.Bool.{OnTrue};
ghost use Rattle.cu_shape.specs.Index.{product};
ghost use Rattle.cu_grid.specs.Counts.{IsRegion};
ghost use Rattle.cu_task.specs.Straight.{IsInOrder, StandTogether};
ghost use Rattle.cu_task.specs.ViewJobs.{IsSourceChunk};

use crate::views::{SourceChunk, chunk_part, made_array, result_block, source_array};
use cu_grid::Region;
use cu_origin::Pull;
use cu_shape::{Dims, place};

/// Whether the region of a reshape's task and the chunk, whole, have their elements at the same
/// places of their arrays, one after another.
pub(crate) fn is_reshaped_chunk(chunk: &SourceChunk<'_>) -> bool
    requires chunk { IsSourceChunk chunk.now }
    requires reshape { chunk.now.job.now.pull.now ≡ Pull.Reshape }
    ensures { OnTrue result (IsInOrder chunk.now) }
{
    let to = result_block(chunk.job);
    let from = source_array(chunk.job, chunk.source);
    let dims = from.layout.grid.chunk();
    if to.dims.product() != dims.product() {
        return false;
    }
    let part = chunk_part(chunk);
    if !part.sizes().is(dims) {
        return false;
    }
    let made = made_array(chunk.job);
    let first = match first_place(made.layout.grid.shape(), &to.region) {
        Some(first) => first,
        None => return false,
    };
    match first_place(from.layout.grid.shape(), &part) {
        Some(start) => start == first,
        None => false,
    }
}

/// The place of a region's first element in an array of this shape, if its elements stand there at
/// places one after another.
fn first_place(shape: &Dims, region: &Region) -> Option<u64>
    requires small { product shape.now < 2 ^ 64 }
    requires region { IsRegion shape.now region.now.lo region.now.hi }
    ensures { IfSome result (StandTogether shape.now region.now) }
{
    let count = region.sizes().product();
    if count == 0 {
        return None;
    }
    let first = place(shape, &region.lo);
    let last = place(shape, &region.last());
    // Row-major order rises, so that as many places as elements leave none between two of them.
    if last - first + 1 != count {
        return None;
    }
    Some(first)
}
