//! Copies of arrays into other chunks, and their memory and counts.

ghost use Rattle.std.specs.Prelude.{◌≡◌, ◌<◌, ◌≤◌, ◌^◌, nat_le, All, IfSome, None, Some, length, if◌then◌else◌};
ghost use Rattle.cu_shape.specs.Counts.{at_least_one};
ghost use Rattle.cu_shape.specs.Index.{product};
ghost use Rattle.cu_copy.specs.Copies.{IsRechunk, AreRegions, greater_chunk, is_misaligned, max_mem, rechunk_counts, rechunk_need, rechunked, region_count, staged_counts, staging};
ghost use Rattle.cu_node.specs.Info.{chunk_bytes};

use crate::chunks::{bytes_of, chunk_bytes};
use cu_grid::Grid;
use cu_node::{NodeInfo, info_at};
use cu_num::size;
use cu_rechunk::{Staging, stages};
use cu_shape::Dims;

/// An array, and the shape of the chunks into which it is copied.
#[derive(Clone, Copy, PartialEq, Eq, Debug)]
pub struct Rechunk {
    /// The array that is copied.
    pub source: NodeInfo,
    /// The shape of a chunk of the copy, in elements.
    pub chunk: Dims,
}

impl Default for Rechunk {
    ghost use Rattle.std.specs.Prelude.{◌≡◌, []};
    ghost use Rattle.cu_node.specs.Info.{no_info};
    ghost use Rattle.cu_copy.specs.Copies.{in_chunks};

    ghost is_default = { λ r. r ≡ in_chunks no_info [] };

    fn default() -> Rechunk {
        let none = info_at(&[], 0);
        Rechunk {
            source: none,
            chunk: none.dims,
        }
    }
}

impl Rechunk {
    /// Whether the source has other chunks than are wanted.
    pub fn is_misaligned(&self) -> bool
        ensures { result ≡ is_misaligned self.now }
    {
        !self.source.chunk.is(&self.chunk)
    }
}

/// The most bytes of a region of a copy where so many bytes are allowed, of which `reserved` are kept for everything else.
pub fn max_mem(allowed: u64, reserved: u64) -> u64
    ensures { result ≡ max_mem allowed reserved }
{
    allowed.saturating_sub(reserved) / 2
}

/// The array that a rechunk makes.
pub fn rechunked(rechunk: &Rechunk) -> NodeInfo
    ensures { result ≡ rechunked rechunk.now }
{
    NodeInfo {
        dtype: rechunk.source.dtype,
        dims: rechunk.source.dims,
        chunk: rechunk.chunk,
    }
}

/// The bytes of a chunk that is wanted.
pub fn wanted_bytes(rechunk: &Rechunk) -> u64
    requires { IsRechunk rechunk.now }
    ensures bytes { result ≡ chunk_bytes (rechunked rechunk.now) }
    ensures small { result ≤ 2 ^ 28 }
{
    bytes_of(rechunk.source.dtype, &rechunk.chunk)
}

/// The bytes that a rechunk needs: the greater chunk as scratch, and as much for a region.
pub fn rechunk_need(reserved: u64, rechunk: &Rechunk) -> u64
    requires reserved { reserved ≤ 2 ^ 40 }
    requires rechunk { IsRechunk rechunk.now }
    ensures { result ≡ rechunk_need reserved rechunk.now }
{
    reserved + 2 * chunk_bytes(&rechunk.source).max(wanted_bytes(rechunk))
}

/// How many regions or chunks of these sizes there are in an array.
fn region_count(array: &NodeInfo, sizes: &Dims) -> u64
    requires elements { product (at_least_one array.now.dims) ≤ 2 ^ 40 }
    requires ranks { length sizes.now ≡ length array.now.dims }
    requires positive { All (λ c. 0 < c) sizes.now }
    requires small { product sizes.now ≤ 2 ^ 40 }
    ensures count { result ≡ region_count array.now sizes.now }
    ensures few { result ≤ 2 ^ 40 }
{
    Grid::make_middle(array.dims, *sizes).count()
}

/// The tasks of copies, and the chunks that they store.
#[derive(Clone, Copy, Debug, PartialEq, Eq)]
pub struct CopyCounts {
    pub tasks: u64,
    pub cells: u64,
}

/// What is counted of a rechunk by its stages.
fn staged_counts(rechunk: &Rechunk, staging: &Staging) -> CopyCounts
    requires rechunk { IsRechunk rechunk.now }
    requires regions { AreRegions rechunk.now staging.now }
    ensures counts { result ≡ staged_counts rechunk.now staging.now }
    ensures few_tasks { result.tasks ≤ 2 ^ 41 }
    ensures few_cells { result.cells ≤ 2 ^ 41 }
{
    let tasks = region_count(&rechunk.source, &staging.write);
    let cells = region_count(&rechunk.source, &rechunk.chunk);
    if staging.read.is(&staging.write) {
        return CopyCounts { tasks, cells };
    }
    CopyCounts {
        tasks: region_count(&rechunk.source, &staging.read) + tasks,
        cells: region_count(&rechunk.source, &staging.middle) + cells,
    }
}

/// The stages of a rechunk where a region has at most `most` bytes; none where one of its chunks has more.
pub fn staging_within(most: u64, rechunk: &Rechunk) -> Option<Staging>
    requires rechunk { IsRechunk rechunk.now }
    ensures staging { result ≡ (if nat_le (greater_chunk rechunk.now) most then Some (staging most rechunk.now) else None) }
    ensures regions { IfSome result (AreRegions rechunk.now) }
{
    match stages(
        &rechunk.source.dims,
        &rechunk.source.chunk,
        &rechunk.chunk,
        size(rechunk.source.dtype),
        most,
    ) {
        Ok(staging) => Some(staging),
        Err(_) => None,
    }
}

/// The tasks of a rechunk where a region has at most `most` bytes, and the chunks that they store; none where one of its chunks has more.
pub fn rechunk_counts(most: u64, rechunk: &Rechunk) -> CopyCounts
    requires { IsRechunk rechunk.now }
    ensures counts { result ≡ rechunk_counts most rechunk.now }
    ensures few_tasks { result.tasks ≤ 2 ^ 41 }
    ensures few_cells { result.cells ≤ 2 ^ 41 }
{
    match staging_within(most, rechunk) {
        Some(staging) => staged_counts(rechunk, &staging),
        None => CopyCounts { tasks: 0, cells: 0 },
    }
}
