//! The parts of chunks that lie in a region of an array.
ghost use Rattle.std.specs.Prelude.{◌≡◌, ◌<◌, ◌≤◌, ◌↔◌, ◌+◌, ◌*◌, ◌^◌, ℕ, IsTrue, List, length, min, max};
ghost use Rattle.cu_num.specs.Dtype.{size_of, InRange};
ghost use Rattle.cu_num.specs.Element.{element_bytes, IsSize};
ghost use Rattle.cu_shape.specs.Index.{product, axis_by_axis, differences};
ghost use Rattle.cu_grid.specs.Counts.{IsRegion, IsWithin};
ghost use Rattle.cu_grid.specs.Grid.{IsCoordinate, IsInChunk};
ghost use Rattle.cu_codec.specs.Box.{IsSharedBox};
ghost use Rattle.cu_codec.specs.Parts.{part, part_at, HasFill, IsWholeChunk, IsPartTaken, IsLaid};

use cu_box::{Placing, copy_box};
use cu_grid::{Grid, Region};
use cu_num::{Dtype, Endian, save};
use cu_shape::Dims;

/// Copies the elements of a chunk that lie in a region into the region's buffer. Elements have `size` bytes, in the chunk in
/// this byte order and in the buffer little-endian, and both are row-major. The buffer's other elements stay as they are.
pub fn take_part(
    grid: &Grid,
    size: u64,
    order: Endian,
    coord: &Dims,
    chunk: &[u8],
    region: &Region,
    out: &mut [u8],
)
    requires size { IsSize size }
    requires coordinate { IsCoordinate grid.now coord.now }
    requires region { IsRegion grid.now.shape region.now.lo region.now.hi }
    requires chunk_length { length chunk.now ≡ product grid.now.chunk * size }
    requires out_length { length out.old ≡ product (differences region.now.hi region.now.lo) * size }
    ensures taken { IsPartTaken size order (part grid.now coord.now region.now.lo region.now.hi) chunk.now out.old out.new }
{
    let shared = shared(grid, coord, region);
    let placing = Placing {
        sizes: shared.sizes,
        from: *grid.chunk(),
        start: shared.in_chunk,
        to: shared.extents,
        corner: shared.in_region,
    };
    copy_box(size, order, &placing, chunk, out);
}

/// Writes a whole chunk, row-major and little-endian: each element inside the array from the region's buffer, which holds
/// all of these, and the fill value past the array's edge.
pub fn lay_part(
    grid: &Grid,
    t: Dtype,
    fill: i128,
    coord: &Dims,
    region: &Region,
    input: &[u8],
    chunk: &mut [u8],
)
    requires coordinate { IsCoordinate grid.now coord.now }
    requires region { IsRegion grid.now.shape region.now.lo region.now.hi }
    requires whole { (idx : List ℕ) → IsInChunk grid.now coord.now idx → IsWithin region.now.lo region.now.hi idx }
    requires fill { InRange t fill }
    requires input_length { length input.now ≡ product (differences region.now.hi region.now.lo) * size_of t }
    requires chunk_length { length chunk.old ≡ product grid.now.chunk * size_of t }
    ensures laid { IsLaid t fill (part grid.now coord.now region.now.lo region.now.hi) input.now chunk.new }
{
    let size = u64::from(cu_num::size(t));
    let shared = shared(grid, coord, region);
    let placing = Placing {
        sizes: shared.sizes,
        from: shared.extents,
        start: shared.in_region,
        to: *grid.chunk(),
        corner: shared.in_chunk,
    };
    fill_past_edge(grid, t, fill, coord, chunk);
    copy_box(size, Endian::Little, &placing, input, chunk);
}

/// Writes the fill value as each element, where the chunk goes past the array's edge.
fn fill_past_edge(grid: &Grid, t: Dtype, fill: i128, coord: &Dims, chunk: &mut [u8])
    requires coordinate { IsCoordinate grid.now coord.now }
    requires chunk_length { length chunk.old ≡ product grid.now.chunk * size_of t }
    ensures same_length { length chunk.new ≡ length chunk.old }
    ensures filled { HasFill grid.now t fill coord.now chunk.new }
{
    if !is_one_chunk(grid, coord, &grid.chunk_region(coord)) {
        fill_with(t, fill, chunk);
    }
}

/// Whether a region is the chunk at this coordinate, which then has no part past the array's edge.
pub fn is_one_chunk(grid: &Grid, coord: &Dims, region: &Region) -> bool
    requires coordinate { IsCoordinate grid.now coord.now }
    requires region { IsRegion grid.now.shape region.now.lo region.now.hi }
    ensures { IsTrue result ↔ IsWholeChunk grid.now.chunk coord.now region.now.lo region.now.hi }
{
    let chunk = grid.chunk();
    for axis in 0..chunk.rank() {
        let size = chunk.at(axis);
        if !is_one_on(size, coord.at(axis), region.lo.at(axis), region.hi.at(axis)) {
            return false;
        }
    }
    true
}

/// Whether an interval of an axis is that of the chunk with this number.
fn is_one_on(size: u64, number: u64, lo: u64, hi: u64) -> bool
    requires { number * size + size < 2 ^ 64 }
    ensures { IsTrue result ↔ ((lo ≡ number * size) × (hi ≡ lo + size)) }
{
    lo == number * size && hi == lo + size
}

/// The bytes of a chunk.
pub fn chunk_bytes(grid: &Grid, t: Dtype) -> usize
    ensures { result ≡ product grid.now.chunk * size_of t }
{
    match grid.chunk().elements() {
        Some(count) => (count * u64::from(cu_num::size(t))) as usize,
        None => unreachable!(),
    }
}

/// The elements that a chunk and a region share.
#[derive(Clone, Copy)]
struct Common {
    /// How many there are on each axis.
    sizes: Dims,
    /// The first of them, as an index of the chunk.
    in_chunk: Dims,
    /// The first of them, as an index of the region's buffer.
    in_region: Dims,
    /// The sizes of the region.
    extents: Dims,
}

/// The elements that a chunk and a region share.
fn shared(grid: &Grid, coord: &Dims, region: &Region) -> Common
    requires coordinate { IsCoordinate grid.now coord.now }
    requires region { IsRegion grid.now.shape region.now.lo region.now.hi }
    ensures shared { IsSharedBox (part grid.now coord.now region.now.lo region.now.hi) result.sizes result.in_chunk result.in_region }
    ensures extents { result.extents ≡ differences region.now.hi region.now.lo }
{
    let own = grid.chunk_region(coord);
    let first = latest(&own.lo, &region.lo);
    let last = earliest(&own.hi, &region.hi);
    Common {
        sizes: difference(&last, &first),
        in_chunk: difference(&first, &own.lo),
        in_region: difference(&first, &region.lo),
        extents: difference(&region.hi, &region.lo),
    }
}

/// Writes one number, wrapped to the type, as each element of little-endian bytes.
pub fn fill_with(t: Dtype, fill: i128, bytes: &mut [u8])
    ensures { (p : ℕ) → p * size_of t + size_of t ≤ length bytes.old → part_at (size_of t) bytes.new p ≡ element_bytes Endian.Little t fill }
{
    let count = bytes.len() / cu_num::size(t) as usize;
    for at in 0..count {
        save(t, fill, bytes, at);
    }
}

/// How far `from` is above `to` on each axis, 0 where it isn't.
fn difference(from: &Dims, to: &Dims) -> Dims
    requires { length to.now ≡ length from.now }
    ensures { result ≡ differences from.now to.now }
{
    let mut sizes = *from;
    for axis in 0..from.rank() {
        sizes.put(axis, from.at(axis).saturating_sub(to.at(axis)));
    }
    sizes
}

/// The greater number on each axis.
fn latest(a: &Dims, b: &Dims) -> Dims
    requires { length b.now ≡ length a.now }
    ensures { result ≡ axis_by_axis max a.now b.now }
{
    let mut most = *a;
    for axis in 0..a.rank() {
        most.put(axis, a.at(axis).max(b.at(axis)));
    }
    most
}

/// The lesser number on each axis.
fn earliest(a: &Dims, b: &Dims) -> Dims
    requires { length b.now ≡ length a.now }
    ensures { result ≡ axis_by_axis min a.now b.now }
{
    let mut least = *a;
    for axis in 0..a.rank() {
        least.put(axis, a.at(axis).min(b.at(axis)));
    }
    least
}
