//! Elements of a block, one by one.
ghost use Rattle.std.specs.Prelude.{◌≡◌, ◌≢◌, ◌+◌, ◌*◌, ◌≤◌, ℕ, List, length};
ghost use Rattle.cu_num.specs.Dtype.{size_of};
ghost use Rattle.cu_num.specs.Element.{bytes_at, element_bytes};
ghost use Rattle.cu_grid.specs.Counts.{IsWithin};
ghost use Rattle.cu_view_box.specs.Block.{buffer_place, IsBlock};

use cu_num::{Endian, save};
use cu_shape::{Dims, difference, place};
use cu_view_box::Block;

/// The place of an index of a block in its buffer.
pub(crate) fn place_of(block: &Block, idx: &Dims, bytes: &[u8]) -> usize
    requires block { IsBlock block.now bytes.now }
    requires within { IsWithin block.now.region.lo block.now.region.hi idx.now }
    ensures place { result ≡ buffer_place block.now idx.now }
    ensures fits { result * size_of block.now.dtype + size_of block.now.dtype ≤ length bytes.now }
{
    let _count = bytes.len();
    place(&block.dims, &difference(idx, &block.region.lo)) as usize
}

/// Writes a number as the element at an index of a block.
pub(crate) fn put(block: &Block, idx: &Dims, number: i128, output: &mut [u8])
    requires block { IsBlock block.now output.old }
    requires within { IsWithin block.now.region.lo block.now.region.hi idx.now }
    ensures here { bytes_at block.now.dtype output.new (buffer_place block.now idx.now) ≡ element_bytes Endian.Little block.now.dtype number }
    ensures others { (other : List ℕ) → IsWithin block.now.region.lo block.now.region.hi other → other ≢ idx.now
        → bytes_at block.now.dtype output.new (buffer_place block.now other) ≡ bytes_at block.now.dtype output.old (buffer_place block.now other) }
    ensures same_length { length output.new ≡ length output.old }
{
    let at = place_of(block, idx, output);
    save(block.dtype, number, output, at);
}
