//! The chunks of arrays.

ghost use Rattle.std.specs.Prelude.{◌≡◌, ◌≤◌, ◌^◌, ◌*◌, true};
ghost use Rattle.cu_num.specs.Dtype.{size_of};
ghost use Rattle.cu_shape.specs.Index.{product};
ghost use Rattle.cu_node.specs.Info.{IsInfo, chunk_bytes};
ghost use Rattle.cu_node.specs.Limited.{is_chunk_within};
ghost use Rattle.cu_copy.specs.Chunks.{chunk_count};

use cu_grid::Grid;
use cu_node::NodeInfo;
use cu_num::{Dtype, size};
use cu_shape::Dims;

/// The bytes of a chunk that keeps the limit of bytes.
pub fn bytes_of(t: Dtype, chunk: &Dims) -> u64
    requires { is_chunk_within t chunk.now ≡ true }
    ensures bytes { result ≡ product chunk.now * size_of t }
    ensures small { result ≤ 2 ^ 28 }
{
    match chunk.elements() {
        Some(elements) => elements * size(t),
        None => unreachable!(),
    }
}

/// The bytes of a chunk of an array.
pub fn chunk_bytes(info: &NodeInfo) -> u64
    requires { IsInfo info.now }
    ensures bytes { result ≡ chunk_bytes info.now }
    ensures small { result ≤ 2 ^ 28 }
{
    bytes_of(info.dtype, &info.chunk)
}

/// The number of an array's chunks.
pub fn chunk_count(info: &NodeInfo) -> u64
    requires { IsInfo info.now }
    ensures count { result ≡ chunk_count info.now }
    ensures small { result ≤ 65536 }
{
    Grid::make_middle(info.dims, info.chunk).count()
}
