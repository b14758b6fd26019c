//! The chunks to which the arguments of a node are aligned.

ghost use Rattle.std.specs.Prelude.{◌≡◌, ◌≤◌, ◌^◌, true};
ghost use Rattle.cu_node.specs.Limited.{is_chunk_within};
ghost use Rattle.cu_typing.specs.Joined.{aligned_chunk};
ghost use Rattle.cu_need.specs.Chunks.{aligned_bytes};

use cu_copy::bytes_of;
use cu_node::NodeInfo;
use cu_typing::chunk_aligned;

/// The bytes of the chunk to which an argument's array is aligned.
pub(crate) fn aligned_bytes(made: &NodeInfo, info: &NodeInfo) -> u64
    requires { is_chunk_within info.now.dtype (aligned_chunk made.now.dims made.now.chunk info.now) ≡ true }
    ensures bytes { result ≡ aligned_bytes made.now info.now }
    ensures small { result ≤ 2 ^ 28 }
{
    bytes_of(info.dtype, &chunk_aligned(&made.dims, &made.chunk, info))
}
