ghost use Rattle.std.specs.Prelude.{◌≡◌, ◌<◌, IfOk, All, length};
ghost use Rattle.cu_node.specs.Info.{IsInfo};
ghost use Rattle.cu_node.specs.Limited.{is_chunk_within, limited, limited_beside};

use crate::faults::{FaultCode, NodeFault, fault_at};
use crate::info::NodeInfo;
use cu_num::{Dtype, size};
use cu_shape::{Dims, chunk_counts, is_above};

/// The most elements of an array, an axis of size 0 counting as one.
const MOST_ELEMENTS: u64 = 0x100_0000_0000;

/// The most chunks of an array, an axis of size 0 counting as one.
const MOST_CHUNKS: u64 = 65_536;

/// The most bytes of a chunk.
const MOST_BYTES: u64 = 0x1000_0000;

/// Whether a chunk of elements of the type has at most 2^28 bytes.
pub fn is_chunk_within(t: Dtype, chunk: &Dims) -> bool
    ensures { result ≡ is_chunk_within t chunk.now }
{
    match chunk.elements() {
        Some(count) => count * size(t) <= MOST_BYTES,
        None => false,
    }
}

/// The array of this type, shape and chunk shape, where it keeps the limits: at most 2^40 elements, 2^28 bytes in a chunk and
/// 65,536 chunks, an axis of size 0 counting as one element and one chunk. `beside` says that the other chunks that the node
/// needs keep the limit of bytes.
pub fn within_limits(beside: bool, t: Dtype, dims: Dims, chunk: Dims) -> Result<NodeInfo, NodeFault>
    requires ranks { length chunk ≡ length dims }
    requires positive { All (λ c. 0 < c) chunk }
    ensures value { result ≡ limited_beside beside t dims chunk }
    ensures kept { IfOk result IsInfo }
{
    let _short = dims.rank();
    if is_above(&dims, MOST_ELEMENTS) {
        return Err(fault_at(FaultCode::Limit, 2));
    }
    if !is_chunk_within(t, &chunk) || !beside {
        return Err(fault_at(FaultCode::Limit, 3));
    }
    if is_above(&chunk_counts(&dims, &chunk), MOST_CHUNKS) {
        return Err(fault_at(FaultCode::Limit, 4));
    }
    Ok(NodeInfo {
        dtype: t,
        dims,
        chunk,
    })
}

/// The same of lists of any length: an array has at most 6 axes.
pub fn within_limits_list(t: Dtype, dims: &[u64], chunk: &[u64]) -> Result<NodeInfo, NodeFault>
    requires ranks { length chunk.now ≡ length dims.now }
    requires positive { All (λ c. 0 < c) chunk.now }
    ensures value { result ≡ limited t dims.now chunk.now }
    ensures kept { IfOk result IsInfo }
{
    match (Dims::make(dims), Dims::make(chunk)) {
        (Ok(dims), Ok(chunk)) => within_limits(true, t, dims, chunk),
        _ => Err(fault_at(FaultCode::Limit, 1)),
    }
}
