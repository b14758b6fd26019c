ghost use Rattle.std.specs.Prelude.{◌≡◌, ◌<◌, ◌∷◌, [], ◌++◌, length, slice_index};
ghost use Rattle.cu_node.specs.Info.{info_at};

use cu_num::Dtype;
use cu_shape::Dims;

/// What is known of a node's array before any element is read.
#[derive(Clone, Copy, Debug, PartialEq, Eq)]
pub struct NodeInfo {
    /// The type of the elements.
    pub dtype: Dtype,
    /// The shape, in elements.
    pub dims: Dims,
    /// The shape of a chunk, in elements.
    pub chunk: Dims,
}

/// What is known of the node of a number; of no node a bool of rank 0.
pub fn info_at(infos: &[NodeInfo], node: u32) -> NodeInfo
    ensures { result ≡ info_at infos.now node }
{
    if (node as usize) < infos.len() {
        infos[node as usize]
    } else {
        let none = Dims::make(&[]).unwrap();
        NodeInfo {
            dtype: Dtype::Bool,
            dims: none,
            chunk: none,
        }
    }
}

/// The size on an axis; 0 on an axis that is not there.
pub fn size_at(dims: &Dims, axis: u32) -> u64
    ensures { result ≡ slice_index dims.now axis }
{
    dims.at_or(axis, 0)
}

/// The sizes with one more axis behind.
pub fn grown(dims: &Dims, size: u64) -> Dims
    requires { length dims.now < 6 }
    ensures { result ≡ dims.now ++ size ∷ [] }
{
    let mut more = *dims;
    more.push(size);
    more
}
