ghost use Rattle.std.specs.Prelude.{◌≡◌, All, IfOk};
ghost use Rattle.cu_node.specs.Info.{IsInfo};
ghost use Rattle.cu_typing.specs.Elementwise.{joined_array, typed_elementwise};
ghost use Rattle.cu_typing.specs.Joined.{arrays_of};

use crate::argument::Argument;
use crate::joining::{are_aligned_within, chunk_joined, shape_joined};
use crate::types::element_type;
use cu_node::{ElementOp, NodeFault, NodeInfo, within_limits};
use cu_num::Dtype;
use cu_shape::Dims;

/// The array of this type and shape that the arrays among the arguments make together.
fn array_joined(t: Dtype, args: &[Argument], shape: &Dims) -> Result<NodeInfo, NodeFault>
    requires { All IsInfo (arrays_of args.now) }
    ensures value { result ≡ joined_array t (arrays_of args.now) shape.now }
    ensures kept { IfOk result IsInfo }
{
    let chunk = chunk_joined(shape, args);
    let beside = are_aligned_within(shape, &chunk, args);
    within_limits(beside, t, *shape, chunk)
}

/// The array that an elementwise function gives, or the node's first fault: Kind where it doesn't accept the type of an
/// argument, Scalar for a written value of another kind or out of the range of the type that it meets, Promote, Shape with the
/// axis of the result on which shapes don't broadcast, Limit. Types are promoted, and shapes broadcast, from the left. On each
/// axis the chunk size is that of the first array that has the axis and isn't stretched there.
pub fn type_elementwise(op: ElementOp, args: &[Argument]) -> Result<NodeInfo, NodeFault>
    requires { All IsInfo (arrays_of args.now) }
    ensures value { result ≡ typed_elementwise op args.now }
    ensures kept { IfOk result IsInfo }
{
    let t = element_type(op, args)?;
    let shape = shape_joined(args)?;
    array_joined(t, args, &shape)
}
