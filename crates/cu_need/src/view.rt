//! The memory of a view, and of an array that is made from nothing.

ghost use Rattle.std.specs.Prelude.{◌≡◌, ◌≤◌, ◌^◌, All};
ghost use Rattle.cu_node.specs.Info.{IsInfo};
ghost use Rattle.cu_need.specs.Chunks.{arrays_in};
ghost use Rattle.cu_need.specs.ViewBytes.{view_bytes};

use cu_copy::chunk_bytes;
use cu_form::Arg;
use cu_node::{NodeInfo, info_at, info_law};

/// The bytes of a view, whose array `made` tells of, besides those that are reserved: its greatest chunk, and one of the result.
pub(crate) fn view_bytes(infos: &[NodeInfo], made: &NodeInfo, args: &[Arg]) -> u64
    requires made { IsInfo made.now }
    requires infos { All IsInfo infos.now }
    ensures bytes { result ≡ view_bytes made.now (arrays_in infos.now args.now) }
    ensures small { result ≤ 2 ^ 40 }
{
    info_law();
    let own = chunk_bytes(made);
    let mut scratch = own;
    for arg in args {
        if let Arg::Node(number) = arg {
            scratch = scratch.max(chunk_bytes(&info_at(infos, *number)));
        }
    }
    scratch + own
}
