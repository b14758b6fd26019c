//! The memory of an elementwise node.

ghost use Rattle.std.specs.Prelude.{◌≡◌, ◌≤◌, ◌+◌, ◌^◌, ◌++◌, true, length, map};
ghost use Rattle.cu_node.specs.Info.{IsInfo};
ghost use Rattle.cu_typing.specs.Joined.{aligned_within};
ghost use Rattle.cu_need.specs.Chunks.{arrays_in};
ghost use Rattle.cu_need.specs.Elementwise.{in_aligned, own_instructions, function_bytes};

use crate::chunks::aligned_bytes;
use arrayvec::ArrayVec;
use cu_copy::{Rechunk, chunk_bytes};
use cu_form::Arg;
use cu_node::{ElementOp, NodeInfo, info_at};
use cu_typing::chunk_aligned;

/// The bytes that an instruction of a kernel needs.
const INSTRUCTION_BYTES: u64 = 512;

/// An argument's array in the chunks to which it is aligned.
fn in_aligned(made: &NodeInfo, info: &NodeInfo) -> Rechunk
    ensures { result ≡ in_aligned made.now info.now }
{
    Rechunk {
        source: *info,
        chunk: chunk_aligned(&made.dims, &made.chunk, info),
    }
}

/// Appends each argument's array in the chunks to which it is aligned.
pub(crate) fn push_aligned(
    wanted: &mut ArrayVec<Rechunk, 3>,
    made: &NodeInfo,
    infos: &[NodeInfo],
    args: &[Arg],
)
    requires room { length wanted.old.items + length args.now ≤ 3 }
    ensures arrays { wanted.new.items ≡ wanted.old.items ++ map (in_aligned made.now) (arrays_in infos.now args.now) }
    ensures few { length wanted.new.items ≤ length wanted.old.items + length args.now }
{
    for arg in args {
        if let Arg::Node(number) = arg {
            wanted.push(in_aligned(made, &info_at(infos, *number)));
        }
    }
}

/// The instructions of a function's kernel besides those of its arguments.
fn own_instructions(op: ElementOp) -> u64
    ensures { result ≡ own_instructions op }
{
    match op {
        ElementOp::Extreme(_) => 2,
        ElementOp::Clip(..) => 6,
        ElementOp::One(_) | ElementOp::Two(_) | ElementOp::Where | ElementOp::Astype(_) => 1,
    }
}

/// The bytes of the operation that computes the function, besides those that are reserved.
pub(crate) fn function_bytes(
    made: &NodeInfo,
    infos: &[NodeInfo],
    op: ElementOp,
    args: &[Arg],
) -> u64
    requires few { length args.now ≤ 3 }
    requires made { IsInfo made.now }
    requires within { aligned_within made.now.dims made.now.chunk (arrays_in infos.now args.now) ≡ true }
    ensures bytes { result ≡ function_bytes made.now (length args.now + own_instructions op) (arrays_in infos.now args.now) }
    ensures small { result ≤ 2 ^ 40 }
{
    let own = chunk_bytes(made);
    let mut scratch = own;
    let mut regions = 0;
    for arg in args {
        if let Arg::Node(number) = arg {
            let aligned = aligned_bytes(made, &info_at(infos, *number));
            scratch = scratch.max(aligned);
            regions += aligned;
        }
    }
    let instructions = args.len() as u64 + own_instructions(op);
    scratch + regions + own + INSTRUCTION_BYTES * instructions
}
