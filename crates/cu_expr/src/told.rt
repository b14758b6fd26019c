//! What is told of a node's arguments.

ghost use Rattle.std.specs.Prelude.{◌≡◌, All, IfOk, map};
ghost use Rattle.cu_node.specs.Info.{IsInfo, info_at};
ghost use Rattle.cu_expr.specs.Typing.{argument_of};
ghost use Rattle.cu_typing.specs.Joined.{arrays_of};

use cu_form::{Arg, Literal};
use cu_node::{NodeInfo, info_at, info_law};
use cu_typing::Argument;
use std::alloc::{AllocError, Global};

/// An argument: what is known of the earlier node's array, or the written value.
fn argument(infos: &[NodeInfo], arg: &Arg) -> Argument
    ensures { result ≡ argument_of infos.now arg.now }
{
    match arg {
        Arg::Node(number) => Argument::Array(info_at(infos, *number)),
        Arg::Int(x) => Argument::Written(Literal::Int(*x)),
        Arg::Truth(b) => Argument::Written(Literal::Truth(*b)),
    }
}

/// The arguments of a node, over what is known of the nodes before it.
pub(crate) fn arguments(
    alloc: Global,
    infos: &[NodeInfo],
    args: &[Arg],
) -> Result<Vec<Argument>, AllocError>
    ensures { IfOk result (λ told. told.items ≡ map (argument_of infos.now) args.now) }
{
    let mut told = Vec::new(alloc);
    for arg in args {
        told.push(argument(infos, arg))?;
    }
    Ok(told)
}

/// Those of the arguments that are arrays.
pub(crate) fn arrays(alloc: Global, told: &[Argument]) -> Result<Vec<NodeInfo>, AllocError>
    ensures { IfOk result (λ arrays. arrays.items ≡ arrays_of told.now) }
{
    let mut arrays = Vec::new(alloc);
    for argument in told {
        if let Argument::Array(info) = argument {
            arrays.push(*info)?;
        }
    }
    Ok(arrays)
}

/// What is known of the node with this number, of nodes whose arrays keep the limits.
pub(crate) fn known(infos: &[NodeInfo], number: u32) -> NodeInfo
    requires { All IsInfo infos.now }
    ensures value { result ≡ info_at infos.now number }
    ensures kept { IsInfo result }
{
    info_law();
    info_at(infos, number)
}
