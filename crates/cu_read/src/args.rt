//! The arguments of a node.
ghost use Rattle.std.specs.Prelude.{◌≡◌, []};
ghost use Rattle.cu_result.specs.Results.{need};
ghost use Rattle.serde_json.specs.View.{view, items_view};
ghost use Rattle.cu_read.specs.Args.{arg_of, args_in};
ghost use Rattle.cu_read.specs.Lists.{entries_after};
ghost use Rattle.cu_read.specs.Faults.{Gives};

use crate::faults::{NodeCode, NodeRefused};
use crate::ids::Ids;
use crate::members::literal_of;
use crate::rows::list;
use cu_form::{Arg, Items, Literal};
use serde_json::Value;
use std::alloc::Global;

fn arg_of(ids: &Ids, value: &Value) -> Option<Arg>
    ensures { result ≡ arg_of ids.now (view value.now) }
{
    if let Some(id) = value.as_str() {
        return Some(Arg::Node(ids.place(id)));
    }
    match literal_of(value)? {
        Literal::Int(x) => Some(Arg::Int(x)),
        Literal::Truth(truth) => Some(Arg::Truth(truth)),
    }
}

fn each_arg(alloc: Global, ids: &Ids, items: &Vec<Value>) -> Result<Items<Arg>, NodeRefused>
    ensures { Gives result (need (entries_after (arg_of ids.now) [] (items_view items.now.items)) NodeCode.Args) }
{
    let mut args = Vec::new(alloc);
    for item in items {
        let Some(arg) = arg_of(ids, item) else {
            return Err(NodeRefused::Code(NodeCode::Args));
        };
        if args.push(arg).is_err() {
            return Err(NodeRefused::NoMemory);
        }
    }
    Ok(Items::make(args))
}

/// The arguments at the member `args`.
pub(crate) fn args_in(alloc: Global, ids: &Ids, value: &Value) -> Result<Items<Arg>, NodeRefused>
    ensures { Gives result (args_in ids.now (view value.now)) }
{
    each_arg(alloc, ids, list(value, "args")?)
}
