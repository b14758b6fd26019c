//! The nodes of an expression's text.
ghost use Rattle.std.specs.Prelude.{◌≡◌, ◌≤◌, ◌<◌, ◌++◌, ◌∷◌, [], false, length, bytes_eq, IfOk, OnOk};
ghost use Rattle.std.specs.List.{list_any};
ghost use Rattle.serde_json.specs.View.{view, items_view};
ghost use Rattle.cu_read.specs.Faults.{GivesAs};
ghost use Rattle.cu_read.specs.Node.{node_in};
ghost use Rattle.cu_read.specs.Read.{answer_at, ids_of, nodes_after, AreNodes};

use crate::faults::{NodeRefused, ReadFault, ReadRefused};
use crate::ids::Ids;
use crate::node::node_in;
use cu_form::Node;
use serde_json::Value;
use std::alloc::{AllocError, Global};

/// Nodes, and their ids.
#[derive(Drop)]
pub(crate) struct Nodes {
    pub(crate) list: Vec<Node>,
    pub(crate) ids: Ids,
}

impl Nodes {
    /// Adds a node, whose id is new.
    fn add(&mut self, alloc: Global, node: Node) -> Result<(), AllocError>
        requires new { list_any (bytes_eq node.name) self.old.ids ≡ false }
        requires room { length self.old.ids < 256 }
        ensures list { OnOk result (self.new.list.items ≡ self.old.list.items ++ node ∷ []) }
        ensures ids { OnOk result (self.new.ids ≡ self.old.ids ++ node.name ∷ []) }
    {
        let name = node.name;
        if self.ids.add(alloc, name.text()).is_err() {
            drop(node);
            return Err(AllocError);
        }
        match self.list.push(node) {
            Ok(()) => Ok(()),
            Err(failed) => {
                drop(failed);
                Err(AllocError)
            }
        }
    }
}

/// The node that comes after those with these ids, a fault with its number.
fn next_node(alloc: Global, ids: &Ids, value: &Value) -> Result<Node, ReadRefused>
    ensures node { GivesAs (λ n. n) result (answer_at (length ids.now) (node_in ids.now (view value.now))) }
    ensures new { IfOk result (λ n. list_any (bytes_eq n.name) ids.now ≡ false) }
{
    match node_in(alloc, ids, value) {
        Ok(node) => Ok(node),
        Err(NodeRefused::Code(code)) => Err(ReadRefused::Fault(ReadFault {
            code: code.number(),
            node: ids.len(),
        })),
        Err(NodeRefused::NoMemory) => Err(ReadRefused::NoMemory),
    }
}

/// The nodes of a list, or the first fault.
pub(crate) fn nodes_in(alloc: Global, items: &Vec<Value>) -> Result<Nodes, ReadRefused>
    requires { length items.now.items ≤ 256 }
    ensures nodes { GivesAs (λ n. n.list.items) result (nodes_after [] (items_view items.now.items)) }
    ensures ids { IfOk result (λ n. n.ids ≡ ids_of n.list.items) }
    ensures good { IfOk result (λ n. AreNodes n.list.items) }
{
    let mut nodes = Nodes {
        list: Vec::new(alloc),
        ids: Ids::new(alloc),
    };
    for item in items {
        match next_node(alloc, &nodes.ids, item) {
            Ok(node) => {
                if nodes.add(alloc, node).is_err() {
                    return Err(ReadRefused::NoMemory);
                }
            }
            Err(refused) => return Err(refused),
        }
    }
    Ok(nodes)
}
