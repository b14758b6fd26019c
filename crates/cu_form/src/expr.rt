ghost use Rattle.std.specs.Prelude.{◌≡◌};

use crate::form::Form;
use cu_name::IdText;
use std::marker::Model;

/// A node of an expression: its id, and what it is.
#[derive(Drop)]
pub struct Node {
    /// the id by which later nodes name it in the text
    pub name: IdText,
    pub form: Form,
}

/// An expression: at most 256 nodes, each of which names earlier nodes alone, the one that is stored, and the name under
/// which it is stored. A node's number is its place in the list, from 0. Ids and the name are names, and no id stands twice. An
/// index has fewer than 2^32 entries.
#[derive(Drop)]
pub struct Expr {
    nodes: Vec<Node>,
    out: u32,
    store_as: IdText,
}

impl Model for Expr {
    ghost use Rattle.cu_form.specs.Expression.{Expression, IsExpression};

    ghost Value = { Expression };

    ghost view = { λ e. record { nodes = e.nodes.items; out = e.out; store_as = e.store_as } };

    ghost invariant = { λ e. IsExpression (record { nodes = e.nodes.items; out = e.out; store_as = e.store_as }) };
}

impl Expr {
    ghost use Rattle.cu_form.specs.Expression.{IsExpression};

    /// The expression of these nodes, whose node `out` is stored under the name `store_as`.
    pub fn make(nodes: Vec<Node>, out: u32, store_as: IdText) -> Expr
        requires { IsExpression (record { nodes = nodes.items; out = out; store_as = store_as }) }
        ensures expression { result ≡ record { nodes = nodes.items; out = out; store_as = store_as } }
        ensures form { IsExpression result }
    {
        Expr {
            nodes,
            out,
            store_as,
        }
    }

    /// The nodes, by their numbers.
    pub fn nodes(&self) -> &[Node]
        ensures nodes { result.now ≡ self.now.nodes }
        ensures form { IsExpression self.now }
    {
        &self.nodes
    }

    /// The number of the node that is stored.
    pub fn out(&self) -> u32
        ensures out { result ≡ self.now.out }
        ensures form { IsExpression self.now }
    {
        self.out
    }

    /// The name of the array as which the node is stored.
    pub fn store_as(&self) -> &IdText
        ensures name { result.now ≡ self.now.store_as }
        ensures form { IsExpression self.now }
    {
        &self.store_as
    }
}
