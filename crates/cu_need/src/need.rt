//! The memory of each node.

ghost use Rattle.std.specs.Prelude.{◌≡◌, ◌≤◌, ◌^◌, true, All};
ghost use Rattle.cu_form.specs.Form.{takes_args};
ghost use Rattle.cu_node.specs.Info.{IsInfo};
ghost use Rattle.cu_copy.specs.Copies.{IsRechunk};
ghost use Rattle.cu_need.specs.Need.{own_need, need_of, first_over, ArePartialsWithin, IsNodeWithin, AreWithinLimits};
ghost use Rattle.cu_need.specs.Operands.{operands_of};

use crate::copies::copies_need;
use crate::cost::outline_of;
use crate::live::live_marks;
use crate::operands::copies_of;
use cu_form::{Expr, Form};
use cu_node::NodeInfo;
use cu_tree::outline_bytes;

/// A node, and the bytes that it needs.
#[derive(Clone, Copy, Debug, PartialEq, Eq)]
pub struct NodeNeed {
    /// The number of the node.
    pub node: u32,
    /// The bytes that it needs.
    pub need: u64,
}

/// The bytes that the operations of the node with this number need besides copies, of which `reserved` are kept for everything else: the
/// greatest that one of them needs, where a task merges `split_every` partial results; the reserved bytes where it has none.
pub fn own_need(
    reserved: u64,
    split_every: u32,
    infos: &[NodeInfo],
    number: u32,
    form: &Form,
) -> u64
    requires reserved { reserved ≤ 2 ^ 40 }
    requires several { 2 ≤ split_every }
    requires few { split_every ≤ 64 }
    requires args { takes_args form.now ≡ true }
    requires infos { All IsInfo infos.now }
    requires partials { ArePartialsWithin infos.now number form.now }
    requires operands { All IsRechunk (operands_of infos.now number form.now) }
    ensures { result ≡ own_need reserved split_every infos.now number form.now }
{
    let outline = outline_of(split_every, infos, number, form);
    reserved + outline_bytes(outline.as_slice())
}

/// The bytes that the node with this number needs where node `out` is stored, of which `reserved` are kept for everything else: the
/// greatest that its operations besides copies need, where a task merges `split_every` partial results, and that each of its copies needs,
/// twice the greater of its chunks. What is allowed doesn't matter: a copy is made in stages that keep within it exactly where this need
/// does. An input that isn't stored is read by the nodes that use it, and needs the reserved bytes alone.
pub fn need_of(
    reserved: u64,
    split_every: u32,
    infos: &[NodeInfo],
    out: u32,
    number: u32,
    form: &Form,
) -> u64
    requires reserved { reserved ≤ 2 ^ 40 }
    requires several { 2 ≤ split_every }
    requires few { split_every ≤ 64 }
    requires args { takes_args form.now ≡ true }
    requires infos { All IsInfo infos.now }
    requires within { IsNodeWithin infos.now out number form.now }
    ensures { result ≡ need_of reserved split_every infos.now out number form.now }
{
    let copies = copies_of(infos, out, number, form);
    let copied = copies_need(reserved, copies.as_slice());
    own_need(reserved, split_every, infos, number, form).max(copied)
}

/// The first live node that needs more bytes than are allowed, with what it needs. None where no live node does.
pub fn first_over(
    allowed: u64,
    reserved: u64,
    split_every: u32,
    expr: &Expr,
    infos: &[NodeInfo],
) -> Option<NodeNeed>
    requires reserved { reserved ≤ 2 ^ 40 }
    requires several { 2 ≤ split_every }
    requires few { split_every ≤ 64 }
    requires limits { AreWithinLimits expr.now infos.now }
    ensures { result ≡ first_over allowed reserved split_every expr.now infos.now }
{
    let marks = live_marks(expr);
    let nodes = expr.nodes();
    let out = expr.out();
    for k in 0..nodes.len() {
        if marks[k] {
            let form = &nodes[k].form;
            let need = need_of(reserved, split_every, infos, out, k as u32, form);
            if need > allowed {
                return Some(NodeNeed {
                    node: k as u32,
                    need,
                });
            }
        }
    }
    None
}
