//! Which nodes are live.

ghost use Rattle.std.specs.Prelude.{◌≡◌, ◌<◌, ◌≤◌, ◌||◌, ◌==◌, ℕ, true, false, slice_index_or, length};
ghost use Rattle.std.specs.List.{list_all, list_any};
ghost use Rattle.cu_form.specs.Form.{is_earlier};
ghost use Rattle.cu_need.specs.Live.{is_node, is_live};

use cu_form::{Arg, Expr};

/// Marks the nodes that are among the arguments.
fn mark_arguments(marks: &mut [bool; 256], args: &[Arg], number: u32)
    requires few { number ≤ 256 }
    requires earlier { list_all (is_earlier number) args.now ≡ true }
    ensures marks { (j : ℕ) → slice_index_or marks.new j false ≡ (slice_index_or marks.old j false || list_any (is_node j) args.now) }
{
    for arg in args {
        if let Arg::Node(argument) = arg {
            marks[*argument as usize] = true;
        }
    }
}

/// The mark of the stored node alone.
fn stored_mark(out: u32) -> [bool; 256]
    requires { out < 256 }
    ensures marks { (j : ℕ) → slice_index_or result j false ≡ (j == out) }
    ensures all { length result ≡ 256 }
{
    let mut marks = [false; 256];
    marks[out as usize] = true;
    marks
}

/// Whether each node is live: it is the node that is stored, or an argument of a live node. The marks go by the nodes' numbers; those
/// past the last node are false.
pub fn live_marks(expr: &Expr) -> [bool; 256]
    ensures { (j : ℕ) → slice_index_or result j false ≡ is_live expr.now j }
{
    let nodes = expr.nodes();
    let mut marks = stored_mark(expr.out());
    for k in (0..nodes.len()).rev() {
        if marks[k] {
            mark_arguments(&mut marks, nodes[k].form.args(), k as u32);
        }
    }
    marks
}
