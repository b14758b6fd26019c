//! Laws of typed expressions: calls that do nothing and whose clauses are the laws.

ghost use Rattle.std.specs.Prelude.{◌≡◌, ℕ, List, Ok, Some, None, length, slice_get, take};
ghost use Rattle.cu_form.specs.Expression.{Expression, IsExpression};
ghost use Rattle.cu_form.specs.declared.expr.Node.{Node};
ghost use Rattle.cu_grid.specs.Limits.{first_fault};
ghost use Rattle.cu_node.specs.Info.{IsInfo, info_at};
ghost use Rattle.cu_node.specs.declared.info.NodeInfo.{NodeInfo};
ghost use Rattle.cu_node.specs.declared.element_op.ElementOp.{ElementOp};
ghost use Rattle.cu_num.specs.Dtype.{size_of};
ghost use Rattle.cu_num.specs.declared.types.Dtype.{Dtype};
ghost use Rattle.cu_typing.specs.Accepted.{IsElementwise};
ghost use Rattle.cu_typing.specs.declared.argument.Argument.{Argument};
ghost use Rattle.cu_expr.specs.Kernel.{IsMap};
ghost use Rattle.cu_op.specs.declared.layout.Layout.{Layout};
ghost use Rattle.cu_expr.specs.Inputs.{layout_info};
ghost use Rattle.cu_expr.specs.Premises.{HasGrid};
ghost use Rattle.cu_expr.specs.Typing.{typed, typed_node};
ghost use Rattle.cu_expr.specs.declared.inputs.InputInfo.{InputInfo};

/// An accepted expression has a type for each node, and node k has that of its form over the nodes before it, which is also that
/// over all nodes.
pub fn typing_law()
    ensures count { (inputs : List InputInfo) (e : Expression) (ts : List NodeInfo) → typed inputs e ≡ Ok ts → length ts ≡ length e.nodes }
    ensures node { (inputs : List InputInfo) (e : Expression) (ts : List NodeInfo) (k : ℕ) (n : Node) → typed inputs e ≡ Ok ts → slice_get e.nodes k ≡ Some n → typed_node inputs (take k ts) n.form ≡ Ok (info_at ts k) }
    ensures whole { (inputs : List InputInfo) (e : Expression) (ts : List NodeInfo) (k : ℕ) (n : Node) → IsExpression e → typed inputs e ≡ Ok ts → slice_get e.nodes k ≡ Some n → typed_node inputs ts n.form ≡ Ok (info_at ts k) }
{}

/// What an accepted elementwise function's arguments have passed is what a map over their arrays needs.
pub fn map_law()
    ensures { (op : ElementOp) (args : List Argument) (t : Dtype) (i : NodeInfo) → IsElementwise op args t i → IsMap op args t i }
{}

/// Each array that keeps the limits has a grid: its shape and chunk shape, with the size of its type, have no fault.
pub fn grid_law()
    ensures { (i : NodeInfo) → IsInfo i → first_fault i.dims i.chunk (size_of i.dtype) ≡ None }
{}

/// A stored array keeps the limits.
pub fn input_law()
    ensures { (l : Layout) → HasGrid l → IsInfo (layout_info l) }
{}
