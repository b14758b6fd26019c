//! Laws of the meaning: calls that do nothing and whose clauses are the laws.
ghost use Rattle.std.specs.Prelude.{◌≡◌, ℕ, List, Some, true, false, pos, slice_get};
ghost use Rattle.cu_shape.specs.Index.{is_inside};
ghost use Rattle.cu_form.specs.Expression.{Expression, IsExpression};
ghost use Rattle.cu_form.specs.Form.{names_earlier};
ghost use Rattle.cu_form.specs.declared.expr.Node.{Node};
ghost use Rattle.cu_form.specs.declared.form.Form.{Form};
ghost use Rattle.cu_node.specs.declared.info.NodeInfo.{NodeInfo};
ghost use Rattle.cu_semantics.specs.Argument.{NodeElements, shape_of_node};
ghost use Rattle.cu_semantics.specs.Meaning.{meaning_of, AgreeBelow};
ghost use Rattle.cu_semantics.specs.Rule.{node_element, KeepsType};
ghost use Rattle.cu_semantics.specs.Typed.{type_of_node};
ghost use Rattle.cu_num.specs.Dtype.{InRange};

/// The meaning of each node is the rule of its operator over the meaning itself. The rule depends on the elements of earlier nodes
/// alone. Outside the node's shape the element is 0.
pub fn meaning_law()
    ensures equation { (e : Expression) (infos : List NodeInfo) (env : NodeElements) (k : ℕ) (node : Node) (idx : List ℕ) → IsExpression e → slice_get e.nodes k ≡ Some node
        → meaning_of e infos env k idx ≡ node_element infos env (meaning_of e infos env) k node.form idx }
    ensures earlier { (infos : List NodeInfo) (env at other : NodeElements) (k : ℕ) (form : Form) (idx : List ℕ) → names_earlier k form ≡ true → AgreeBelow k at other
        → node_element infos env at k form idx ≡ node_element infos env other k form idx }
    ensures outside { (e : Expression) (infos : List NodeInfo) (env : NodeElements) (k : ℕ) (node : Node) (idx : List ℕ) → IsExpression e → slice_get e.nodes k ≡ Some node
        → is_inside (shape_of_node infos k) idx ≡ false → meaning_of e infos env k idx ≡ pos 0 }
{}

/// Each element is a number of its node's type, where the types of the nodes are those that each form keeps.
pub fn type_law()
    ensures { (e : Expression) (infos : List NodeInfo) (env : NodeElements) (k : ℕ) (idx : List ℕ) → IsExpression e
        → ((n : ℕ) (node : Node) → slice_get e.nodes n ≡ Some node → KeepsType infos env n node.form) → InRange (type_of_node infos k) (meaning_of e infos env k idx) }
{}
