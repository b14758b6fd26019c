//! Laws of typed expressions and of their meaning: calls that do nothing and whose clauses are the laws.

ghost use Rattle.std.specs.Prelude.{◌≡◌, ℕ, List, Ok, Some, All, slice_get};
ghost use Rattle.cu_num.specs.Dtype.{InRange};
ghost use Rattle.cu_form.specs.Expression.{Expression, IsExpression};
ghost use Rattle.cu_form.specs.declared.expr.Node.{Node};
ghost use Rattle.cu_node.specs.Info.{IsInfo};
ghost use Rattle.cu_node.specs.declared.info.NodeInfo.{NodeInfo};
ghost use Rattle.cu_expr.specs.Typing.{typed};
ghost use Rattle.cu_expr.specs.declared.inputs.InputInfo.{InputInfo};
ghost use Rattle.cu_semantics.specs.Argument.{NodeElements};
ghost use Rattle.cu_semantics.specs.Meaning.{meaning_of};
ghost use Rattle.cu_semantics.specs.Rule.{KeepsType};
ghost use Rattle.cu_semantics.specs.Typed.{type_of_node};
ghost use Rattle.cu_mean.specs.Laws.{FitInputs};

/// The types that typing gives are those that each form keeps, where the elements of the inputs are numbers of their types.
pub fn keeps_law()
    ensures { (inputs : List InputInfo) (e : Expression) (infos : List NodeInfo) (env : NodeElements) (k : ℕ) (node : Node) → IsExpression e → typed inputs e ≡ Ok infos
        → All IsInfo infos → FitInputs e infos env → slice_get e.nodes k ≡ Some node → KeepsType infos env k node.form }
{}

/// Each element of a typed expression is a number of its node's type, where those of the inputs are.
pub fn range_law()
    ensures { (inputs : List InputInfo) (e : Expression) (infos : List NodeInfo) (env : NodeElements) (k : ℕ) (idx : List ℕ) → IsExpression e → typed inputs e ≡ Ok infos
        → All IsInfo infos → FitInputs e infos env → InRange (type_of_node infos k) (meaning_of e infos env k idx) }
{}
