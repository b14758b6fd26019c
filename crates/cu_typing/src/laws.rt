//! Laws of typed nodes: calls that do nothing and whose clauses are the laws.

ghost use Rattle.std.specs.Prelude.{◌≡◌, ℕ, ℤ, Bool, List, length, Option, Some, Ok};
ghost use Rattle.cu_node.specs.Axes.{axis_of};
ghost use Rattle.cu_node.specs.declared.element_op.ElementOp.{ElementOp};
ghost use Rattle.cu_num.specs.declared.folds.FoldKind.{FoldKind};
ghost use Rattle.cu_num.specs.declared.types.Dtype.{Dtype};
ghost use Rattle.cu_node.specs.declared.info.NodeInfo.{NodeInfo};
ghost use Rattle.cu_typing.specs.Accepted.{IsElementwise, IsAcceptedReduction, IsAcceptedProduct, IsAcceptedCumulative, IsAcceptedGroups};
ghost use Rattle.cu_typing.specs.Along.{typed_cumulative, typed_groups};
ghost use Rattle.cu_typing.specs.Elementwise.{typed_elementwise};
ghost use Rattle.cu_typing.specs.Matmul.{typed_matmul};
ghost use Rattle.cu_typing.specs.Reduction.{ReductionRule, reduced};
ghost use Rattle.cu_typing.specs.declared.argument.Argument.{Argument};

/// What an accepted elementwise function's arguments have passed: the types, the shape, the chunk sizes; each array's shape
/// goes into the result's, and its aligned chunk keeps the limit of bytes.
pub fn elementwise_law()
    ensures { (op : ElementOp) (args : List Argument) (i : NodeInfo) → typed_elementwise op args ≡ Ok i → (t : Dtype) × IsElementwise op args t i }
{}

/// What an accepted reduction's argument has passed; that of `sum` to `all` and of `argmin` and `argmax` is this by their rules.
pub fn reduction_law()
    ensures { (rule : ReductionRule) (axes : Option (List ℤ)) (keepdims : Bool) (i r : NodeInfo) → reduced rule axes keepdims i ≡ Ok r → (marks : List Bool) × IsAcceptedReduction rule axes keepdims i marks r }
{}

/// What the operands of an accepted matrix product have passed.
pub fn matmul_law()
    ensures { (l r i : NodeInfo) → typed_matmul l r ≡ Ok i → (t : Dtype) × ((lead : List ℕ) × IsAcceptedProduct l r t lead i) }
{}

/// What the arguments of an accepted prefix sum and of an accepted reduction by labels have passed.
pub fn along_law()
    ensures cumulative { (axis : Option ℤ) (i r : NodeInfo) → typed_cumulative axis i ≡ Ok r
        → (place : ℕ) × IsAcceptedCumulative axis i place r }
    ensures groups { (kind : FoldKind) (number : ℤ) (groups : ℕ) (i labels r : NodeInfo)
        → typed_groups kind number groups i labels ≡ Ok r
        → (axis : ℕ) × ((axis_of number (length i.dims) ≡ Some axis) × IsAcceptedGroups kind groups axis i labels r) }
{}
