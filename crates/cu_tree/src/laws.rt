//! Laws of rounds: calls that do nothing and whose clauses are the laws.

ghost use Rattle.std.specs.Prelude.{◌≡◌, ◌≤◌, ◌^◌, ℕ, length};
ghost use Rattle.cu_num.specs.declared.types.Dtype.{Dtype};
ghost use Rattle.cu_origin.specs.declared.axes.Axes.{Axes};
ghost use Rattle.cu_node.specs.declared.info.NodeInfo.{NodeInfo};
ghost use Rattle.cu_tree.specs.Partials.{first_partial, reduction_rounds, product_partial, product_rounds};
ghost use Rattle.cu_tree.specs.Rounds.{AreRounds};

/// The rounds of a reduction and of a product keep the rule of a round on the arrays of partial results: each takes the lowest reduced axis
/// that has more than one, and at the end none has.
pub fn merges_law()
    ensures reduction { (t : Dtype) (axes : Axes) (split_every : ℕ) (source : NodeInfo) → 2 ≤ split_every → length source.chunk ≡ length source.dims
        → AreRounds axes split_every (first_partial t axes source).dims (reduction_rounds axes split_every source) }
    ensures product { (split_every : ℕ) (left made : NodeInfo) → 2 ≤ split_every
        → AreRounds (record { 0 = 2 ^ length made.dims }) split_every (product_partial left made).dims (product_rounds split_every left made) }
{}
