//! Laws of reductions of regions: calls that do nothing and whose clauses are the laws.
ghost use Rattle.std.specs.Prelude.{ℕ, ℤ, List, map};
ghost use Rattle.cu_shape.specs.Index.{product, place_of, IsInside};
ghost use Rattle.cu_reduce.specs.Folds.{fold_of};
ghost use Rattle.cu_reduce.specs.Groups.{group_indices};
ghost use Rattle.cu_reduce.specs.Kinds.{Accumulates, HasEnough};
ghost use Rattle.cu_reduce.specs.Numbers.{HasNumber};
ghost use Rattle.cu_fold.specs.Strips.{fold_groups, result_sizes, HasFoldedTo};
ghost use Rattle.cu_fold.specs.declared.types.RegionFold.{RegionFold};

/// Where the elements of all places are taken, each result is the exact reduction of its elements, wrapped once: those that
/// `fold_region` makes. Least and greatest numbers want an element on each axis that is reduced.
pub fn strips_law()
    ensures { (fold : RegionFold) (at : ℕ → ℤ) (out : List ℕ) → Accumulates fold.kind fold.from fold.acc → HasEnough fold.kind (fold_groups fold) fold.dims
        → HasFoldedTo fold at (product fold.dims) out
        → (idx : List ℕ) → IsInside (result_sizes fold) idx
        → HasNumber fold.acc out (place_of (result_sizes fold) idx) (fold_of fold.kind (map (λ i. at (place_of fold.dims i)) (group_indices (fold_groups fold) fold.dims idx))) }
{}
