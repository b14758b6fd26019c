//! Laws of the steps: calls that do nothing and whose clauses are the laws.

ghost use Rattle.std.specs.Prelude.{◌≡◌, ◌<◌, ◌+◌, ◌∷◌, ◌++◌, [], true, ℕ, ℤ, List, All, Some, filter, length, map, slice_index, sum_by};
ghost use Rattle.cu_copy.specs.Copies.{is_misaligned, rechunk_cells, rechunk_tasks, rechunked};
ghost use Rattle.cu_copy.specs.declared.copies.Rechunk.{Rechunk};
ghost use Rattle.cu_node.specs.declared.info.NodeInfo.{NodeInfo};
ghost use Rattle.cu_num.specs.Dtype.{InRange};
ghost use Rattle.cu_num.specs.declared.types.Dtype.TheVariants.{Int64};
ghost use Rattle.cu_num.specs.declared.folds.FoldKind.TheVariants.{Sum};
ghost use Rattle.cu_shape.specs.Index.{IsInside};
ghost use Rattle.cu_reduce.specs.Folds.{reduced_to};
ghost use Rattle.cu_reduce.specs.Labels.{grouped_to};
ghost use Rattle.cu_reduce.specs.Places.{best_in};
ghost use Rattle.cu_reduce.specs.Prefix.{cumulative, line_through};
ghost use Rattle.cu_op.specs.Elements.{Elements};
ghost use Rattle.cu_op.specs.Places.{counted_at, pair_part};
ghost use Rattle.cu_op.specs.declared.layout.ArrayInfo.{ArrayInfo};
ghost use Rattle.cu_tree.specs.Marks.{sought_axes};
ghost use Rattle.cu_tree.specs.Outlines.{cumulative_outline, product_outline, reduction_outline, search_outline};
ghost use Rattle.cu_lower_reduce.specs.Copies.{aligned_places, aligned_steps, copy_steps, AreCopies, AreOperands, IsStaged};
ghost use Rattle.cu_lower_reduce.specs.Cumulative.{cumulative_steps, IsCumulative};
ghost use Rattle.cu_lower_reduce.specs.Grouped.{grouped_steps, labelled_line, IsGrouped};
ghost use Rattle.cu_lower_reduce.specs.Partials.{IsSetting};
ghost use Rattle.cu_lower_reduce.specs.Products.{product_steps, inner_products, IsProduct};
ghost use Rattle.cu_lower_reduce.specs.Reductions.{reduction_steps, reduced_indices, IsReduction};
ghost use Rattle.cu_lower_reduce.specs.Searches.{search_steps, IsSearch};
ghost use Rattle.cu_lower_reduce.specs.Steps.{HasInfo, HaveEach, HaveInfos, IsGiven, all_made, AreSteps, SolveSteps, last_made, ComeTo};
ghost use Rattle.cu_lower_reduce.specs.declared.copy.CopySetting.{CopySetting};
ghost use Rattle.cu_lower_reduce.specs.declared.cumulative.Cumulative.{Cumulative};
ghost use Rattle.cu_lower_reduce.specs.declared.grouped.Grouped.{Grouped};
ghost use Rattle.cu_lower_reduce.specs.declared.product.Product.{Product};
ghost use Rattle.cu_lower_reduce.specs.declared.reduction.Reduction.{Reduction};
ghost use Rattle.cu_lower_reduce.specs.declared.search.Search.{Search};
ghost use Rattle.cu_lower_reduce.specs.declared.step.Setting.{Setting};
ghost use Rattle.cu_node.specs.Info.{chunk_bytes};

use cu_along::array_law;

/// Over any arrays of a plan in which the source and the arrays of its steps stand, the steps of a reduction keep what steps keep. Their
/// last array is the node's own, and each of its elements is what is made of all elements of the source along the reduced axes, where
/// these lie in the range of the source's type.
pub fn reduction_law()
    ensures steps { (arrays : List ArrayInfo) (s : Setting) (x : Reduction) → IsSetting s → IsReduction x → HasInfo arrays x.source x.from → HaveInfos arrays s.first (all_made (reduction_steps s x))
        → AreSteps arrays s.reserved (x.source ∷ []) s.first s.first (reduction_steps s x) }
    ensures last { (arrays : List ArrayInfo) (s : Setting) (x : Reduction) → HaveInfos arrays s.first (all_made (reduction_steps s x)) → HasInfo arrays (last_made s.first (reduction_steps s x)) x.made }
    ensures sizes { (s : Setting) (x : Reduction) → IsSetting s → IsReduction x
        → ComeTo s.reserved (reduction_outline s.split_every x.made x.from x.axes) x.made (reduction_steps s x) }
    ensures value { (arrays : List ArrayInfo) (at : Elements) (s : Setting) (x : Reduction) → IsSetting s → IsReduction x → HasInfo arrays x.source x.from → HaveInfos arrays s.first (all_made (reduction_steps s x))
        → SolveSteps arrays at (reduction_steps s x) → ((i : List ℕ) (y : ℤ) → IsInside x.from.dims i → at x.source i ≡ Some y → InRange x.from.dtype y)
        → (idx : List ℕ) → IsInside x.made.dims idx
        → at (last_made s.first (reduction_steps s x)) idx ≡ reduced_to x.kind x.made.dtype (map (at x.source) (reduced_indices x.axes x.from.dims x.made.dims idx)) }
{}

/// The same of a product of matrices, whose arguments are two operands: each element is the sum of the products over all inner places.
pub fn product_law()
    ensures steps { (arrays : List ArrayInfo) (s : Setting) (x : Product) → IsSetting s → IsProduct x → HasInfo arrays x.left x.left_info → HasInfo arrays x.right x.right_info
        → HaveInfos arrays s.first (all_made (product_steps s x)) → AreSteps arrays s.reserved (x.left ∷ x.right ∷ []) s.first s.first (product_steps s x) }
    ensures last { (arrays : List ArrayInfo) (s : Setting) (x : Product) → HaveInfos arrays s.first (all_made (product_steps s x)) → HasInfo arrays (last_made s.first (product_steps s x)) x.made }
    ensures sizes { (s : Setting) (x : Product) → IsSetting s → IsProduct x
        → ComeTo s.reserved (product_outline s.split_every x.made x.left_info (chunk_bytes x.left_info) (chunk_bytes x.right_info)) x.made (product_steps s x) }
    ensures value { (arrays : List ArrayInfo) (at : Elements) (s : Setting) (x : Product) → IsSetting s → IsProduct x → HasInfo arrays x.left x.left_info → HasInfo arrays x.right x.right_info
        → HaveInfos arrays s.first (all_made (product_steps s x)) → SolveSteps arrays at (product_steps s x)
        → (idx : List ℕ) → IsInside x.made.dims idx
        → at (last_made s.first (product_steps s x)) idx ≡ reduced_to Sum x.made.dtype (inner_products x (at x.left) (at x.right) idx) }
{}

/// The same of a fold by labels, whose arguments are the source and the labels: each element is what is made of the elements of its label
/// along the whole axis, where the source's lie in the range of its type.
pub fn grouped_law()
    ensures steps { (arrays : List ArrayInfo) (s : Setting) (x : Grouped) → IsSetting s → IsGrouped x → HasInfo arrays x.source x.source_info → HasInfo arrays x.labels x.labels_info
        → HaveInfos arrays s.first (all_made (grouped_steps s x)) → AreSteps arrays s.reserved (x.source ∷ x.labels ∷ []) s.first s.first (grouped_steps s x) }
    ensures last { (arrays : List ArrayInfo) (s : Setting) (x : Grouped) → HaveInfos arrays s.first (all_made (grouped_steps s x)) → HasInfo arrays (last_made s.first (grouped_steps s x)) x.made }
    ensures sizes { (s : Setting) (x : Grouped) → IsSetting s → IsGrouped x
        → ComeTo s.reserved (product_outline s.split_every x.made x.labels_info (chunk_bytes x.source_info) (chunk_bytes x.labels_info)) x.made (grouped_steps s x) }
    ensures value { (arrays : List ArrayInfo) (at : Elements) (s : Setting) (x : Grouped) → IsSetting s → IsGrouped x → HasInfo arrays x.source x.source_info → HasInfo arrays x.labels x.labels_info
        → HaveInfos arrays s.first (all_made (grouped_steps s x)) → SolveSteps arrays at (grouped_steps s x)
        → ((i : List ℕ) (y : ℤ) → IsInside x.source_info.dims i → at x.source i ≡ Some y → InRange x.source_info.dtype y)
        → (idx : List ℕ) → IsInside x.made.dims idx
        → at (last_made s.first (grouped_steps s x)) idx ≡ grouped_to x.kind x.made.dtype (slice_index idx x.axis) (labelled_line x (at x.source) (at x.labels) idx) }
{}

/// The same of a search for places, whose last array is that of the places: each element is the first place of the least or the greatest
/// element of the source along the axes that are sought. The chunks that are stored are those of the values too.
pub fn search_law()
    ensures steps { (arrays : List ArrayInfo) (s : Setting) (x : Search) → IsSetting s → IsSearch x → HasInfo arrays x.source x.from → HaveInfos arrays s.first (all_made (search_steps s x))
        → AreSteps arrays s.reserved (x.source ∷ []) s.first s.first (search_steps s x) }
    ensures last { (arrays : List ArrayInfo) (s : Setting) (x : Search) → HaveInfos arrays s.first (all_made (search_steps s x)) → HasInfo arrays (last_made s.first (search_steps s x)) x.made }
    ensures sizes { (s : Setting) (x : Search) → IsSetting s → IsSearch x
        → ComeTo s.reserved (search_outline s.split_every x.made x.from (sought_axes x.axis)) x.made (search_steps s x) }
    ensures value { (arrays : List ArrayInfo) (at : Elements) (s : Setting) (x : Search) → IsSetting s → IsSearch x → HasInfo arrays x.source x.from → HaveInfos arrays s.first (all_made (search_steps s x))
        → SolveSteps arrays at (search_steps s x) → (idx : List ℕ) → IsInside x.made.dims idx
        → at (last_made s.first (search_steps s x)) idx
        ≡ pair_part true (best_in x.least (map (counted_at x.from.dims x.axis (at x.source)) (reduced_indices (sought_axes x.axis) x.from.dims x.made.dims idx))) }
{}

/// The same of prefix sums along an axis, whose source has a lower number than the arrays of the steps: each element of the last array is the
/// sum of all elements of the source up to its place on the axis, wrapped once, whatever the chunks and the size of groups.
pub fn cumulative_law()
    ensures steps { (arrays : List ArrayInfo) (s : Setting) (x : Cumulative) → IsSetting s → IsCumulative x → x.source < s.first → HasInfo arrays x.source x.from → HaveInfos arrays s.first (all_made (cumulative_steps s x))
        → AreSteps arrays s.reserved (x.source ∷ []) s.first s.first (cumulative_steps s x) }
    ensures last { (arrays : List ArrayInfo) (s : Setting) (x : Cumulative) → HaveInfos arrays s.first (all_made (cumulative_steps s x)) → HasInfo arrays (last_made s.first (cumulative_steps s x)) x.made }
    ensures sizes { (s : Setting) (x : Cumulative) → IsSetting s → IsCumulative x
        → ComeTo s.reserved (cumulative_outline s.split_every x.made x.from x.axis) x.made (cumulative_steps s x) }
    ensures value { (arrays : List ArrayInfo) (at : Elements) (s : Setting) (x : Cumulative) → IsSetting s → IsCumulative x → HasInfo arrays x.source x.from → HaveInfos arrays s.first (all_made (cumulative_steps s x))
        → SolveSteps arrays at (cumulative_steps s x) → (idx : List ℕ) → IsInside x.made.dims idx
        → at (last_made s.first (cumulative_steps s x)) idx ≡ cumulative x.made.dtype (line_through (at x.source) x.axis idx) (slice_index idx x.axis) }
{
    array_law();
}

/// Over any arrays of a plan in which the source and the arrays of the copies stand, the copies of a rechunk keep what steps keep. Each
/// needs at most a chunk and a region of the greatest size, they have as many tasks and chunks as are counted, and their last array has the
/// elements of the source in the chunks that are wanted.
pub fn rechunk_law()
    ensures steps { (arrays : List ArrayInfo) (s : CopySetting) (source : ℕ) (r : Rechunk) → IsStaged s r → HasInfo arrays source r.source → HaveInfos arrays s.first (all_made (copy_steps s source r))
        → AreSteps arrays s.reserved (source ∷ []) s.first s.first (copy_steps s source r) }
    ensures last { (arrays : List ArrayInfo) (s : CopySetting) (source : ℕ) (r : Rechunk) → HaveInfos arrays s.first (all_made (copy_steps s source r)) → HasInfo arrays (last_made s.first (copy_steps s source r)) (rechunked r) }
    ensures ends { (s : CopySetting) (source : ℕ) (r : Rechunk) → (rest : List NodeInfo) × (all_made (copy_steps s source r) ≡ rest ++ rechunked r ∷ []) }
    ensures sizes { (s : CopySetting) (source : ℕ) (r : Rechunk) → IsStaged s r
        → AreCopies s 1 (rechunk_tasks s.most r) (rechunk_cells s.most r) (copy_steps s source r) }
    ensures value { (arrays : List ArrayInfo) (at : Elements) (s : CopySetting) (source : ℕ) (r : Rechunk) → SolveSteps arrays at (copy_steps s source r)
        → (idx : List ℕ) → at (last_made s.first (copy_steps s source r)) idx ≡ at source idx }
{}

/// The same of the arrays that an operation reads in chunks that it tells: those that have other chunks are copied, by at most two copies
/// each, and each array that is then read has the chunks that are wanted, the elements of its source, and is given or made by the copies.
pub fn operands_law()
    ensures steps { (arrays : List ArrayInfo) (s : CopySetting) (sources : List ℕ) (rs : List Rechunk) → AreOperands s rs → HaveEach arrays sources (map (λ r. r.source) rs)
        → HaveInfos arrays s.first (all_made (aligned_steps s sources rs)) → AreSteps arrays s.reserved sources s.first s.first (aligned_steps s sources rs) }
    ensures places { (arrays : List ArrayInfo) (s : CopySetting) (sources : List ℕ) (rs : List Rechunk) → HaveEach arrays sources (map (λ r. r.source) rs)
        → HaveInfos arrays s.first (all_made (aligned_steps s sources rs)) → HaveEach arrays (aligned_places s sources rs) (map rechunked rs) }
    ensures given { (s : CopySetting) (sources : List ℕ) (rs : List Rechunk) → length sources ≡ length rs
        → All (IsGiven sources s.first (s.first + length (all_made (aligned_steps s sources rs)))) (aligned_places s sources rs) }
    ensures sizes { (s : CopySetting) (sources : List ℕ) (rs : List Rechunk) → AreOperands s rs → length sources ≡ length rs
        → AreCopies s (length (filter is_misaligned rs)) (sum_by (rechunk_tasks s.most) (filter is_misaligned rs)) (sum_by (rechunk_cells s.most) (filter is_misaligned rs)) (aligned_steps s sources rs) }
    ensures value { (arrays : List ArrayInfo) (at : Elements) (s : CopySetting) (sources : List ℕ) (rs : List Rechunk) (j : ℕ) → length sources ≡ length rs → j < length rs
        → SolveSteps arrays at (aligned_steps s sources rs) → (idx : List ℕ) → at (slice_index (aligned_places s sources rs) j) idx ≡ at (slice_index sources j) idx }
{}
