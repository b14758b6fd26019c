//! Laws of the definitions: calls that do nothing and whose clauses are the laws.

ghost use Rattle.std.specs.Prelude.{◌≡◌, ◌≢◌, ◌≤◌, ◌+◌, ◌*◌, ◌⊎◌, ◌↔◌, ◌∷◌, ℕ, Bool, List, None, Some, All, true, false, length, map, slice_get, sum_by};
ghost use Rattle.cu_form.specs.Expression.{Expression, IsExpression};
ghost use Rattle.cu_form.specs.declared.args.Arg.{Arg};
ghost use Rattle.cu_form.specs.declared.expr.Node.{Node};
ghost use Rattle.cu_form.specs.declared.form.Form.{Form};
ghost use Rattle.cu_node.specs.Info.{IsInfo, info_at, chunk_bytes};
ghost use Rattle.cu_node.specs.declared.element_op.ElementOp.{ElementOp};
ghost use Rattle.cu_node.specs.declared.info.NodeInfo.{NodeInfo};
ghost use Rattle.cu_typing.specs.Joined.{aligned_chunk};
ghost use Rattle.cu_need.specs.Chunks.{arrays_in};
ghost use Rattle.cu_copy.specs.Copies.{in_chunks, is_misaligned, rechunk_need};
ghost use Rattle.cu_need.specs.Counts.{over_limit};
ghost use Rattle.cu_need.specs.Elementwise.{are_aligned, in_aligned, own_instructions};
ghost use Rattle.cu_need.specs.Need.{own_need, need_of, first_over, IsTyped, AreWithinLimits, IsLiveNode, IsFirstOver};
ghost use Rattle.cu_need.specs.Reduction.{array_of};
ghost use Rattle.cu_need.specs.Operands.{copies_of};
ghost use Rattle.cu_need.specs.Outline.{outline_of};
ghost use Rattle.cu_tree.specs.Outlines.{outline_bytes};
ghost use Rattle.cu_need.specs.declared.counts.PlanCounts.{PlanCounts};
ghost use Rattle.cu_need.specs.declared.need.NodeNeed.{NodeNeed};
ghost use Rattle.cu_need.specs.Live.{is_live, IsClosed, IsLiveArgument};
ghost use Rattle.cu_shape.specs.Counts.{largest};

use cu_node::info_law;

/// The live nodes are the least set that has the stored node, and with each node its arguments. So each of them is the stored node or
/// an argument of a live one, and none has a number past the stored node's.
pub fn live_law()
    ensures closed { (e : Expression) → IsExpression e → IsClosed e (is_live e) }
    ensures least { (e : Expression) (among : ℕ → Bool) (j : ℕ) → IsClosed e among → is_live e j ≡ true → among j ≡ true }
    ensures reason { (e : Expression) (j : ℕ) → is_live e j ≡ true → (j ≡ e.out) ⊎ IsLiveArgument e j }
    ensures below { (e : Expression) (j : ℕ) → IsExpression e → is_live e j ≡ true → j ≤ e.out }
{}

/// No node is named where each live one needs at most what is allowed, and else the first that needs more, with its need.
pub fn over_law()
    ensures none { (allowed reserved split_every : ℕ) (e : Expression) (infos : List NodeInfo) → (first_over allowed reserved split_every e infos ≡ None) ↔ ((k : ℕ) (node : Node) → IsLiveNode e k node → need_of reserved split_every infos e.out k node.form ≤ allowed) }
    ensures found { (allowed reserved split_every : ℕ) (e : Expression) (infos : List NodeInfo) (found : NodeNeed) → first_over allowed reserved split_every e infos ≡ Some found → IsFirstOver allowed reserved split_every e infos found }
{}

/// An argument is aligned exactly where its chunk shape is that to which it is aligned. Where all are, an elementwise node needs the
/// reserved bytes, its greatest chunk, a chunk of each array and of the result, and 512 bytes for each argument and for each further
/// instruction of the function.
pub fn aligned_law()
    ensures chunk { (result i : NodeInfo) → (is_misaligned (in_aligned result i) ≡ false) ↔ (i.chunk ≡ aligned_chunk result.dims result.chunk i) }
    ensures need { (reserved split_every out k : ℕ) (infos : List NodeInfo) (op : ElementOp) (args : List Arg) → are_aligned (info_at infos k) (arrays_in infos args) ≡ true
        → need_of reserved split_every infos out k (Form.Elementwise op args)
        ≡ reserved + largest (map chunk_bytes (info_at infos k ∷ arrays_in infos args)) + sum_by chunk_bytes (arrays_in infos args) + chunk_bytes (info_at infos k) + 512 * (length args + own_instructions op) }
{}

/// Of each node, whatever its form, the table of needs has the greatest need of its outline; the reserved bytes where it has no operation
/// besides copies.
pub fn outline_law()
    ensures { (reserved split_every k : ℕ) (infos : List NodeInfo) (form : Form) → own_need reserved split_every infos k form ≡ reserved + outline_bytes (outline_of split_every infos k form) }
{}

/// A rechunk needs the reserved bytes and twice the greater of its chunks, and so does an input that is itself stored, whose chunks are its
/// own; any other input needs the reserved bytes alone. Where a node needs at most what is allowed, so does each of its
/// copies.
pub fn copies_law()
    ensures rechunk { (reserved split_every out k : ℕ) (infos : List NodeInfo) (args : List Arg) (chunk : List ℕ)
        → need_of reserved split_every infos out k (Form.Rechunk args chunk) ≡ rechunk_need reserved (in_chunks (array_of infos args 0) (info_at infos k).chunk) }
    ensures stored { (reserved split_every k : ℕ) (infos : List NodeInfo) (name : List ℕ)
        → need_of reserved split_every infos k k (Form.Input name) ≡ reserved + 2 * chunk_bytes (info_at infos k) }
    ensures read { (reserved split_every out k : ℕ) (infos : List NodeInfo) (name : List ℕ) → k ≢ out → need_of reserved split_every infos out k (Form.Input name) ≡ reserved }
    ensures staged { (allowed reserved split_every out k : ℕ) (infos : List NodeInfo) (form : Form) → need_of reserved split_every infos out k form ≤ allowed
        → All (λ r. rechunk_need reserved r ≤ allowed) (copies_of infos out k form) }
{}

/// No limit is exceeded exactly where there are at most 65,536 tasks and at most 262,144 stored chunks.
pub fn counts_law()
    ensures { (c : PlanCounts) → (over_limit c ≡ None) ↔ ((c.tasks ≤ 65536) × (c.cells ≤ 262144)) }
{}

/// Where each array keeps the limits and each node is typed, so do the arrays in the chunks that nodes want.
pub fn typed_law()
    ensures { (e : Expression) (infos : List NodeInfo) → All IsInfo infos → ((k : ℕ) (node : Node) → slice_get e.nodes k ≡ Some node → IsTyped infos k node.form) → AreWithinLimits e infos }
{
    info_law();
}
