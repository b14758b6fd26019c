//! Laws of the typing of views: calls that do nothing and whose clauses are the laws.
ghost use Rattle.std.specs.Prelude.{◌≡◌, ◌<◌, ◌≤◌, ◌↔◌, ◌+ℤ◌, ◌*ℤ◌, ◌<ℤ◌, pos, negsuc, ℕ, ℤ, List, Option, None, Ok, true, count_by, int_lt, IsTrue};
ghost use Rattle.cu_shape.specs.Broadcast.{broadcast_of, mismatch_of};
ghost use Rattle.cu_shape.specs.Index.{product};
ghost use Rattle.cu_shape.specs.Slice.{count_of, start_of, stop_of};
ghost use Rattle.cu_node.specs.NewShape.{is_new_shape};
ghost use Rattle.cu_node.specs.declared.info.NodeInfo.{NodeInfo};
ghost use Rattle.cu_node.specs.declared.new_shape.NewShape.{NewShape};
ghost use Rattle.cu_typing_view.specs.Creation.{arange_count, arange_element};
ghost use Rattle.cu_typing_view.specs.NewShapes.{typed_new_shape};
ghost use Rattle.cu_typing_view.specs.Reshaped.{can_hold, reshaped_sizes, stretches_to};

/// The numbers of a range are exactly those that come before its stop, and the indices of a slice exactly those that come
/// before its clipped stop, in the direction of the step (Python array API, `arange`; `slice.indices` of Python's reference).
pub fn counts_law()
    ensures range_up { (start stop : ℤ) (s k : ℕ) → 0 < s → (k < arange_count start stop (pos s)) ↔ (arange_element start (pos s) k <ℤ stop) }
    ensures range_down { (start stop : ℤ) (s k : ℕ) → (k < arange_count start stop (negsuc s)) ↔ (stop <ℤ arange_element start (negsuc s) k) }
    ensures slice_up { (start stop : Option ℤ) (s n k : ℕ) → 0 < s → (k < count_of start stop (pos s) n) ↔ ((start_of start (pos s) n +ℤ pos k *ℤ pos s) <ℤ stop_of stop (pos s) n) }
    ensures slice_down { (start stop : Option ℤ) (s n k : ℕ) → (k < count_of start stop (negsuc s) n) ↔ (stop_of stop (negsuc s) n <ℤ (start_of start (negsuc s) n +ℤ pos k *ℤ negsuc s)) }
{}

/// An array is accepted by `broadcast_to` exactly where broadcasting it with the shape gives the shape (Python array API).
pub fn broadcast_law()
    ensures { (a shape : List ℕ) → IsTrue (stretches_to a shape) ↔ ((mismatch_of a shape ≡ None) × (broadcast_of a shape ≡ shape)) }
{}

/// A shape that `reshape` accepts has as many elements as the array.
pub fn reshape_law()
    ensures { (count : ℕ) (shape : List ℤ) → count_by (λ n. int_lt n (pos 0)) shape ≤ 1 → can_hold count shape ≡ true → product (reshaped_sizes count shape) ≡ count }
{}

/// An array in a new shape has the type and as many elements.
pub fn new_shape_law()
    ensures count { (a i : NodeInfo) (shape : NewShape) → is_new_shape shape ≡ true → typed_new_shape a shape ≡ Ok i → product a.dims ≡ product i.dims }
    ensures same_type { (a i : NodeInfo) (shape : NewShape) → typed_new_shape a shape ≡ Ok i → i.dtype ≡ a.dtype }
{}
