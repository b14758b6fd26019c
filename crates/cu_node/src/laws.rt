//! Laws of what is known of a node: calls that do nothing and whose clauses are the laws.

ghost use Rattle.std.specs.Prelude.{◌≡◌, ◌<◌, ◌↔◌, ℕ, ℤ, List, Bool, true, Ok, All, IsTrue, length};
ghost use Rattle.cu_num.specs.Dtype.{IsInteger, InRange};
ghost use Rattle.cu_num.specs.declared.types.Dtype.{Dtype};
ghost use Rattle.cu_node.specs.Info.{IsInfo, info_of, info_at};
ghost use Rattle.cu_node.specs.Limited.{limited_beside};
ghost use Rattle.cu_node.specs.Types.{is_integer, in_range};
ghost use Rattle.cu_node.specs.declared.info.NodeInfo.{NodeInfo};

/// What passes the limits is the array of the type, shape and chunk shape that were given, and keeps them.
pub fn limits_law()
    ensures array { (beside : Bool) (t : Dtype) (shape chunk : List ℕ) (i : NodeInfo) → limited_beside beside t shape chunk ≡ Ok i → i ≡ info_of t shape chunk }
    ensures beside { (beside : Bool) (t : Dtype) (shape chunk : List ℕ) (i : NodeInfo) → limited_beside beside t shape chunk ≡ Ok i → beside ≡ true }
    ensures kept { (beside : Bool) (t : Dtype) (shape chunk : List ℕ) (i : NodeInfo) → length chunk ≡ length shape → All (λ c. 0 < c) chunk → limited_beside beside t shape chunk ≡ Ok i → IsInfo i }
{}

/// The tests of a type and of a number say what the standard says.
pub fn types_law()
    ensures integer { (t : Dtype) → IsTrue (is_integer t) ↔ IsInteger t }
    ensures range { (t : Dtype) (x : ℤ) → IsTrue (in_range t x) ↔ InRange t x }
{}

/// Where each array keeps the limits, so does the one of any number; of no node it is one that does.
pub fn info_law()
    ensures kept { (infos : List NodeInfo) (k : ℕ) → All IsInfo infos → IsInfo (info_at infos k) }
{}
