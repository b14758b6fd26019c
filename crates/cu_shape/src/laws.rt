//! Laws of places and indices: calls that do nothing and whose clauses are the laws.

ghost use Rattle.std.specs.Prelude.{◌≡◌, ◌<◌, ℕ, List, None};
ghost use Rattle.cu_shape.specs.Index.{product, place_of, index_at, IsInside, back};
ghost use Rattle.cu_shape.specs.Broadcast.{broadcast_of, mismatch_of};

/// Places and indices of an array tell one another: each index inside has a place below the number
/// of elements, each such place has an index inside, and the two are inverse.
pub fn places_and_indices()
    ensures below { (ds is : List ℕ) → IsInside ds is → place_of ds is < product ds }
    ensures inside { (ds : List ℕ) (p : ℕ) → p < product ds → IsInside ds (index_at ds p) }
    ensures place { (ds : List ℕ) (p : ℕ) → p < product ds → place_of ds (index_at ds p) ≡ p }
    ensures index { (ds is : List ℕ) → IsInside ds is → index_at ds (place_of ds is) ≡ is }
{}

/// Through broadcasting, an index inside the result reads an index inside each of the two arrays.
pub fn broadcasting_reads_inside()
    ensures left { (a b idx : List ℕ) → mismatch_of a b ≡ None → IsInside (broadcast_of a b) idx → IsInside a (back a idx) }
    ensures right { (a b idx : List ℕ) → mismatch_of a b ≡ None → IsInside (broadcast_of a b) idx → IsInside b (back b idx) }
{}
