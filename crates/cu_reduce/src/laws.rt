//! Laws of reductions: calls that do nothing and whose clauses are the laws.

ghost use Rattle.std.specs.Prelude.{◌≡◌, ◌↔◌, ◌<◌, ◌++◌, ℕ, ℤ, pos, Bool, List, [], length, map, All, Option, None, Some, if◌then◌else◌};
ghost use Rattle.cu_num.specs.Wrap.{wrapped};
ghost use Rattle.cu_num.specs.declared.folds.FoldKind.{FoldKind};
ghost use Rattle.cu_num.specs.declared.types.Dtype.{Dtype};
ghost use Rattle.cu_reduce.specs.Folds.{fold_of, least_of, greatest_of, reduced_to};
ghost use Rattle.cu_reduce.specs.Kinds.{unit_of, combined, Accumulates, IsTaken};
ghost use Rattle.cu_reduce.specs.Parts.{part_start, Rises, part_indices, IsBetween};
ghost use Rattle.cu_reduce.specs.Places.{Found, better_of_some, best_of, IsBest, best_place, numbered, best_in};
ghost use Rattle.cu_reduce.specs.Regions.{region_indices};
ghost use Rattle.cu_reduce.specs.Running.{running, IsEnough};

/// The combinations of each kind are a commutative monoid, and wrapping on the way changes nothing. Least and greatest numbers are
/// never wrapped: there the numbers lie in the range of the type.
pub fn combination_law()
    ensures associative { (kind : FoldKind) (x y z : ℤ) → combined kind (combined kind x y) z ≡ combined kind x (combined kind y z) }
    ensures commutative { (kind : FoldKind) (x y : ℤ) → combined kind x y ≡ combined kind y x }
    ensures unit { (kind : FoldKind) (t acc : Dtype) (x : ℤ) → Accumulates kind t acc → IsTaken kind acc x → wrapped acc (combined kind (unit_of kind acc) x) ≡ wrapped acc x }
    ensures wrap { (kind : FoldKind) (t acc : Dtype) (x y : ℤ) → Accumulates kind t acc → IsTaken kind acc x → IsTaken kind acc y
        → wrapped acc (combined kind (wrapped acc x) (wrapped acc y)) ≡ wrapped acc (combined kind x y) }
{}

/// What is made of a list is the combination of what is made of its parts, in any order, wrapped on the way or not; and it is what a
/// loop makes that combines one number at a time, from the unit on or from a number that stands there.
pub fn fold_law()
    ensures concatenation { (kind : FoldKind) (xs ys : List ℤ) → IsEnough kind (length xs) → IsEnough kind (length ys)
        → fold_of kind (xs ++ ys) ≡ combined kind (fold_of kind xs) (fold_of kind ys) }
    ensures wrap { (kind : FoldKind) (t acc : Dtype) (xs ys : List ℤ) → Accumulates kind t acc → IsEnough kind (length xs) → IsEnough kind (length ys)
        → All (IsTaken kind acc) xs → All (IsTaken kind acc) ys
        → wrapped acc (fold_of kind (xs ++ ys)) ≡ wrapped acc (combined kind (wrapped acc (fold_of kind xs)) (wrapped acc (fold_of kind ys))) }
    ensures turned { (kind : FoldKind) (xs ys : List ℤ) → fold_of kind (xs ++ ys) ≡ fold_of kind (ys ++ xs) }
    ensures taken { (kind : FoldKind) (acc : Dtype) (xs : List ℤ) → IsEnough kind (length xs) → All (IsTaken kind acc) xs → IsTaken kind acc (fold_of kind xs) }
    ensures more { (kind : FoldKind) (acc : Dtype) (first : ℤ) (xs ys : List ℤ) → running kind acc first (xs ++ ys) ≡ running kind acc (running kind acc first xs) ys }
    ensures running { (kind : FoldKind) (t acc : Dtype) (first : ℤ) (xs : List ℤ) → Accumulates kind t acc → IsEnough kind (length xs) → IsTaken kind acc first
        → All (IsTaken kind acc) xs → wrapped acc (running kind acc first xs) ≡ wrapped acc (combined kind first (fold_of kind xs)) }
    ensures whole { (kind : FoldKind) (t acc : Dtype) (xs : List ℤ) → Accumulates kind t acc → IsEnough kind (length xs) → All (IsTaken kind acc) xs
        → running kind acc (unit_of kind acc) xs ≡ wrapped acc (fold_of kind xs) }
{}

/// The best of a list is the better of the bests of its parts, in any order: places decide among equal numbers. It is what stands at
/// the first place of the least or of the greatest number.
pub fn best_law()
    ensures concatenation { (least : Bool) (xs ys : List Found) → best_of least (xs ++ ys) ≡ better_of_some least (best_of least xs) (best_of least ys) }
    ensures associative { (least : Bool) (a b c : Option Found) → better_of_some least (better_of_some least a b) c ≡ better_of_some least a (better_of_some least b c) }
    ensures commutative { (least : Bool) (a b : Option Found) → better_of_some least a b ≡ better_of_some least b a }
    ensures none { (least : Bool) (xs : List Found) → (best_of least xs ≡ None) ↔ (xs ≡ []) }
    ensures best { (least : Bool) (xs : List Found) (best : Found) → (best_of least xs ≡ Some best) ↔ IsBest least xs best }
    ensures first { (least : Bool) (xs : List ℤ) → 0 < length xs
        → best_of least (numbered 0 xs) ≡ Some (record { value = if least then least_of xs else greatest_of xs; place = pos (best_place least xs) }) }
{}

/// What is made of what is made of the parts of a region is what is made of the whole region, however it is cut into parts along its
/// axes. For least and greatest numbers and for places no part is empty, and the numbers lie in the range of the type.
pub fn rounds_law()
    ensures kinds { (kind : FoldKind) (t acc : Dtype) (cuts : List (ℕ → ℕ)) (lo hi : List ℕ) (f : List ℕ → Option ℤ) → Accumulates kind t acc
        → Rises cuts → length lo ≡ length cuts → length hi ≡ length cuts
        → ((p : List ℕ) → IsBetween lo hi p → IsEnough kind (length (part_indices cuts p)))
        → ((i : List ℕ) (x : ℤ) → IsBetween (part_start cuts lo) (part_start cuts hi) i → f i ≡ Some x → IsTaken kind acc x)
        → reduced_to kind acc (map (λ p. reduced_to kind acc (map f (part_indices cuts p))) (region_indices lo hi))
        ≡ reduced_to kind acc (map f (region_indices (part_start cuts lo) (part_start cuts hi))) }
    ensures places { (least : Bool) (cuts : List (ℕ → ℕ)) (lo hi : List ℕ) (f : List ℕ → Option Found)
        → Rises cuts → length lo ≡ length cuts → length hi ≡ length cuts
        → ((p : List ℕ) → IsBetween lo hi p → 0 < length (part_indices cuts p))
        → best_in least (map (λ p. best_in least (map f (part_indices cuts p))) (region_indices lo hi))
        ≡ best_in least (map f (region_indices (part_start cuts lo) (part_start cuts hi))) }
{}
