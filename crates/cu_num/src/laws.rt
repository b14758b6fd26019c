ghost use Rattle.std.specs.Prelude.{◌≡◌, ◌≢◌, ◌↔◌, ◌⊎◌, Some, None, ℕ, ℤ, pos, ◌-ℤ◌, ◌+◌, ◌*◌, ◌^◌, ◌<◌, ◌≤◌, ◌+ℤ◌, ◌*ℤ◌, List, ◌++◌, length, take, drop};
ghost use Rattle.cu_num.specs.Dtype.{size_of, InRange, IsInteger};
ghost use Rattle.cu_num.specs.TypeName.{type_name, dtype_named};
ghost use Rattle.cu_num.specs.Wrap.{wrapped, IsWrapOf};
ghost use Rattle.cu_num.specs.Word.{word_of, number_of, IsWord};
ghost use Rattle.cu_num.specs.Promotion.{promotion, HasNoPromotion};
ghost use Rattle.cu_num.specs.Division.{floor_quotient, floor_remainder, IsFloorOf};
ghost use Rattle.cu_num.specs.Element.{element_at, element_bytes};
ghost use Rattle.cu_num.specs.declared.types.Dtype.{Dtype};
ghost use Rattle.cu_num.specs.declared.layout.Endian.{Endian};

/// A wrapped number is the only number of the type that the standard allows, and a number of the type is wrapped to itself.
pub fn wrap_law()
    ensures allowed { (t : Dtype) (x : ℤ) → IsWrapOf t x (wrapped t x) }
    ensures only { (t : Dtype) (x r : ℤ) → IsWrapOf t x r → r ≡ wrapped t x }
    ensures range { (t : Dtype) (x : ℤ) → InRange t (wrapped t x) }
    ensures identity { (t : Dtype) (x : ℤ) → InRange t x → wrapped t x ≡ x }
{}

/// Wrapping on the way to a sum or a product changes nothing.
pub fn wrap_arithmetic_law()
    ensures sum { (t : Dtype) (x y : ℤ) → IsInteger t → wrapped t (x +ℤ y) ≡ wrapped t (wrapped t x +ℤ wrapped t y) }
    ensures product { (t : Dtype) (x y : ℤ) → wrapped t (x *ℤ y) ≡ wrapped t (wrapped t x *ℤ wrapped t y) }
{}

/// The word of a number of a type is a word of the type, and wraps to that number alone; in another type it wraps to what the
/// number wraps to.
pub fn word_law()
    ensures word { (t : Dtype) (x : ℤ) → InRange t x → IsWord t (word_of x) x }
    ensures number { (t : Dtype) (w : ℕ) (x : ℤ) → IsWord t w x → number_of t w ≡ x }
    ensures cast { (t from : Dtype) (x : ℤ) → InRange from x → number_of t (word_of x) ≡ wrapped t x }
    ensures fits { (x : ℤ) → word_of x < 2 ^ 64 }
    ensures range { (t : Dtype) (w : ℕ) → InRange t (number_of t w) }
{}

/// A type and its name determine each other.
pub fn type_name_law()
    ensures named { (t : Dtype) → dtype_named (type_name t) ≡ Some t }
    ensures name { (name : List ℕ) (t : Dtype) → dtype_named name ≡ Some t → name ≡ type_name t }
{}

/// An element's bytes have the type's size, and what is read from them is the number that was written, wrapped.
pub fn element_law()
    ensures size { (e : Endian) (t : Dtype) (x : ℤ) → length (element_bytes e t x) ≡ size_of t }
    ensures range { (e : Endian) (t : Dtype) (bytes : List ℕ) (at : ℕ) → InRange t (element_at e t bytes at) }
    ensures read_back { (e : Endian) (t : Dtype) (x : ℤ) → InRange t x → element_at e t (element_bytes e t x) 0 ≡ x }
    ensures own_bytes { (e : Endian) (t : Dtype) (bytes : List ℕ) (at : ℕ) → element_at e t bytes at ≡ element_at e t (take (size_of t) (drop (at * size_of t) bytes)) 0 }
{}

/// A write of one element leaves the number, wrapped, at its place, and each other element as it was.
pub fn element_write_law()
    ensures written { (e : Endian) (t : Dtype) (bytes : List ℕ) (at : ℕ) (x : ℤ) → at * size_of t + size_of t ≤ length bytes
        → element_at e t (take (at * size_of t) bytes ++ element_bytes e t x ++ drop (at * size_of t + size_of t) bytes) at ≡ wrapped t x }
    ensures others { (e : Endian) (t : Dtype) (bytes : List ℕ) (at other : ℕ) (x : ℤ) → other ≢ at → at * size_of t + size_of t ≤ length bytes
        → element_at e t (take (at * size_of t) bytes ++ element_bytes e t x ++ drop (at * size_of t + size_of t) bytes) other ≡ element_at e t bytes other }
{}

/// Promotion has no answer exactly for the refused pairs, does not depend on the order, leaves equal types alone,
/// its type has every number of the two types, and it keeps bools and integers apart.
pub fn promotion_law()
    ensures refused { (a b : Dtype) → (promotion a b ≡ None) ↔ HasNoPromotion a b }
    ensures order { (a b : Dtype) → promotion a b ≡ promotion b a }
    ensures equal { (t : Dtype) → promotion t t ≡ Some t }
    ensures range { (a b t : Dtype) → promotion a b ≡ Some t → (x : ℤ) → InRange a x → InRange t x }
    ensures apart { (a b t : Dtype) → promotion a b ≡ Some t → ((a ≡ Dtype.Bool) × (b ≡ Dtype.Bool) × (t ≡ Dtype.Bool)) ⊎ (IsInteger a × IsInteger b × IsInteger t) }
{}

/// The rounded quotient is the greatest whole number at most `x / y`, and the remainder is what it leaves; both are 0 where `y` is 0.
pub fn floor_division_law()
    ensures floor { (x y : ℤ) → y ≢ pos 0 → IsFloorOf x y (floor_quotient x y) }
    ensures rest { (x y : ℤ) → y ≢ pos 0 → floor_remainder x y ≡ x -ℤ y *ℤ floor_quotient x y }
    ensures by_zero { (x : ℤ) → (floor_quotient x (pos 0) ≡ pos 0) × (floor_remainder x (pos 0) ≡ pos 0) }
{}
