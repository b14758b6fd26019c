//! The laws of keys and of byte orders: calls that do nothing and whose clauses are the laws.
ghost use Rattle.std.specs.Prelude.{◌≡◌, ◌≢◌, ◌+◌, ◌*◌, ◌%◌, ◌<◌, ◌≤◌, ◌^◌, ℕ, ℤ, List, All, length, reverse};
ghost use Rattle.cu_num.specs.Dtype.{size_of};
ghost use Rattle.cu_num.specs.Element.{element_at, element_bytes};
ghost use Rattle.cu_num.specs.declared.types.Dtype.{Dtype as Kind};
ghost use Rattle.cu_num.specs.declared.layout.Encoding.{Encoding as Way};
ghost use Rattle.cu_num.specs.declared.layout.Endian.{Endian as Order};
ghost use Rattle.cu_zarr.specs.Key.{chunk_key_of, metadata_key_of};
ghost use Rattle.cu_codec.specs.Names.{HasNoSlash, IsKeyOf};
ghost use Rattle.cu_codec.specs.Order.{IsSwapped};

/// Different values have different keys: two chunks of one array, a chunk and the metadata, and the values of two arrays
/// with different names that have no slash.
pub fn keys_differ()
    ensures chunks { (name : List ℕ) (encoding : Way) (c d : List ℕ) → All (λ i. i < 2 ^ 64) c → All (λ i. i < 2 ^ 64) d
        → length c ≡ length d → chunk_key_of name encoding c ≡ chunk_key_of name encoding d → c ≡ d }
    ensures metadata { (name : List ℕ) (encoding : Way) (c : List ℕ) → All (λ i. i < 2 ^ 64) c
        → chunk_key_of name encoding c ≢ metadata_key_of name }
    ensures chunk_of_name { (name : List ℕ) (encoding : Way) (c : List ℕ) → IsKeyOf name (chunk_key_of name encoding c) }
    ensures metadata_of_name { (name : List ℕ) → IsKeyOf name (metadata_key_of name) }
    ensures names { (name other key : List ℕ) → HasNoSlash name → HasNoSlash other → IsKeyOf name key → IsKeyOf other key → name ≡ other }
{}

/// Swapped bytes read in one order are the numbers that the bytes were in the other, a number's bytes in one order are the
/// reverse of those in the other, and a second swap gives the first bytes back.
pub fn swap_law()
    ensures twice { (size : ℕ) (a b c : List ℕ) → 0 < size → length a % size ≡ 0 → IsSwapped size a b → IsSwapped size b c → c ≡ a }
    ensures little { (t : Kind) (a b : List ℕ) (at : ℕ) → IsSwapped (size_of t) a b → at * size_of t + size_of t ≤ length a
        → element_at Order.Little t b at ≡ element_at Order.Big t a at }
    ensures big { (t : Kind) (a b : List ℕ) (at : ℕ) → IsSwapped (size_of t) a b → at * size_of t + size_of t ≤ length a
        → element_at Order.Big t b at ≡ element_at Order.Little t a at }
    ensures number { (t : Kind) (x : ℤ) → element_bytes Order.Big t x ≡ reverse (element_bytes Order.Little t x) }
{}
