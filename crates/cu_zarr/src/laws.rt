//! Laws of the definitions.
ghost use Rattle.std.specs.Prelude.{◌≡◌, ℤ, List, ℕ, Option, Some, length};
ghost use Rattle.cu_num.specs.Dtype.{InRange};
ghost use Rattle.cu_shape.specs.Index.{IsInside, quotients, remainders};
ghost use Rattle.cu_zarr.specs.Layout.{ArrayLayout, stored_chunk_bytes};
ghost use Rattle.cu_zarr.specs.Spelling.{spelled};
ghost use Rattle.cu_zarr.specs.Stored.{element_in};

/// A chunk that is spelled has the bytes of a chunk, and the elements read back from it are those that it spells.
pub fn spelling_law()
    ensures full { (l : ArrayLayout) (f : List ℕ → Option ℤ) (coord bytes : List ℕ) → spelled l f coord ≡ Some bytes → length bytes ≡ stored_chunk_bytes l }
    ensures elements { (l : ArrayLayout) (f : List ℕ → Option ℤ) (idx bytes : List ℕ) (x : ℤ)
        → spelled l f (quotients idx l.chunk) ≡ Some bytes → length idx ≡ length l.chunk → IsInside l.chunk (remainders idx l.chunk) → IsInside l.shape idx
        → f idx ≡ Some x → InRange l.dtype x → element_in l (Some bytes) idx ≡ Some x }
{}
