//! Laws of the definitions: a call that does nothing, and whose clauses are the laws.
ghost use Rattle.std.specs.Prelude.{◌≡◌, ◌↔◌, ℕ, List, Ok};
ghost use Rattle.cu_zarr.specs.Layout.{ArrayLayout};
ghost use Rattle.cu_meta_members.specs.Storable.{IsStorable};
ghost use Rattle.cu_v2.specs.Form.{IsZarray};
ghost use Rattle.cu_v2.specs.Zarray.{zarray_layout};

/// A text is read as a layout exactly where it has the form of a `.zarray` of this layout.
/// An array may be stored in each layout that is read.
pub fn v2_law()
    ensures form { (bytes : List ℕ) (l : ArrayLayout) → (zarray_layout bytes ≡ Ok l) ↔ IsZarray bytes l }
    ensures storable { (bytes : List ℕ) (l : ArrayLayout) → zarray_layout bytes ≡ Ok l → IsStorable l }
{}
