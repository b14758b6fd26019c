//! Laws of the definitions: calls that do nothing, and whose clauses are the laws.
ghost use Rattle.std.specs.Prelude.{◌≡◌, ℕ, List, Ok};
ghost use Rattle.cu_zarr.specs.Layout.{ArrayLayout};
ghost use Rattle.cu_zarr.specs.Metadata.{metadata_text};
ghost use Rattle.cu_meta.specs.Metadata.{read_metadata};
ghost use Rattle.cu_meta.specs.Said.{IsMetadataOf};
ghost use Rattle.cu_meta_members.specs.Storable.{IsStorable};

/// The written metadata of a layout in which an array may be stored is read back as that layout.
/// Each layout that is read is one, and two of them have two written texts. A text is read as a layout exactly where its members
/// say this layout, each by itself.
pub fn meta_law()
    ensures read_back { (l : ArrayLayout) → IsStorable l → read_metadata (metadata_text l) ≡ Ok l }
    ensures storable { (bytes : List ℕ) (l : ArrayLayout) → read_metadata bytes ≡ Ok l → IsStorable l }
    ensures accepted { (bytes : List ℕ) (l : ArrayLayout) → read_metadata bytes ≡ Ok l → IsMetadataOf bytes l }
    ensures said { (bytes : List ℕ) (l : ArrayLayout) → IsMetadataOf bytes l → read_metadata bytes ≡ Ok l }
    ensures told_apart { (l m : ArrayLayout) → IsStorable l → IsStorable m → metadata_text l ≡ metadata_text m → l ≡ m }
{}
