//! Laws of copies: calls that do nothing and whose clauses are the laws.

ghost use Rattle.std.specs.Prelude.{◌≤◌, ◌↔◌, ℕ};
ghost use Rattle.cu_num.specs.Dtype.{size_of};
ghost use Rattle.cu_rechunk.specs.Tiles.{Tiles};
ghost use Rattle.cu_copy.specs.Copies.{IsRechunk, greater_chunk, max_mem, rechunk_need, staging};
ghost use Rattle.cu_copy.specs.declared.copies.Rechunk.{Rechunk};

/// A rechunk keeps within what is allowed exactly where no chunk of it has more bytes than a region may have; and then the regions and the
/// chunks between tile the array.
pub fn copy_law()
    ensures exactly { (allowed reserved : ℕ) (r : Rechunk) → IsRechunk r → (greater_chunk r ≤ max_mem allowed reserved) ↔ (rechunk_need reserved r ≤ allowed) }
    ensures tiles { (most : ℕ) (r : Rechunk) → IsRechunk r → greater_chunk r ≤ most
        → Tiles r.source.dims r.chunk (size_of r.source.dtype) most (staging most r) }
{}
