//! Laws of grids: calls that do nothing and whose clauses are the laws.

ghost use Rattle.std.specs.Prelude.{◌≡◌, ℕ, List};
ghost use Rattle.cu_shape.specs.Index.{IsInside, quotients, remainders};
ghost use Rattle.cu_grid.specs.Grid.{RegularGrid, IsGrid, IsCoordinate, IsInChunk};

/// The chunks part the array: each index inside lies in the chunk of its quotients by the chunk
/// sizes and in no other, its remainders are its index in the chunk, and what lies in a chunk lies
/// in the array.
pub fn one_chunk_each()
    ensures coordinate { (g : RegularGrid) (idx : List ℕ) → IsGrid g → IsInside g.shape idx → IsCoordinate g (quotients idx g.chunk) }
    ensures within { (g : RegularGrid) (idx : List ℕ) → IsGrid g → IsInside g.shape idx → IsInChunk g (quotients idx g.chunk) idx }
    ensures inner { (g : RegularGrid) (idx : List ℕ) → IsGrid g → IsInside g.shape idx → IsInside g.chunk (remainders idx g.chunk) }
    ensures only { (g : RegularGrid) (coord idx : List ℕ) → IsGrid g → IsCoordinate g coord → IsInChunk g coord idx → coord ≡ quotients idx g.chunk }
    ensures array { (g : RegularGrid) (coord idx : List ℕ) → IsGrid g → IsCoordinate g coord → IsInChunk g coord idx → IsInside g.shape idx }
{}
