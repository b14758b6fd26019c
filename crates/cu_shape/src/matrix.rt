//! The axes of an operand of a product of matrices: its last two are a matrix, and one axis alone
//! is a row or a column.

ghost use Rattle.std.specs.Prelude.{◌≡◌, ◌-◌, ◌≤◌, nat_le, length, take, if◌then◌else◌};

use crate::dims::Dims;

impl Dims {
    /// The sizes of the axes before the last two; none where there are at most two.
    pub fn batch(&self) -> Dims
        ensures sizes { result ≡ take (length self.now - 2) self.now }
        ensures short { length result ≤ 4 }
    {
        self.first(self.rank().saturating_sub(2))
    }

    /// How many axes it has besides the inner one and those before the matrix: 1, or 0 where it has
    /// at most one axis.
    pub fn outer_axes(&self) -> u32
        ensures axes { result ≡ (if nat_le 2 (length self.now) then 1 else 0) }
        ensures few { result ≤ 1 }
    {
        if self.rank() >= 2 { 1 } else { 0 }
    }
}
