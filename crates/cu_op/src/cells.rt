use cu_shape::Dims;

/// A chunk of an array of a plan.
#[derive(Clone, Copy, PartialEq, Eq, Debug)]
pub struct Cell {
    /// The number of the array in the plan.
    pub array: u32,
    /// The coordinate of the chunk in the array's grid.
    pub coord: Dims,
}
