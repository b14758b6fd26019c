use crate::items::Items;

/// The shape into which an array with as many elements in row-major order is brought (Python array API, "Manipulation Functions":
/// `reshape`, `expand_dims`, `squeeze`).
#[derive(Drop)]
pub enum NewShape {
    /// these sizes, of which one may be -1
    Sizes(Items<i64>),
    /// an axis of size 1 more, which gets this number
    Expanded(i64),
    /// without these axes, each of size 1
    Squeezed(Items<i64>),
}
