/// An entry of an index (Python array API, "Indexing": multi-axis indexing).
#[derive(Clone, Copy, Debug, PartialEq, Eq)]
pub enum IndexItem {
    /// the one place on the axis; a negative one counts from the end
    At(i64),
    /// the places of a slice, as Python's `slice(start, stop, step)`
    Slice {
        start: Option<i64>,
        stop: Option<i64>,
        step: Option<i64>,
    },
    /// a new axis of size 1, as Python's `None`
    New,
    /// full slices of the axes that no entry takes, as Python's `...`
    Ellipsis,
}
