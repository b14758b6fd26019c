use cu_shape::Dims;

/// Where an element of a result comes from.
#[derive(Clone, Copy, Debug)]
pub enum Provenance {
    /// It is the element of one of the sources.
    From {
        /// The source, by its place among the sources.
        source: u32,
        /// The index in the source.
        idx: Dims,
    },
    /// It is this number, whatever the sources hold.
    Const(i128),
}
