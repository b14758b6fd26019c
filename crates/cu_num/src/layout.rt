/// The sign between the parts of a chunk's key (Zarr v3, chunk key encoding).
#[derive(Clone, Copy, Debug, PartialEq, Eq)]
pub enum Sep {
    Slash,
    Dot,
}

/// How a chunk's coordinates are written as a key (Zarr v3, chunk key encoding).
#[derive(Clone, Copy, Debug, PartialEq, Eq)]
pub enum Encoding {
    /// the encoding named "default": `c`, then the coordinates
    Plain(Sep),
    /// the encoding named "v2": the coordinates alone
    V2(Sep),
}

/// The order of an element's bytes (Zarr v3, codec "bytes").
#[derive(Clone, Copy, Debug, PartialEq, Eq)]
pub enum Endian {
    /// the lowest byte first
    Little,
    /// the highest byte first
    Big,
}
