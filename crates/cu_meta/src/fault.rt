use arrayvec::ArrayString;

/// Why the metadata of an array is refused: the first fault, in the order in which it is tested.
#[derive(Clone, Copy, Debug, PartialEq, Eq)]
pub enum MetaFault {
    /// The text is no JSON value, or the value is no object.
    Json,
    /// The text isn't of version 3 of Zarr, or not of an array.
    Format,
    /// A member with this name is wanted and absent, or isn't what it may be.
    Field(ArrayString<24>),
    /// The type of the elements isn't one of the nine.
    BadDtype,
    /// The shape or the grid isn't accepted, or is above the limits.
    BadGrid,
    /// The encoding of the chunks' keys isn't accepted.
    KeyEncoding,
    /// The fill value isn't an element of the type.
    Fill,
    /// The codecs aren't the one codec "bytes".
    Codec,
    /// Another member is there, and has to be understood.
    Unknown,
    /// The text has more than 1,048,576 bytes.
    TooLong,
    /// The array has another type or shape than the one that is wanted; the reader never answers it.
    Other,
}

/// Why no layout was read.
#[derive(Clone, Copy, Debug, PartialEq, Eq)]
pub enum MetaRefused {
    /// The text isn't accepted.
    Fault(MetaFault),
    /// Memory was wanted and not had.
    NoMemory,
}
