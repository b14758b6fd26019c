use thiserror::Error;

/// Why an array's shape and chunk shape are refused, in the order in which it is tested.
#[derive(Debug, Clone, Copy, PartialEq, Eq, Error)]
pub enum GridFault {
    /// A chunk size is 0.
    #[error("a chunk size is 0")]
    ZeroChunk,
    /// The shape and the chunk shape have different lengths.
    #[error("the shape and the chunk shape have different lengths")]
    Rank,
    /// The array has more than 2^40 elements, an axis of size 0 counting as one.
    #[error("an array has at most 2^40 elements")]
    TooManyElements,
    /// The array has more than 65,536 chunks, an axis of size 0 counting as one.
    #[error("an array has at most 65536 chunks")]
    TooManyChunks,
    /// A chunk has more than 2^28 bytes.
    #[error("a chunk has at most 2^28 bytes")]
    ChunkTooLarge,
}
