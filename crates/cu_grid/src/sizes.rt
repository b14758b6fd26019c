//! A limit on the bytes of a chunk.

ghost use Rattle.std.specs.Prelude.{◌≡◌, ◌<◌, ◌≤◌, ◌*◌, All, nat_lt};
ghost use Rattle.std.specs.Bool.{OnFalse};
ghost use Rattle.cu_shape.specs.Index.{product};

use cu_shape::{Dims, is_above};

/// Whether a chunk of elements of `size` bytes has more than `limit` bytes.
pub(crate) fn is_chunk_above(chunk: &Dims, size: u64, limit: u64) -> bool
    requires whole { 0 < size }
    requires positive { All (λ c. 0 < c) chunk.now }
    ensures value { result ≡ nat_lt limit (product chunk.now * size) }
    ensures within { OnFalse result (product chunk.now ≤ limit) }
    ensures bytes { OnFalse result (product chunk.now * size ≤ limit) }
{
    is_above(chunk, limit / size)
}
