ghost use Rattle.std.specs.Prelude.{◌≡◌, ◌<◌, ◌≤◌, ◌^◌, ◌/◌, ◌↔◌, All, IsOk, IfOk, IfErr, length};
ghost use Rattle.cu_shape.specs.Index.{product};
ghost use Rattle.cu_shape.specs.Counts.{at_least_one};
ghost use Rattle.cu_rechunk.specs.Stages.{greater_bytes, write_sizes, read_sizes, middle_sizes};
ghost use Rattle.cu_rechunk.specs.Tiles.{Tiles};

use crate::axes::cut;
use crate::consolidation::{consolidate, lower_to};
use cu_shape::{Dims, greater, smaller};

/// The sizes by which an array is copied to another grid, first from regions of the size `read` into an array of chunks of the
/// size `middle`, and from there in regions of the size `write`. Where `read` and `write` are equal one copy does.
#[derive(Clone, Copy, PartialEq, Eq, Debug)]
pub struct Staging {
    /// The size of the regions that are read of the source.
    pub read: Dims,
    /// The chunk size of the array between.
    pub middle: Dims,
    /// The size of the regions that are written of the target.
    pub write: Dims,
}

/// The stages of a copy of an array of this shape, with elements of `item` bytes, from chunks of the size `source` to chunks of
/// the size `target`, where a region has at most `max_mem` bytes (after Rechunker, whose rule may choose other sizes). Refused
/// with the greater chunk's bytes where they are more than that.
pub fn stages(
    shape: &Dims,
    source: &Dims,
    target: &Dims,
    item: u64,
    max_mem: u64,
) -> Result<Staging, u64>
    requires source_rank { length source.now ≡ length shape.now }
    requires target_rank { length target.now ≡ length shape.now }
    requires source_positive { All (λ c. 0 < c) source.now }
    requires target_positive { All (λ c. 0 < c) target.now }
    requires elements { product (at_least_one shape.now) ≤ 2 ^ 40 }
    requires source_elements { product source.now ≤ 2 ^ 40 }
    requires target_elements { product target.now ≤ 2 ^ 40 }
    requires some { 0 < item }
    requires word { item ≤ 8 }
    ensures fits { IsOk result ↔ (greater_bytes source.now target.now item ≤ max_mem) }
    ensures bytes { IfErr result (λ b. b ≡ greater_bytes source.now target.now item) }
    ensures write { IfOk result (λ s. s.write ≡ write_sizes shape.now target.now (max_mem / item)) }
    ensures read { IfOk result (λ s. s.read ≡ read_sizes shape.now source.now target.now (max_mem / item)) }
    ensures middle { IfOk result (λ s. s.middle ≡ middle_sizes shape.now source.now target.now (max_mem / item)) }
    ensures tiles { IfOk result (λ s. Tiles shape.now target.now item max_mem s) }
{
    let bytes = greater_bytes(source, target, item);
    if bytes > max_mem {
        return Err(bytes);
    }
    Ok(stages_in(shape, source, target, max_mem / item))
}

/// The stages where a region has at most `room` elements.
fn stages_in(shape: &Dims, source: &Dims, target: &Dims, room: u64) -> Staging
    requires source_rank { length source.now ≡ length shape.now }
    requires target_rank { length target.now ≡ length shape.now }
    requires source_positive { All (λ c. 0 < c) source.now }
    requires target_positive { All (λ c. 0 < c) target.now }
    requires source_fits { product source.now ≤ room }
    requires target_fits { product target.now ≤ room }
    requires source_elements { product source.now ≤ 2 ^ 40 }
    requires target_elements { product target.now ≤ 2 ^ 40 }
    ensures write { result.write ≡ write_sizes shape.now target.now room }
    ensures read { result.read ≡ read_sizes shape.now source.now target.now room }
    ensures middle { result.middle ≡ middle_sizes shape.now source.now target.now room }
{
    let first = cut(shape, source);
    let write = consolidate(shape, &cut(shape, target), shape, room);
    let wide = consolidate(shape, &first, &greater(&first, &write), room);
    let read = lower_to(shape, &wide, &write);
    Staging {
        read,
        middle: smaller(&read, &write),
        write,
    }
}

/// The bytes of the greater of two chunks, of elements of `item` bytes.
fn greater_bytes(source: &Dims, target: &Dims, item: u64) -> u64
    requires source_elements { product source.now ≤ 2 ^ 40 }
    requires target_elements { product target.now ≤ 2 ^ 40 }
    requires word { item ≤ 8 }
    ensures { result ≡ greater_bytes source.now target.now item }
{
    let elements = source.product().max(target.product());
    elements * item
}
