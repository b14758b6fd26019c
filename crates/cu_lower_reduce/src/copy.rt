//! The steps of copies into other chunks.

ghost use Rattle.std.specs.Prelude.{◌≡◌, ◌≤◌, ◌<◌, ◌*◌, ◌^◌, ℕ, Some, slice_get, length};
ghost use Rattle.cu_num.specs.Dtype.{size_of};
ghost use Rattle.cu_shape.specs.Index.{product};
ghost use Rattle.cu_copy.specs.Copies.{between, staging};
ghost use Rattle.cu_lower_reduce.specs.Copies.{copied, copy_steps, IsCopySetting, IsStaged};

use crate::step::Step;
use cu_copy::{Rechunk, Staging, rechunked, staging_within};
use cu_node::NodeInfo;
use cu_num::{Dtype, size};
use cu_op::Op;
use cu_shape::Dims;

/// Where copies stand, and what they may take.
#[derive(Clone, Copy, Debug)]
pub struct CopySetting {
    /// The number of the first array that they make; the others follow.
    pub first: u32,
    /// The bytes of memory that are kept for everything else.
    pub reserved: u64,
    /// The most bytes of a region.
    pub most: u64,
}

/// The stages of a rechunk whose chunks fit.
fn staging_of(s: &CopySetting, rechunk: &Rechunk) -> Staging
    requires { IsStaged s.now rechunk.now }
    ensures { result ≡ staging s.now.most rechunk.now }
{
    match staging_within(s.most, rechunk) {
        Some(staging) => staging,
        None => unreachable!(),
    }
}

/// The number of steps that copy an array: one, or two by way of an array between.
pub fn copy_step_count(s: &CopySetting, rechunk: &Rechunk) -> u32
    requires setting { IsCopySetting s.now }
    requires rechunk { IsStaged s.now rechunk.now }
    ensures count { (source : ℕ) → result ≡ length (copy_steps s.now source rechunk.now) }
    ensures few { result ≤ 2 }
{
    let staging = staging_of(s, rechunk);
    if staging.read.is(&staging.write) {
        1
    } else {
        2
    }
}

/// The array between two copies.
fn array_between(rechunk: &Rechunk, staging: &Staging) -> NodeInfo
    ensures { result ≡ between rechunk.now staging.now }
{
    NodeInfo {
        dtype: rechunk.source.dtype,
        dims: rechunk.source.dims,
        chunk: staging.middle,
    }
}

/// A step that copies array number `source`, by its number.
pub fn copy_step(s: &CopySetting, source: u32, rechunk: &Rechunk, at: u32) -> Step
    requires setting { IsCopySetting s.now }
    requires rechunk { IsStaged s.now rechunk.now }
    requires within { at < length (copy_steps s.now source rechunk.now) }
    ensures { slice_get (copy_steps s.now source rechunk.now) at ≡ Some result }
{
    let staging = staging_of(s, rechunk);
    let made = rechunked(rechunk);
    if staging.read.is(&staging.write) {
        return copied(s, source, s.first, &staging.write, &rechunk.source, &made);
    }
    let between = array_between(rechunk, &staging);
    if at == 0 {
        copied(s, source, s.first, &staging.read, &rechunk.source, &between)
    } else {
        copied(s, s.first, s.first + 1, &staging.write, &between, &made)
    }
}

/// The step that copies array number `source` in regions of this size to array number `out`.
fn copied(
    s: &CopySetting,
    source: u32,
    out: u32,
    region: &Dims,
    from: &NodeInfo,
    made: &NodeInfo,
) -> Step
    requires setting { IsCopySetting s.now }
    requires from { product from.now.chunk * size_of from.now.dtype ≤ 2 ^ 40 }
    requires made { product made.now.chunk * size_of made.now.dtype ≤ 2 ^ 40 }
    requires region { product region.now * size_of from.now.dtype ≤ 2 ^ 40 }
    ensures { result ≡ copied s.now.reserved source out region.now from.now made.now }
{
    let scratch = bytes_of(&from.chunk, from.dtype).max(bytes_of(&made.chunk, made.dtype));
    Step {
        op: Op::Copy {
            region: *region,
            source,
            out,
        },
        values: None,
        made: *made,
        need: s.reserved + scratch + bytes_of(region, from.dtype),
    }
}

/// The bytes of so many elements of a type.
fn bytes_of(sizes: &Dims, dtype: Dtype) -> u64
    requires { product sizes.now * size_of dtype ≤ 2 ^ 40 }
    ensures bytes { result ≡ product sizes.now * size_of dtype }
    ensures few { result ≤ 2 ^ 40 }
{
    match sizes.elements() {
        Some(elements) => elements * size(dtype),
        None => unreachable!(),
    }
}
