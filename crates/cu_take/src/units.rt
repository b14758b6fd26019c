//! Units written as results.
ghost use Rattle.std.specs.Prelude.{◌+◌, ◌*◌, ◌≤◌, ℕ, length};
ghost use Rattle.cu_num.specs.Dtype.{size_of};
ghost use Rattle.cu_reduce.specs.Kinds.{unit_of};
ghost use Rattle.cu_reduce.specs.Numbers.{HasNumber};

use cu_num::{Dtype, FoldKind, save, size};
use cu_reduce::unit;

/// Writes a number as each element, of type `t`.
#[inline(always)]
fn fill_with(t: Dtype, x: i128, out: &mut [u8])
    ensures { (q : ℕ) → q * size_of t + size_of t ≤ length out.old → HasNumber t out.new q x }
{
    for at in 0..out.len() / size(t) as usize {
        save(t, x, out, at);
    }
}

/// Writes the unit of a reduction as each result, with loops for each type.
pub fn fill(kind: FoldKind, acc: Dtype, out: &mut [u8])
    ensures { (q : ℕ) → q * size_of acc + size_of acc ≤ length out.old → HasNumber acc out.new q (unit_of kind acc) }
{
    let unit = unit(kind, acc);
    match acc {
        Dtype::Bool => fill_with(Dtype::Bool, unit, out),
        Dtype::Int8 => fill_with(Dtype::Int8, unit, out),
        Dtype::Int16 => fill_with(Dtype::Int16, unit, out),
        Dtype::Int32 => fill_with(Dtype::Int32, unit, out),
        Dtype::Int64 => fill_with(Dtype::Int64, unit, out),
        Dtype::Uint8 => fill_with(Dtype::Uint8, unit, out),
        Dtype::Uint16 => fill_with(Dtype::Uint16, unit, out),
        Dtype::Uint32 => fill_with(Dtype::Uint32, unit, out),
        Dtype::Uint64 => fill_with(Dtype::Uint64, unit, out),
    }
}
