//! Buffers filled with numbers that no source gives.
ghost use Rattle.std.specs.Prelude.{◌≡◌, ◌≤◌, ◌+◌, ◌*◌, ◌^◌, ℕ, pos, ◌+ℤ◌, ◌*ℤ◌, length};
ghost use Rattle.cu_num.specs.Dtype.{size_of};
ghost use Rattle.cu_num.specs.Element.{bytes_at, element_bytes};

use crate::origins::term;
use cu_num::{Dtype, Endian, save, size};

/// Makes every element of a buffer one number. The type, and so the size of an element, is known in each of the loops.
pub(crate) fn fill(dtype: Dtype, number: i128, output: &mut [u8])
    ensures filled { (p : ℕ) → p * size_of dtype + size_of dtype ≤ length output.old → bytes_at dtype output.new p ≡ element_bytes Endian.Little dtype number }
    ensures same_length { length output.new ≡ length output.old }
{
    match dtype {
        Dtype::Bool => fill_as(Dtype::Bool, number, output),
        Dtype::Int8 => fill_as(Dtype::Int8, number, output),
        Dtype::Int16 => fill_as(Dtype::Int16, number, output),
        Dtype::Int32 => fill_as(Dtype::Int32, number, output),
        Dtype::Int64 => fill_as(Dtype::Int64, number, output),
        Dtype::Uint8 => fill_as(Dtype::Uint8, number, output),
        Dtype::Uint16 => fill_as(Dtype::Uint16, number, output),
        Dtype::Uint32 => fill_as(Dtype::Uint32, number, output),
        Dtype::Uint64 => fill_as(Dtype::Uint64, number, output),
    }
}

/// The same, one element after another.
#[inline(always)]
fn fill_as(dtype: Dtype, number: i128, output: &mut [u8])
    ensures filled { (p : ℕ) → p * size_of dtype + size_of dtype ≤ length output.old → bytes_at dtype output.new p ≡ element_bytes Endian.Little dtype number }
    ensures same_length { length output.new ≡ length output.old }
{
    let count = output.len() / size(dtype) as usize;
    for p in 0..count {
        save(dtype, number, output, p);
    }
}

/// Makes the elements of a buffer the numbers `start + k * step`, from number `first` on.
pub(crate) fn fill_with_terms(dtype: Dtype, start: i64, step: i64, first: u64, output: &mut [u8])
    requires { first ≤ 2 ^ 56 }
    ensures filled { (p : ℕ) → p * size_of dtype + size_of dtype ≤ length output.old
        → bytes_at dtype output.new p ≡ element_bytes Endian.Little dtype (start +ℤ pos (first + p) *ℤ step) }
    ensures same_length { length output.new ≡ length output.old }
{
    match dtype {
        Dtype::Bool => terms_as(Dtype::Bool, start, step, first, output),
        Dtype::Int8 => terms_as(Dtype::Int8, start, step, first, output),
        Dtype::Int16 => terms_as(Dtype::Int16, start, step, first, output),
        Dtype::Int32 => terms_as(Dtype::Int32, start, step, first, output),
        Dtype::Int64 => terms_as(Dtype::Int64, start, step, first, output),
        Dtype::Uint8 => terms_as(Dtype::Uint8, start, step, first, output),
        Dtype::Uint16 => terms_as(Dtype::Uint16, start, step, first, output),
        Dtype::Uint32 => terms_as(Dtype::Uint32, start, step, first, output),
        Dtype::Uint64 => terms_as(Dtype::Uint64, start, step, first, output),
    }
}

/// The same, one element after another.
#[inline(always)]
fn terms_as(dtype: Dtype, start: i64, step: i64, first: u64, output: &mut [u8])
    requires { first ≤ 2 ^ 56 }
    ensures filled { (p : ℕ) → p * size_of dtype + size_of dtype ≤ length output.old
        → bytes_at dtype output.new p ≡ element_bytes Endian.Little dtype (start +ℤ pos (first + p) *ℤ step) }
    ensures same_length { length output.new ≡ length output.old }
{
    let count = output.len() / size(dtype) as usize;
    for p in 0..count {
        save(
            dtype,
            term(start as i128, step, first + p as u64),
            output,
            p,
        );
    }
}
