ghost use Rattle.std.specs.Prelude.{◌≡◌, ◌+◌, ◌*◌, ◌≤◌, ◌++◌, length, take, drop};
ghost use Rattle.cu_num.specs.Dtype.{size_of, InRange};
ghost use Rattle.cu_num.specs.Element.{element_at, element_bytes, number_of_bytes, IsSize};

use crate::layout::Endian;
use crate::types::{Dtype, size};
use crate::words::word;
use crate::wrapping::wrap;

/// The number whose bytes these are, the lowest first. `bytes` has 1, 2, 4 or 8 of them.
#[inline]
fn number_of(bytes: &[u8]) -> u64
    requires { IsSize (length bytes.now) }
    ensures { result ≡ number_of_bytes bytes.now }
{
    match *bytes {
        [a] => u64::from(a),
        [a, b] => u64::from(u16::from_le_bytes([a, b])),
        [a, b, c, d] => u64::from(u32::from_le_bytes([a, b, c, d])),
        [a, b, c, d, e, f, g, h] => u64::from_le_bytes([a, b, c, d, e, f, g, h]),
        _ => unreachable!(),
    }
}

/// Element `at` of little-endian bytes, counted in elements from 0.
#[inline]
#[tactic(auto, unfolding(crate::specs::Element::element_at))]
pub fn load(t: Dtype, bytes: &[u8], at: usize) -> i128
    requires { at * size_of t + size_of t ≤ length bytes.now }
    ensures value { result ≡ element_at Endian.Little t bytes.now at }
    ensures range { InRange t result }
{
    let size = size(t) as usize;
    let start = at * size;
    wrap(t, i128::from(number_of(&bytes[start..start + size])))
}

/// Writes `x`, wrapped to the type, as element `at` of little-endian bytes, counted in elements from 0.
/// The other bytes stay as they are.
#[inline]
pub fn save(t: Dtype, x: i128, bytes: &mut [u8], at: usize)
    requires { at * size_of t + size_of t ≤ length bytes.old }
    ensures { bytes.new ≡ take (at * size_of t) bytes.old ++ element_bytes Endian.Little t x ++ drop (at * size_of t + size_of t) bytes.old }
{
    let size = size(t) as usize;
    let start = at * size;
    let word = word(wrap(t, x)).to_le_bytes();
    bytes[start..start + size].copy_from_slice(&word[..size]);
}
