ghost use Rattle.std.specs.Prelude.{◌≡◌, ℤ};
ghost use Rattle.cu_num.specs.Dtype.{InRange};
ghost use Rattle.cu_num.specs.Word.{word_of, number_of, IsWord};

use crate::types::Dtype;
use crate::wrapping::{unsigned, wrap};

/// The word of a number: the lowest 64 bits of its two's complement.
#[inline]
pub fn word(x: i128) -> u64
    ensures { result ≡ word_of x }
{
    unsigned(x, 64) as u64
}

/// The number of the type whose word this is; of a word that no number of the type has, the number that it wraps to.
#[inline]
pub fn number(t: Dtype, w: u64) -> i128
    ensures value { result ≡ number_of t w }
    ensures exact { (x : ℤ) → IsWord t w x → result ≡ x }
    ensures range { InRange t result }
{
    wrap(t, i128::from(w))
}
