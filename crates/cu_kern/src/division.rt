//! Floor division by the machine's division of numbers without a sign: of 32 bits where the type has at most as many, else of 64.
ghost use Rattle.std.specs.Prelude.{◌≡◌, ◌<ℤ◌, ◌≤ℤ◌, ◌^◌, pos, neg_ℤ, if◌then◌else◌};
ghost use Rattle.std.specs.Int.{int_div_euclid};
ghost use Rattle.cu_num.specs.Dtype.{InRange};
ghost use Rattle.cu_num.specs.Division.{floor_quotient};
ghost use Rattle.cu_kern.specs.Division.{greatest_word, complemented};

use cu_num::{Dtype, size};

/// The greatest whole number at most `x / y`, and 0 where `y` is 0.
#[inline]
#[tactic(auto, unfolding(cu_num::specs::Division::floor_quotient))]
pub(crate) fn floor_divide(t: Dtype, x: i128, y: i128) -> i128
    requires first { InRange t x }
    requires second { InRange t y }
    ensures { result ≡ floor_quotient x y }
{
    if y == 0 {
        return 0;
    }
    let below = y < 0;
    round_down(t, turn(below, x), turn(below, y))
}

/// The number, or where `below` holds its negative.
#[inline]
fn turn(below: bool, x: i128) -> i128
    requires least { neg_ℤ (pos (2 ^ 64)) ≤ℤ x }
    requires most { x ≤ℤ pos (2 ^ 64) }
    ensures { result ≡ (if below then neg_ℤ x else x) }
{
    if below { -x } else { x }
}

/// The quotient rounded down, by a divisor above 0.
#[inline]
fn round_down(t: Dtype, x: i128, y: i128) -> i128
    requires divisor { pos 0 <ℤ y }
    requires least { neg_ℤ (pos (greatest_word t)) ≤ℤ x }
    requires most { x ≤ℤ pos (greatest_word t) }
    requires own { y ≤ℤ pos (greatest_word t) }
    ensures { result ≡ int_div_euclid x y }
{
    let below = x < 0;
    flip(below, divide(t, flip(below, x), y))
}

/// The number, or where `below` holds the one whose bits are its complement.
#[inline]
pub(crate) fn flip(below: bool, x: i128) -> i128
    requires least { neg_ℤ (pos (2 ^ 64)) ≤ℤ x }
    requires most { x ≤ℤ pos (2 ^ 64) }
    ensures { result ≡ complemented below x }
{
    if below { -1 - x } else { x }
}

/// The quotient of numbers that are not negative.
#[inline]
fn divide(t: Dtype, x: i128, y: i128) -> i128
    requires first { pos 0 ≤ℤ x }
    requires divisor { pos 0 <ℤ y }
    requires most { x ≤ℤ pos (greatest_word t) }
    requires own { y ≤ℤ pos (greatest_word t) }
    ensures value { result ≡ int_div_euclid x y }
    ensures least { pos 0 ≤ℤ result }
    ensures most { result ≤ℤ x }
{
    if size(t) <= 4 {
        i128::from(x as u32 / y as u32)
    } else {
        i128::from(x as u64 / y as u64)
    }
}
