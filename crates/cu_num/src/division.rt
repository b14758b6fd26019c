ghost use Rattle.std.specs.Prelude.{◌≡◌, neg_ℤ, FitsSigned};
ghost use Rattle.std.specs.Int.{w128};
ghost use Rattle.cu_num.specs.Division.{floor_quotient, floor_remainder};

/// The greatest whole number at most `x / y`, and 0 where `y` is 0.
#[inline]
#[tactic(auto, unfolding(crate::specs::Division::floor_quotient))]
pub(crate) fn floor_divide(x: i128, y: i128) -> i128
    requires first { FitsSigned w128 (neg_ℤ x) }
    requires second { FitsSigned w128 (neg_ℤ y) }
    ensures { result ≡ floor_quotient x y }
{
    if y == 0 {
        0
    } else if y > 0 {
        x.div_euclid(y)
    } else {
        (-x).div_euclid(-y)
    }
}

/// What that quotient leaves of `x`, and 0 where `y` is 0.
#[inline]
#[tactic(auto, unfolding(crate::specs::Division::floor_quotient, crate::specs::Division::floor_remainder))]
pub(crate) fn floor_remainder_of(x: i128, y: i128) -> i128
    requires first { FitsSigned w128 (neg_ℤ x) }
    requires second { FitsSigned w128 (neg_ℤ y) }
    ensures { result ≡ floor_remainder x y }
{
    if y == 0 {
        0
    } else if y > 0 {
        x.rem_euclid(y)
    } else {
        -(-x).rem_euclid(-y)
    }
}
