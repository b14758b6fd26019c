ghost use Rattle.std.specs.Prelude.{◌≡◌, ◌≤◌, ◌^◌, ◌<◌, unsigned_abs};
ghost use Rattle.cu_num.specs.Scalar.{shifted_left, shifted_right, sign_fill};

use crate::wrapping::power;

/// `x` times two to the `y`, and 0 where `y` is negative or not below the width.
#[inline]
pub(crate) fn shift_left(x: i128, y: i128, width: u32) -> i128
    requires number { unsigned_abs x < 2 ^ 64 }
    requires bits { width ≤ 64 }
    ensures { result ≡ shifted_left width x y }
{
    let bits = i128::from(width);
    if y < 0 {
        0
    } else if y >= bits {
        0
    } else {
        x * power(y as u32)
    }
}

/// `x` divided by two to the `y` and rounded down, and the sign alone where `y` is negative or not below the width.
#[inline]
pub(crate) fn shift_right(x: i128, y: i128, width: u32) -> i128
    requires { width ≤ 64 }
    ensures { result ≡ shifted_right width x y }
{
    let bits = i128::from(width);
    if y < 0 {
        sign_alone(x)
    } else if bits <= y {
        sign_alone(x)
    } else {
        x >> y as u32
    }
}

/// -1 for a negative number, 0 for the others.
#[inline]
fn sign_alone(x: i128) -> i128
    ensures { result ≡ sign_fill x }
{
    if x < 0 { -1 } else { 0 }
}
