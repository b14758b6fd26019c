ghost use Rattle.std.specs.Prelude.{◌≡◌, ◌^◌, ◌≤◌, pos};
ghost use Rattle.cu_num.specs.Dtype.{InRange};
ghost use Rattle.cu_num.specs.Wrap.{wrapped, IsWrapOf, residue};

use crate::types::Dtype;

/// Two to the width.
#[inline]
pub(crate) fn power(width: u32) -> i128
    requires { width ≤ 64 }
    ensures value { result ≡ pos (2 ^ width) }
    ensures bounded { 2 ^ width ≤ 2 ^ 64 }
{
    1 << width
}

/// The number below two to the width that is congruent to `x`.
#[inline]
pub(crate) fn unsigned(x: i128, width: u32) -> i128
    requires { width ≤ 64 }
    ensures { result ≡ pos (residue width x) }
{
    x & (power(width) - 1)
}

/// `wrap`, by the type. The casts let a compiler see a sign extension.
#[inline]
#[tactic(auto, unfolding(crate::specs::Wrap::wrapped))]
fn wrap_by_type(t: Dtype, x: i128) -> i128
    ensures { result ≡ wrapped t x }
{
    match t {
        Dtype::Bool => i128::from(x != 0),
        Dtype::Int8 => i128::from((unsigned(x, 8) as u8).cast_signed()),
        Dtype::Int16 => i128::from((unsigned(x, 16) as u16).cast_signed()),
        Dtype::Int32 => i128::from((unsigned(x, 32) as u32).cast_signed()),
        Dtype::Int64 => i128::from((unsigned(x, 64) as u64).cast_signed()),
        Dtype::Uint8 => unsigned(x, 8),
        Dtype::Uint16 => unsigned(x, 16),
        Dtype::Uint32 => unsigned(x, 32),
        Dtype::Uint64 => unsigned(x, 64),
    }
}

/// The number of type `t` that is congruent to `x` modulo two to the width; for a bool 0 for 0 and 1 otherwise.
#[inline]
pub fn wrap(t: Dtype, x: i128) -> i128
    ensures value { result ≡ wrapped t x }
    ensures congruent { IsWrapOf t x result }
    ensures range { InRange t result }
{
    wrap_by_type(t, x)
}
