ghost use Rattle.std.specs.Prelude.{◌≡◌, ◌<◌, ◌≤◌, ◌↔◌, IsNone, IfSome, IsTrue, ℤ};
ghost use Rattle.cu_num.specs.Dtype.{InRange, IsInteger, IsUnsigned, is_signed, size_of, bit_width};
ghost use Rattle.cu_num.specs.Promotion.{promotion, mixed_type, HasNoPromotion};

use crate::types::{Dtype, is_bool, is_signed, size};

/// The wider of two types.
fn wider(a: Dtype, b: Dtype) -> Dtype
    ensures first { size_of b ≤ size_of a → result ≡ a }
    ensures second { size_of a < size_of b → result ≡ b }
{
    if size(a) < size(b) { b } else { a }
}

/// The promotion of a signed and an unsigned type.
fn promote_mixed(signed: Dtype, unsigned: Dtype) -> Option<Dtype>
    requires first { IsTrue (is_signed signed) }
    requires second { IsUnsigned unsigned }
    ensures { result ≡ mixed_type (bit_width signed) (bit_width unsigned) }
{
    if size(unsigned) < size(signed) {
        return Some(signed);
    }
    match unsigned {
        Dtype::Uint8 => Some(Dtype::Int16),
        Dtype::Uint16 => Some(Dtype::Int32),
        Dtype::Uint32 => Some(Dtype::Int64),
        _ => None,
    }
}

/// The promotion of two integer types.
fn promote_integers(a: Dtype, b: Dtype) -> Option<Dtype>
    requires first { IsInteger a }
    requires second { IsInteger b }
    ensures { result ≡ promotion a b }
{
    match (is_signed(a), is_signed(b)) {
        (true, true) => Some(wider(a, b)),
        (true, false) => promote_mixed(a, b),
        (false, true) => promote_mixed(b, a),
        (false, false) => Some(wider(a, b)),
    }
}

/// `promote`, by the two types.
fn promote_by_rule(a: Dtype, b: Dtype) -> Option<Dtype>
    ensures { result ≡ promotion a b }
{
    match (is_bool(a), is_bool(b)) {
        (true, true) => Some(Dtype::Bool),
        (true, false) => None,
        (false, true) => None,
        (false, false) => promote_integers(a, b),
    }
}

/// The type that two types are promoted to, and `None` for a bool with an integer type and for uint64 with a signed type.
pub fn promote(a: Dtype, b: Dtype) -> Option<Dtype>
    ensures value { result ≡ promotion a b }
    ensures refused { IsNone result ↔ HasNoPromotion a b }
    ensures first { IfSome result (λ t. (x : ℤ) → InRange a x → InRange t x) }
    ensures second { IfSome result (λ t. (x : ℤ) → InRange b x → InRange t x) }
{
    promote_by_rule(a, b)
}
