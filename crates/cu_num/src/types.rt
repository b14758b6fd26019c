ghost use Rattle.std.specs.Prelude.{◌≡◌, ◌≤◌, ◌↔◌, IsTrue};
ghost use Rattle.cu_num.specs.Dtype.{size_of, bit_width, is_signed, least, greatest, InRange};

/// The type of an array's elements (Python array API, data types).
#[derive(Clone, Copy, Debug, Default, PartialEq, Eq)]
pub enum Dtype {
    /// 0 or 1
    #[default]
    Bool,
    /// -2^7 to 2^7 - 1
    Int8,
    /// -2^15 to 2^15 - 1
    Int16,
    /// -2^31 to 2^31 - 1
    Int32,
    /// -2^63 to 2^63 - 1
    Int64,
    /// 0 to 2^8 - 1
    Uint8,
    /// 0 to 2^16 - 1
    Uint16,
    /// 0 to 2^32 - 1
    Uint32,
    /// 0 to 2^64 - 1
    Uint64,
}

/// The bytes of one element.
#[inline]
pub fn size(t: Dtype) -> u64
    ensures { result ≡ size_of t }
{
    match t {
        Dtype::Bool | Dtype::Int8 | Dtype::Uint8 => 1,
        Dtype::Int16 | Dtype::Uint16 => 2,
        Dtype::Int32 | Dtype::Uint32 => 4,
        Dtype::Int64 | Dtype::Uint64 => 8,
    }
}

/// Whether the type is one of the four signed integer types.
#[inline]
pub fn is_signed(t: Dtype) -> bool
    ensures { result ≡ is_signed t }
{
    matches!(t, Dtype::Int8 | Dtype::Int16 | Dtype::Int32 | Dtype::Int64)
}

/// Whether the type is `Bool`.
#[inline]
pub fn is_bool(t: Dtype) -> bool
    ensures { IsTrue result ↔ (t ≡ Dtype.Bool) }
{
    matches!(t, Dtype::Bool)
}

/// The bits of an element's value: one for a bool, else eight a byte.
#[inline]
pub fn width(t: Dtype) -> u32
    ensures value { result ≡ bit_width t }
    ensures least { 1 ≤ result }
    ensures greatest { result ≤ 64 }
{
    match t {
        Dtype::Bool => 1,
        Dtype::Int8 | Dtype::Uint8 => 8,
        Dtype::Int16 | Dtype::Uint16 => 16,
        Dtype::Int32 | Dtype::Uint32 => 32,
        Dtype::Int64 | Dtype::Uint64 => 64,
    }
}

/// The least number of the type.
#[inline]
pub fn least(t: Dtype) -> i128
    ensures { result ≡ least t }
{
    match t {
        Dtype::Int8 => i128::from(i8::MIN),
        Dtype::Int16 => i128::from(i16::MIN),
        Dtype::Int32 => i128::from(i32::MIN),
        Dtype::Int64 => i128::from(i64::MIN),
        _ => 0,
    }
}

/// The greatest number of the type.
#[inline]
pub fn greatest(t: Dtype) -> i128
    ensures { result ≡ greatest t }
{
    match t {
        Dtype::Bool => 1,
        Dtype::Int8 => i128::from(i8::MAX),
        Dtype::Int16 => i128::from(i16::MAX),
        Dtype::Int32 => i128::from(i32::MAX),
        Dtype::Int64 => i128::from(i64::MAX),
        Dtype::Uint8 => i128::from(u8::MAX),
        Dtype::Uint16 => i128::from(u16::MAX),
        Dtype::Uint32 => i128::from(u32::MAX),
        Dtype::Uint64 => i128::from(u64::MAX),
    }
}

/// Whether `x` is a number of the type.
#[inline]
pub fn in_range(t: Dtype, x: i128) -> bool
    ensures { IsTrue result ↔ InRange t x }
{
    least(t) <= x && x <= greatest(t)
}
