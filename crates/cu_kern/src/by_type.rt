//! Calls of functions that are compiled anew for each type.

/// Calls a function with the type written out, behind the arguments before it, so that a compiler makes its loops for each type:
/// `call_by_type!(f, [a], t, [x, y])` is `f(a, t, x, y)`.
macro_rules! call_by_type {
    ($f:ident, [$($before:expr),*], $t:expr, [$($behind:expr),*]) => {
        match $t {
            Dtype::Bool => $f($($before,)* Dtype::Bool, $($behind),*),
            Dtype::Int8 => $f($($before,)* Dtype::Int8, $($behind),*),
            Dtype::Int16 => $f($($before,)* Dtype::Int16, $($behind),*),
            Dtype::Int32 => $f($($before,)* Dtype::Int32, $($behind),*),
            Dtype::Int64 => $f($($before,)* Dtype::Int64, $($behind),*),
            Dtype::Uint8 => $f($($before,)* Dtype::Uint8, $($behind),*),
            Dtype::Uint16 => $f($($before,)* Dtype::Uint16, $($behind),*),
            Dtype::Uint32 => $f($($before,)* Dtype::Uint32, $($behind),*),
            Dtype::Uint64 => $f($($before,)* Dtype::Uint64, $($behind),*),
        }
    };
}

pub(crate) use call_by_type;

/// Calls a function with two types written out, of at most and of at least 32 bits, of which the second has all numbers of the first:
/// `call_widening!(f, s, t, [x, y], other)` is `f(s, t, x, y)`. Of other types it is what stands last.
macro_rules! call_widening {
    ($f:ident, $from:expr, $t:expr, [$($behind:expr),*], $other:expr) => {
        match ($from, $t) {
            (Dtype::Int8, Dtype::Int32) => $f(Dtype::Int8, Dtype::Int32, $($behind),*),
            (Dtype::Int8, Dtype::Int64) => $f(Dtype::Int8, Dtype::Int64, $($behind),*),
            (Dtype::Int16, Dtype::Int32) => $f(Dtype::Int16, Dtype::Int32, $($behind),*),
            (Dtype::Int16, Dtype::Int64) => $f(Dtype::Int16, Dtype::Int64, $($behind),*),
            (Dtype::Int32, Dtype::Int64) => $f(Dtype::Int32, Dtype::Int64, $($behind),*),
            (Dtype::Uint8, Dtype::Int32) => $f(Dtype::Uint8, Dtype::Int32, $($behind),*),
            (Dtype::Uint8, Dtype::Int64) => $f(Dtype::Uint8, Dtype::Int64, $($behind),*),
            (Dtype::Uint8, Dtype::Uint32) => $f(Dtype::Uint8, Dtype::Uint32, $($behind),*),
            (Dtype::Uint8, Dtype::Uint64) => $f(Dtype::Uint8, Dtype::Uint64, $($behind),*),
            (Dtype::Uint16, Dtype::Int32) => $f(Dtype::Uint16, Dtype::Int32, $($behind),*),
            (Dtype::Uint16, Dtype::Int64) => $f(Dtype::Uint16, Dtype::Int64, $($behind),*),
            (Dtype::Uint16, Dtype::Uint32) => $f(Dtype::Uint16, Dtype::Uint32, $($behind),*),
            (Dtype::Uint16, Dtype::Uint64) => $f(Dtype::Uint16, Dtype::Uint64, $($behind),*),
            (Dtype::Uint32, Dtype::Int64) => $f(Dtype::Uint32, Dtype::Int64, $($behind),*),
            (Dtype::Uint32, Dtype::Uint64) => $f(Dtype::Uint32, Dtype::Uint64, $($behind),*),
            _ => $other,
        }
    };
}

pub(crate) use call_widening;
