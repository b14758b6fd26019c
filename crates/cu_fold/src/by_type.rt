//! Calls of functions that are compiled anew for each type.

/// Calls a function with the type of the elements written out, behind the arguments before it, so that a
/// compiler makes its loops for each type: `call_by_type!(f, [a], t, [x, y])` is `f(a, t, x, y)`. It is
/// written out in each function that isn't inlined: a table that these would inline becomes too large,
/// is built apart, and its loops with it.
macro_rules! call_by_type {
    ($f:ident, [$($before:expr),*], $t:expr, [$($behind:expr),*]) => {
        match $t {
            Dtype::Bool => $f($($before,)* Dtype::Bool, $($behind),*),
            Dtype::Int8 => $f($($before,)* Dtype::Int8, $($behind),*),
            Dtype::Int16 => $f($($before,)* Dtype::Int16, $($behind),*),
            Dtype::Int32 => $f($($before,)* Dtype::Int32, $($behind),*),
            Dtype::Int64 => $f($($before,)* Dtype::Int64, $($behind),*),
            Dtype::Uint8 => $f($($before,)* Dtype::Uint8, $($behind),*),
            Dtype::Uint16 => $f($($before,)* Dtype::Uint16, $($behind),*),
            Dtype::Uint32 => $f($($before,)* Dtype::Uint32, $($behind),*),
            Dtype::Uint64 => $f($($before,)* Dtype::Uint64, $($behind),*),
        }
    };
}

pub(crate) use call_by_type;

/// The same of a function of the types of elements and of results: with loops for each type that both
/// have, and one for those that have two.
macro_rules! call_of_one_type {
    ($f:ident, $kind:expr, $from:expr, $acc:expr, [$($behind:expr),*]) => {
        match ($from, $acc) {
            (Dtype::Int8, Dtype::Int8) => $f($kind, Dtype::Int8, Dtype::Int8, $($behind),*),
            (Dtype::Int16, Dtype::Int16) => $f($kind, Dtype::Int16, Dtype::Int16, $($behind),*),
            (Dtype::Int32, Dtype::Int32) => $f($kind, Dtype::Int32, Dtype::Int32, $($behind),*),
            (Dtype::Int64, Dtype::Int64) => $f($kind, Dtype::Int64, Dtype::Int64, $($behind),*),
            (Dtype::Uint8, Dtype::Uint8) => $f($kind, Dtype::Uint8, Dtype::Uint8, $($behind),*),
            (Dtype::Uint16, Dtype::Uint16) => $f($kind, Dtype::Uint16, Dtype::Uint16, $($behind),*),
            (Dtype::Uint32, Dtype::Uint32) => $f($kind, Dtype::Uint32, Dtype::Uint32, $($behind),*),
            (Dtype::Uint64, Dtype::Uint64) => $f($kind, Dtype::Uint64, Dtype::Uint64, $($behind),*),
            _ => $f($kind, $from, $acc, $($behind),*),
        }
    };
}

pub(crate) use call_of_one_type;
