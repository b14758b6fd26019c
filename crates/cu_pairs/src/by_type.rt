//! Calls of functions that are compiled anew for each type.

/// Calls `f(least, T, ..)`, where `T` is the type `t` written out, so that a compiler makes loops for each type.
macro_rules! call_by_type {
    ($f:ident, $least:expr, $t:expr, $($rest:expr),+) => {
        match $t {
            Dtype::Bool => $f($least, Dtype::Bool, $($rest),+),
            Dtype::Int8 => $f($least, Dtype::Int8, $($rest),+),
            Dtype::Int16 => $f($least, Dtype::Int16, $($rest),+),
            Dtype::Int32 => $f($least, Dtype::Int32, $($rest),+),
            Dtype::Int64 => $f($least, Dtype::Int64, $($rest),+),
            Dtype::Uint8 => $f($least, Dtype::Uint8, $($rest),+),
            Dtype::Uint16 => $f($least, Dtype::Uint16, $($rest),+),
            Dtype::Uint32 => $f($least, Dtype::Uint32, $($rest),+),
            Dtype::Uint64 => $f($least, Dtype::Uint64, $($rest),+),
        }
    };
}

pub(crate) use call_by_type;
