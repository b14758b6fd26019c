ghost use Rattle.std.specs.Prelude.{◌≡◌};
ghost use Rattle.cu_v2.specs.Fault.{v2_view, code_of_v2};

use arrayvec::ArrayString;

/// Why a `.zarray` is refused: the first fault, in the order in which it is tested.
#[derive(Clone, Copy, Debug, PartialEq, Eq)]
pub enum V2Fault {
    /// The text is no JSON value, or the value is no object.
    Json,
    /// The member `zarr_format` isn't 2, or is absent.
    Format,
    /// A member with this name is wanted and absent.
    Field(ArrayString<24>),
    /// The type of the elements isn't one of the nine, or has no byte order that it may have.
    BadDtype,
    /// The shape or the chunks aren't accepted, or are above the limits.
    BadGrid,
    /// The separator of the chunks' keys is neither "." nor "/".
    Separator,
    /// The fill value isn't an element of the type.
    Fill,
    /// The chunks are written by a compressor or through filters.
    Coded,
    /// The elements of a chunk aren't row-major.
    Order,
    /// The text has more than 1,048,576 bytes.
    TooLong,
}

/// Why no layout was read.
#[derive(Clone, Copy, Debug, PartialEq, Eq)]
pub enum V2Refused {
    /// The text isn't accepted.
    Fault(V2Fault),
    /// Memory was wanted and not had.
    NoMemory,
}

/// The code of a fault, from 21 to 30, which status 7 has.
pub fn fault_code(fault: &V2Fault) -> u8
    ensures { result ≡ code_of_v2 (v2_view fault.now) }
{
    match fault {
        V2Fault::Json => 21,
        V2Fault::Format => 22,
        V2Fault::Field(_) => 23,
        V2Fault::BadDtype => 24,
        V2Fault::BadGrid => 25,
        V2Fault::Separator => 26,
        V2Fault::Fill => 27,
        V2Fault::Coded => 28,
        V2Fault::Order => 29,
        V2Fault::TooLong => 30,
    }
}
