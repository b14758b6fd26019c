//! The members of a `.zarray`, each by itself.
ghost use Rattle.std.specs.Prelude.{◌≡◌, ◌<◌};
ghost use Rattle.serde_json.specs.View.{view};
ghost use Rattle.cu_num.specs.Dtype.{size_of};
ghost use Rattle.cu_v2.specs.Members.{type_of_code, order_of_sign, element_of_text, element_of, plain_grid_of, is_uncoded, fill_or_null};

use cu_grid::Grid;
use cu_json::is_list_of;
use cu_meta_members::{fill_in, sizes_in, whole_in};
use cu_num::{Dtype, Endian, size};
use serde_json::Value;

/// The type that a code names: its kind, and its count of bytes.
fn dtype_coded(code: &[u8]) -> Option<Dtype>
    ensures { result ≡ type_of_code code.now }
{
    match code {
        b"b1" => Some(Dtype::Bool),
        b"i1" => Some(Dtype::Int8),
        b"i2" => Some(Dtype::Int16),
        b"i4" => Some(Dtype::Int32),
        b"i8" => Some(Dtype::Int64),
        b"u1" => Some(Dtype::Uint8),
        b"u2" => Some(Dtype::Uint16),
        b"u4" => Some(Dtype::Uint32),
        b"u8" => Some(Dtype::Uint64),
        _ => None,
    }
}

/// The byte order that the sign in front of a code says.
fn order_signed(sign: u8, dtype: Dtype) -> Option<Endian>
    ensures { result ≡ order_of_sign sign dtype }
{
    let is_byte = size(dtype) == 1;
    if sign == b'<' {
        return Some(Endian::Little);
    }
    if sign == b'>' {
        return Some(if is_byte { Endian::Little } else { Endian::Big });
    }
    if sign == b'|' && is_byte {
        return Some(Endian::Little);
    }
    None
}

fn element_in_text(text: &[u8]) -> Option<(Dtype, Endian)>
    ensures { result ≡ element_of_text text.now }
{
    let (sign, code) = text.split_first()?;
    let dtype = dtype_coded(code)?;
    let endian = order_signed(*sign, dtype)?;
    Some((dtype, endian))
}

/// The type and the byte order that `dtype` names.
pub(crate) fn element_in(value: &Value) -> Option<(Dtype, Endian)>
    ensures { result ≡ element_of (view value.now) }
{
    element_in_text(value.as_str()?.as_bytes())
}

/// The grid that `shape` and `chunks` say.
pub(crate) fn grid_in(dtype: Dtype, shape: &Value, chunks: &Value) -> Option<Grid>
    ensures { result ≡ plain_grid_of dtype (view shape.now) (view chunks.now) }
{
    let sizes = sizes_in(shape)?;
    let chunk = sizes_in(chunks)?;
    Grid::make(sizes, chunk, item_size(dtype)).ok()
}

fn item_size(dtype: Dtype) -> u64
    ensures value { result ≡ size_of dtype }
    ensures positive { 0 < result }
{
    size(dtype)
}

/// Whether there is no compressor, and no filter.
pub(crate) fn is_uncoded(compressor: &Value, filters: &Value) -> bool
    ensures { result ≡ is_uncoded (view compressor.now) (view filters.now) }
{
    compressor.is_null() && (filters.is_null() || is_list_of(filters, 0))
}

/// The element that `fill_value` says.
pub(crate) fn fill_or_null(dtype: Dtype, value: &Value) -> Option<i128>
    ensures { result ≡ fill_or_null dtype (view value.now) }
{
    if value.is_null() {
        return Some(0);
    }
    match fill_in(dtype, value) {
        Some(x) => Some(x),
        None => whole_in(dtype, value),
    }
}
