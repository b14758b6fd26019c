//! Writing the metadata of an array: the one text of a layout.
ghost use Rattle.std.specs.Prelude.{◌≡◌, ◌<◌, ◌++◌, ◌∷◌, decimal, length, drop, string_bytes, IfOk, OnOk};
ghost use Rattle.cu_meta.specs.Written.{text_of};
ghost use Rattle.cu_op.specs.Layout.{layout_view};
ghost use Rattle.cu_zarr.specs.Metadata.{more_numbers, number_list, encoding_text, codec_with_endian, codec_text, truth_text, fill_text, metadata_text};

use cu_num::{Dtype, Encoding, Endian, Sep, type_name};
use cu_op::Layout;
use cu_shape::Dims;
use cu_store::NoMemory;
use std::alloc::{AllocError, Global};

/// What stands before the chunks' shape.
const CHUNK: &str = r#"{"chunk_grid":{"configuration":{"chunk_shape":"#;

/// What stands before the encoding of the keys.
const ENCODING: &str = r#"},"name":"regular"},"chunk_key_encoding":"#;

/// What stands before the codec.
const CODEC: &str = r#","codecs":["#;

/// What stands before the name of the type.
const TYPE: &str = r#"],"data_type":""#;

/// What stands before the fill value.
const FILL: &str = r#"","fill_value":"#;

/// What stands before the array's shape.
const SHAPE: &str = r#","node_type":"array","shape":"#;

/// What stands behind the array's shape.
const BACK: &str = r#","zarr_format":3}"#;

/// The text of the `zarr.json` of an array with this layout.
pub fn write_meta(alloc: Global, layout: &Layout) -> Result<Vec<u8>, NoMemory>
    ensures { IfOk result (λ v. v.items ≡ metadata_text (layout_view layout.now)) }
{
    match layout_text(alloc, layout) {
        Ok(text) => Ok(text.into_bytes()),
        Err(_) => Err(NoMemory),
    }
}

fn layout_text(alloc: Global, layout: &Layout) -> Result<String, AllocError>
    ensures { IfOk result (λ t. string_bytes t ≡ metadata_text (layout_view layout.now)) }
{
    let chunk = number_list(alloc, layout.grid.chunk())?;
    let shape = number_list(alloc, layout.grid.shape())?;
    let fill = fill_text(alloc, layout)?;
    let encoding = encoding_text(layout.encoding);
    let codec = codec_text(layout.dtype, layout.endian);
    let name = type_name(layout.dtype);
    joined(
        alloc,
        chunk.as_str(),
        encoding,
        codec,
        name,
        fill.as_str(),
        shape.as_str(),
    )
}

/// The whole text, from the texts of its parts.
fn joined(
    alloc: Global,
    chunk: &str,
    encoding: &str,
    codec: &str,
    name: &str,
    fill: &str,
    shape: &str,
) -> Result<String, AllocError>
    ensures { IfOk result (λ t. string_bytes t ≡ text_of chunk.now encoding.now codec.now name.now fill.now shape.now) }
{
    let mut text = String::new(alloc);
    push_part(&mut text, CHUNK, chunk)?;
    push_part(&mut text, ENCODING, encoding)?;
    push_part(&mut text, CODEC, codec)?;
    push_part(&mut text, TYPE, name)?;
    push_part(&mut text, FILL, fill)?;
    push_part(&mut text, SHAPE, shape)?;
    text.push_str(BACK)?;
    Ok(text)
}

/// Appends a part, with what stands before it.
fn push_part(text: &mut String, before: &str, part: &str) -> Result<(), AllocError>
    ensures { OnOk result (string_bytes text.new ≡ string_bytes text.old ++ before.now ++ part.now) }
{
    text.push_str(before)?;
    text.push_str(part)
}

/// A list of numbers, as `[4,2]`.
fn number_list(alloc: Global, numbers: &Dims) -> Result<String, AllocError>
    ensures { IfOk result (λ t. string_bytes t ≡ number_list numbers.now) }
{
    if numbers.rank() == 0 {
        return String::from_str(alloc, "[]");
    }
    let first = numbers.at(0);
    let mut text = format!(in alloc; "[{first}")?;
    push_more(alloc, &mut text, numbers)?;
    text.push_str("]")?;
    Ok(text)
}

/// Appends the numbers behind the first one, each with a comma in front.
fn push_more(alloc: Global, text: &mut String, numbers: &Dims) -> Result<(), AllocError>
    requires { 0 < length numbers.now }
    ensures { OnOk result (string_bytes text.new ≡ string_bytes text.old ++ more_numbers (drop 1 numbers.now)) }
{
    for axis in 1..numbers.rank() {
        push_number(alloc, text, numbers.at(axis))?;
    }
    Ok(())
}

/// Appends a comma and a number.
fn push_number(alloc: Global, text: &mut String, number: u64) -> Result<(), AllocError>
    ensures { OnOk result (string_bytes text.new ≡ string_bytes text.old ++ (44 ∷ decimal number)) }
{
    let digits = format!(in alloc; ",{number}")?;
    text.push_str(digits.as_str())
}

/// The fill value: a truth value, or a number in decimal.
fn fill_text(alloc: Global, layout: &Layout) -> Result<String, AllocError>
    ensures { IfOk result (λ t. string_bytes t ≡ fill_text layout.now.dtype layout.now.fill) }
{
    let fill = layout.fill;
    match layout.dtype {
        Dtype::Bool => String::from_str(alloc, truth_text(fill)),
        _ => format!(in alloc; "{fill}"),
    }
}

fn truth_text(fill: i128) -> &'static str
    ensures { result.now ≡ truth_text fill }
{
    if fill == 0 { "false" } else { "true" }
}

fn encoding_text(encoding: Encoding) -> &'static str
    ensures { result.now ≡ encoding_text encoding }
{
    match encoding {
        Encoding::Plain(Sep::Slash) => r#"{"configuration":{"separator":"/"},"name":"default"}"#,
        Encoding::Plain(Sep::Dot) => r#"{"configuration":{"separator":"."},"name":"default"}"#,
        Encoding::V2(Sep::Slash) => r#"{"configuration":{"separator":"/"},"name":"v2"}"#,
        Encoding::V2(Sep::Dot) => r#"{"configuration":{"separator":"."},"name":"v2"}"#,
    }
}

fn endian_text(endian: Endian) -> &'static str
    ensures { result.now ≡ codec_with_endian endian }
{
    match endian {
        Endian::Little => r#"{"configuration":{"endian":"little"},"name":"bytes"}"#,
        Endian::Big => r#"{"configuration":{"endian":"big"},"name":"bytes"}"#,
    }
}

fn codec_text(dtype: Dtype, endian: Endian) -> &'static str
    ensures { result.now ≡ codec_text dtype endian }
{
    match dtype {
        Dtype::Bool | Dtype::Int8 | Dtype::Uint8 => r#"{"name":"bytes"}"#,
        _ => endian_text(endian),
    }
}
