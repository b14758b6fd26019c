//! The keys under which a depot holds an array (Zarr v3 core, "Chunk key encoding").
ghost use Rattle.std.specs.Prelude.{◌≡◌, ◌+◌, ◌*◌, ◌-◌, ◌<◌, ◌≤◌, [], ◌∷◌, ◌++◌, length, drop, All, decimal};
ghost use Rattle.cu_zarr.specs.Key.{separator, separated, coordinates, chunk_key_of, metadata_key_of, zarray_key_of};

use arrayvec::ArrayString;
use cu_num::{Encoding, Sep};
use cu_shape::Dims;
use cu_store::Key;

/// The text of a key that is being written.
type Text = ArrayString<96>;

/// The key of the chunk at this coordinate of the array whose keys begin with this prefix.
///
/// The prefix is the array's name, of at most 45 bytes, and each coordinate is below 1,048,576, so the key has at most 95 bytes.
pub fn chunk_key(prefix: &Key, encoding: Encoding, coord: &Dims) -> Key
    requires short { length prefix.now ≤ 45 }
    requires coordinates { All (λ i. i < 1048576) coord.now }
    ensures { result ≡ chunk_key_of prefix.now encoding coord.now }
{
    let mut text = Text::new();
    text.push_str(prefix.text());
    text.push_str("/");
    push_coordinates(&mut text, encoding, coord);
    key_of(&text)
}

/// The key of the metadata of the array whose keys begin with this prefix, its name of at most 45 bytes.
pub fn metadata_key(prefix: &Key) -> Key
    requires { length prefix.now ≤ 45 }
    ensures { result ≡ metadata_key_of prefix.now }
{
    let mut text = Text::new();
    text.push_str(prefix.text());
    text.push_str("/zarr.json");
    key_of(&text)
}

/// The key of the metadata of an array of version 2 whose keys begin with this prefix, its name of at most 45 bytes.
pub fn zarray_key(prefix: &Key) -> Key
    requires { length prefix.now ≤ 45 }
    ensures { result ≡ zarray_key_of prefix.now }
{
    let mut text = Text::new();
    text.push_str(prefix.text());
    text.push_str("/.zarray");
    key_of(&text)
}

/// The key with this text.
fn key_of(text: &Text) -> Key
    ensures { result ≡ text.now.bytes }
{
    match Key::make(text.as_str()) {
        Some(key) => key,
        None => unreachable!(),
    }
}

/// Appends the coordinates as the encoding writes them.
fn push_coordinates(text: &mut Text, encoding: Encoding, coord: &Dims)
    requires room { length text.old.bytes + 49 ≤ 96 }
    requires coordinates { All (λ i. i < 1048576) coord.now }
    ensures { text.new.bytes ≡ text.old.bytes ++ coordinates encoding coord.now }
{
    let rank = coord.rank();
    match encoding {
        Encoding::Plain(sep) => {
            text.push_str("c");
            push_separated(text, sep, coord, 0);
        }
        Encoding::V2(sep) => {
            if rank == 0 {
                text.push_str("0");
            } else {
                push_number(text, coord.at(0));
                push_separated(text, sep, coord, 1);
            }
        }
    }
}

/// Appends the coordinates from axis `first` on, each with the separator in front.
fn push_separated(text: &mut Text, sep: Sep, coord: &Dims, first: u32)
    requires within { first ≤ length coord.now }
    requires room { length text.old.bytes + 8 * (length coord.now - first) ≤ 96 }
    requires coordinates { All (λ i. i < 1048576) coord.now }
    ensures { text.new.bytes ≡ text.old.bytes ++ separated (separator sep) (drop first coord.now) }
{
    for axis in first..coord.rank() {
        text.push_str(sign(sep));
        push_number(text, coord.at(axis));
    }
}

/// The separator.
fn sign(sep: Sep) -> &'static str
    ensures text { result.now ≡ separator sep ∷ [] }
{
    match sep {
        Sep::Slash => "/",
        Sep::Dot => ".",
    }
}

/// Appends a number in decimal.
fn push_number(text: &mut Text, number: u64)
    requires small { number < 1048576 }
    requires room { length text.old.bytes + 7 ≤ 96 }
    ensures text { text.new.bytes ≡ text.old.bytes ++ decimal number }
    ensures length { length text.new.bytes ≤ length text.old.bytes + 7 }
{
    let mut digits = itoa::Buffer::new();
    text.push_str(digits.format(number));
}
