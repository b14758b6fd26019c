//! The test for a name.
ghost use Rattle.std.specs.Prelude.{◌≡◌};
ghost use Rattle.std.specs.List.{list_all};
ghost use Rattle.cu_name.specs.Name.{is_name_byte, is_name};

use crate::id_text::ID_BYTES;

/// Whether the text is the name of an array or the id of a node: 1 to 32 of the letters, the digits, `_`, `-` and `.`,
/// beginning with a letter or a digit.
pub fn is_name(text: &str) -> bool
    ensures { result ≡ is_name text.now }
{
    let bytes = text.as_bytes();
    if bytes.is_empty() {
        return false;
    }
    if bytes.len() > ID_BYTES {
        return false;
    }
    bytes[0].is_ascii_alphanumeric() && are_name_bytes(bytes)
}

fn are_name_bytes(bytes: &[u8]) -> bool
    ensures { result ≡ list_all is_name_byte bytes.now }
{
    bytes.iter().all(|byte| is_name_byte(*byte))
}

fn is_name_byte(byte: u8) -> bool
    ensures { result ≡ is_name_byte byte }
{
    byte.is_ascii_alphanumeric() || byte == b'_' || byte == b'-' || byte == b'.'
}
