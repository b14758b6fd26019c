//! Bytes as words of eight, lowest first.
ghost use Rattle.std.specs.Prelude.{◌≡◌, ◌+◌, ◌<◌, ◌≤◌, ℕ, length, drop, slice_index};
ghost use Rattle.std.specs.Int.{w64, from_le_bytes, to_le_bytes};

/// A byte, or 0 past the end.
fn byte_at(bytes: &[u8], at: usize) -> u8
    ensures { result ≡ slice_index bytes.now at }
{
    match bytes.get(at) {
        Some(byte) => *byte,
        None => 0,
    }
}

/// The first eight bytes as a word. Past the end they are 0.
fn last_word(bytes: &[u8]) -> u64
    ensures { result ≡ from_le_bytes w64 bytes.now }
{
    u64::from_le_bytes([
        byte_at(bytes, 0),
        byte_at(bytes, 1),
        byte_at(bytes, 2),
        byte_at(bytes, 3),
        byte_at(bytes, 4),
        byte_at(bytes, 5),
        byte_at(bytes, 6),
        byte_at(bytes, 7),
    ])
}

/// The first eight bytes as a word.
fn whole_word(bytes: &[u8]) -> u64
    requires { 8 ≤ length bytes.now }
    ensures { result ≡ from_le_bytes w64 bytes.now }
{
    u64::from_le_bytes([
        bytes[0], bytes[1], bytes[2], bytes[3], bytes[4], bytes[5], bytes[6], bytes[7],
    ])
}

/// Eight bytes from a place on as a word. Past the end they are 0.
pub(crate) fn word_at(bytes: &[u8], at: usize) -> u64
    requires { at < length bytes.now }
    ensures { result ≡ from_le_bytes w64 (drop at bytes.now) }
{
    let rest = &bytes[at..];
    if rest.len() >= 8 {
        whole_word(rest)
    } else {
        last_word(rest)
    }
}

/// Lays the bytes of a word from a place on.
pub(crate) fn lay_word(buf: &mut [u8], at: usize, word: u64)
    requires { at + 8 ≤ length buf.old }
    ensures length { length buf.new ≡ length buf.old }
    ensures before { (i : ℕ) → i < at → slice_index buf.new i ≡ slice_index buf.old i }
    ensures laid { (j : ℕ) → j < 8 → slice_index buf.new (at + j) ≡ slice_index (to_le_bytes w64 word) j }
{
    buf[at..at + 8].copy_from_slice(&word.to_le_bytes());
}

/// Lays the bytes of a word from a place on, as far as there is room, which is for at most eight.
pub(crate) fn lay_last(buf: &mut [u8], at: usize, word: u64)
    requires room { (at ≤ length buf.old) × (length buf.old ≤ at + 8) }
    ensures length { length buf.new ≡ length buf.old }
    ensures before { (i : ℕ) → i < at → slice_index buf.new i ≡ slice_index buf.old i }
    ensures laid { (j : ℕ) → at + j < length buf.old → slice_index buf.new (at + j) ≡ slice_index (to_le_bytes w64 word) j }
{
    let n = buf.len() - at;
    buf[at..at + n].copy_from_slice(&word.to_le_bytes()[..n]);
}
