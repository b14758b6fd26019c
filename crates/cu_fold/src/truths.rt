//! Whether an element of a run isn't 0, whatever its type: one of its bytes isn't.
ghost use Rattle.std.specs.Prelude.{◌≡◌, ◌*◌, ◌≤◌, length};
ghost use Rattle.std.specs.List.{range_with_len, list_any};
ghost use Rattle.cu_num.specs.Dtype.{size_of};
ghost use Rattle.cu_fold.specs.SetBytes.{is_set};
ghost use Rattle.cu_take.specs.Taken.{HasTaken, elements_at_places};

use cu_num::{Dtype, FoldKind, save, size};

/// How many bytes are looked at before it is asked whether one was found.
const BLOCK: usize = 16384;

/// Whether one of these bytes isn't 0.
#[inline(always)]
fn block_has(bytes: &[u8]) -> bool
    ensures { result ≡ list_any is_set bytes.now }
{
    let mut seen = 0u8;
    for byte in bytes {
        seen |= *byte;
    }
    seen != 0
}

/// The same, block by block.
fn has_set(bytes: &[u8]) -> bool
    ensures { result ≡ list_any is_set bytes.now }
{
    let mut start = 0;
    while start < bytes.len() {
        let end = start + BLOCK.min(bytes.len() - start);
        if block_has(&bytes[start..end]) {
            return true;
        }
        start = end;
    }
    false
}

/// Takes the first elements of `input` into one truth value, which an element that isn't 0 makes true.
pub(crate) fn take_any(from: Dtype, count: usize, input: &[u8], out: &mut [u8])
    requires input { count * size_of from ≤ length input.now }
    requires out { 1 ≤ length out.old }
    ensures { HasTaken FoldKind.Any Dtype.Bool out.old out.new 0 (elements_at_places from input.now (range_with_len 0 count)) }
{
    let bytes = count * size(from) as usize;
    if has_set(&input[..bytes]) {
        save(Dtype::Bool, 1, out, 0);
    }
}
