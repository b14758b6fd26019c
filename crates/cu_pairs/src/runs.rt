//! The best of elements that follow one another, by blocks: of each is asked whether an element is beyond the best so far, and only where
//! one is the first best of the block is sought.
ghost use Rattle.std.specs.Prelude.{◌≡◌, ◌≢◌, ◌+◌, ◌*◌, ◌/◌, ◌<◌, ◌≤◌, ℕ, length, if◌then◌else◌};
ghost use Rattle.cu_num.specs.Dtype.{size_of};
ghost use Rattle.cu_reduce.specs.Places.{is_beyond};
ghost use Rattle.cu_pairs.specs.Runs.{elements, TellsBeyond, IsBestValue, IsFirstBest};

use cu_num::{Dtype, load, save, size};

/// How many elements a block has: few, since the place is sought element by element within one.
const BLOCK: usize = 64;

/// Whether `y` is less than `x`, or greater.
#[inline(always)]
pub(crate) fn is_beyond(least: bool, y: i128, x: i128) -> bool
    ensures { result ≡ is_beyond least y x }
{
    if least { y < x } else { x < y }
}

/// The first number where the choice is true, else the second.
#[inline(always)]
pub(crate) fn chosen(choice: bool, x: i128, y: i128) -> i128
    ensures { result ≡ if choice then x else y }
{
    if choice { x } else { y }
}

/// The least or the greatest of at least one element.
#[inline(always)]
pub(crate) fn best_value(least: bool, t: Dtype, bytes: &[u8]) -> i128
    requires some { size_of t ≤ length bytes.now }
    ensures best { IsBestValue least (elements t bytes.now) (length bytes.now / size_of t) result }
{
    let count = bytes.len() / size(t) as usize;
    let mut best = [0; 8];
    save(t, load(t, bytes, 0), &mut best, 0);
    for at in 1..count {
        let x = load(t, bytes, at);
        let value = load(t, &best, 0);
        let choice = is_beyond(least, x, value);
        save(t, chosen(choice, x, value), &mut best, 0);
    }
    load(t, &best, 0)
}

/// The number of the first element that is `x`, or how many elements there are where none is.
#[inline(always)]
fn position(t: Dtype, bytes: &[u8], x: i128) -> usize
    ensures within { result ≤ length bytes.now / size_of t }
    ensures before { (k : ℕ) → k < result → elements t bytes.now k ≢ x }
    ensures found { result < length bytes.now / size_of t → elements t bytes.now result ≡ x }
{
    let count = bytes.len() / size(t) as usize;
    for at in 0..count {
        if load(t, bytes, at) == x {
            return at;
        }
    }
    count
}

/// The number of the first best of at least one element, in two passes.
#[inline(always)]
fn first_best_of_block(least: bool, t: Dtype, bytes: &[u8]) -> usize
    requires some { size_of t ≤ length bytes.now }
    ensures { IsFirstBest least (elements t bytes.now) (length bytes.now / size_of t) result }
{
    position(t, bytes, best_value(least, t, bytes))
}

/// Whether one of the elements is beyond `x`.
#[inline(always)]
fn has_beyond(least: bool, t: Dtype, bytes: &[u8], x: i128) -> bool
    ensures { TellsBeyond result least (elements t bytes.now) (length bytes.now / size_of t) x }
{
    let count = bytes.len() / size(t) as usize;
    let mut any = false;
    for at in 0..count {
        any |= is_beyond(least, load(t, bytes, at), x);
    }
    any
}

/// The number of the first best of the elements before number `from` and so many more, where `best` is that of those before. Its value
/// is read anew, so that a compiler sees how few bits it has.
#[inline(always)]
fn after_block(least: bool, t: Dtype, bytes: &[u8], from: usize, more: usize, best: usize) -> usize
    requires within { (from + more) * size_of t ≤ length bytes.now }
    requires before { IsFirstBest least (elements t bytes.now) from best }
    ensures { IsFirstBest least (elements t bytes.now) (from + more) result }
{
    let size = size(t) as usize;
    let block = &bytes[from * size..(from + more) * size];
    if has_beyond(least, t, block, load(t, bytes, best)) {
        from + first_best_of_block(least, t, block)
    } else {
        best
    }
}

/// The number of the first best of at least one element.
#[inline(always)]
pub(crate) fn first_best(least: bool, t: Dtype, bytes: &[u8]) -> usize
    requires some { size_of t ≤ length bytes.now }
    ensures { IsFirstBest least (elements t bytes.now) (length bytes.now / size_of t) result }
{
    let size = size(t) as usize;
    let count = bytes.len() / size;
    let first = count.min(BLOCK);
    let mut best = first_best_of_block(least, t, &bytes[..first * size]);
    let whole = count / BLOCK;
    for block in 1..whole {
        best = after_block(least, t, bytes, block * BLOCK, BLOCK, best);
    }
    let from = first.max(whole * BLOCK);
    after_block(least, t, bytes, from, count - from, best)
}
