//! The inputs of a map with the inputs of a maker in place of one.
ghost use Rattle.std.specs.Prelude.{◌≡◌, ◌<◌, ◌≤◌, ◌+◌, ◌++◌, length, slice_index};
ghost use Rattle.cu_fuse.specs.Fused.{stands_once};
ghost use Rattle.cu_fuse.specs.Once.{distinct};
ghost use Rattle.cu_fuse.specs.Splice.{put_in};

use arrayvec::ArrayVec;
use cu_op::{number_in, stands_in};

/// Whether a number stands in the list once.
pub(crate) fn stands_once(numbers: &[u32], a: u32) -> bool
    ensures { result ≡ stands_once numbers.now a }
{
    let place = number_in(numbers, a);
    place < numbers.len() && !stands_in(&numbers[place + 1..], a)
}

/// The number at a place of the list, and 0 past its end.
pub(crate) fn number_at(numbers: &[u32], k: u32) -> u32
    ensures { result ≡ slice_index numbers.now k }
{
    if k as usize >= numbers.len() {
        return 0;
    }
    numbers[k as usize]
}

/// The numbers of a list, each at its first place.
pub(crate) fn distinct(numbers: &[u32]) -> ArrayVec<u32, 16>
    requires { length numbers.now ≤ 16 }
    ensures { result.items ≡ distinct numbers.now }
{
    let mut list = ArrayVec::new();
    for number in numbers {
        if !stands_in(list.as_slice(), *number) {
            list.push(*number);
        }
    }
    list
}

/// A list with others in place of number `j`.
pub(crate) fn put_in(j: usize, others: &[u32], numbers: &[u32]) -> ArrayVec<u32, 16>
    requires within { j < length numbers.now }
    requires few { length numbers.now ≤ 8 }
    requires others { length others.now ≤ 8 }
    ensures list { result.items ≡ put_in j others.now numbers.now }
    ensures few { length result.items ≤ 16 }
{
    let mut list = ArrayVec::new();
    push_all(&numbers[..j], &mut list);
    push_all(others, &mut list);
    push_all(&numbers[j + 1..], &mut list);
    list
}

/// Appends numbers.
fn push_all(numbers: &[u32], list: &mut ArrayVec<u32, 16>)
    requires room { length list.old.items + length numbers.now ≤ 16 }
    ensures { list.new.items ≡ list.old.items ++ numbers.now }
{
    for number in numbers {
        list.push(*number);
    }
}
