//! Arrays that are numbered anew: each gets its place in a list.
ghost use Rattle.std.specs.Prelude.{◌≡◌, ◌<◌, ◌≤◌, ◌^◌, length, map, option_map};
ghost use Rattle.cu_op.specs.Numbers.{number_in, stands_in};

use arrayvec::ArrayVec;

/// The first place of a number in the list, and its length where it doesn't stand there.
pub fn number_in(numbers: &[u32], a: u32) -> usize
    ensures place { result ≡ number_in numbers.now a }
    ensures within { result ≤ length numbers.now }
{
    let mut place = 0;
    for b in numbers {
        if *b == a {
            return place;
        }
        place += 1;
    }
    place
}

/// Whether a number stands in the list.
pub fn stands_in(numbers: &[u32], a: u32) -> bool
    ensures { result ≡ stands_in numbers.now a }
{
    numbers.iter().any(|b| *b == a)
}

/// The new number of an array.
pub fn new_number(numbers: &[u32], a: u32) -> u32
    requires { length numbers.now < 2 ^ 32 }
    ensures { result ≡ number_in numbers.now a }
{
    number_in(numbers, a) as u32
}

/// The new number of an array that may be absent.
pub(crate) fn new_option(numbers: &[u32], array: Option<u32>) -> Option<u32>
    requires { length numbers.now < 2 ^ 32 }
    ensures { result ≡ option_map (number_in numbers.now) array }
{
    array.map(|a| new_number(numbers, a))
}

/// The new numbers of arrays.
fn new_numbers(numbers: &[u32], ins: &ArrayVec<u32, 8>) -> ArrayVec<u32, 8>
    requires { length numbers.now < 2 ^ 32 }
    ensures { result.items ≡ map (number_in numbers.now) ins.now.items }
{
    let mut new = ArrayVec::new();
    for a in ins.as_slice() {
        new.push(new_number(numbers, *a));
    }
    new
}

/// Gives two arrays their new numbers.
pub(crate) fn renumber_both(numbers: &[u32], first: &mut u32, second: &mut u32)
    requires { length numbers.now < 2 ^ 32 }
    ensures first { first.new ≡ number_in numbers.now first.old }
    ensures second { second.new ≡ number_in numbers.now second.old }
{
    *first = new_number(numbers, *first);
    *second = new_number(numbers, *second);
}

/// Gives the arrays that an operation reads, and the one that it makes, their new numbers.
pub(crate) fn renumber_inputs(numbers: &[u32], ins: &mut ArrayVec<u32, 8>, out: &mut u32)
    requires { length numbers.now < 2 ^ 32 }
    ensures ins { ins.new.items ≡ map (number_in numbers.now) ins.old.items }
    ensures out { out.new ≡ number_in numbers.now out.old }
{
    *ins = new_numbers(numbers, ins);
    *out = new_number(numbers, *out);
}
