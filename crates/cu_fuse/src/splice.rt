//! A kernel in place of the loads of one input of another.
ghost use Rattle.std.specs.Prelude.{◌≡◌, ◌+◌, ◌<◌, ◌≤◌, ◌++◌, All, length, map};
ghost use Rattle.cu_fuse.specs.Splice.{AreNumbersBelow, moved_behind, in_place, input_behind};
ghost use Rattle.cu_fuse.specs.Splice.{spliced};

use crate::inputs::number_at;
use arrayvec::ArrayVec;
use cu_op::Instr;

/// A kernel that stands in place of the loads of input number `input`, and has `width` inputs
/// itself.
#[derive(Clone, Copy)]
pub(crate) struct Inner<'a> {
    pub(crate) input: u32,
    pub(crate) width: u32,
    pub(crate) code: &'a [Instr],
}

/// An instruction behind `count` others, which loads from the inputs from number `first` on.
fn moved_behind(count: u32, first: u32, instr: Instr) -> Instr
    requires count { count ≤ 1024 }
    requires first { first ≤ 8 }
    requires small { AreNumbersBelow instr }
    ensures { result ≡ moved_behind count first instr }
{
    match instr {
        Instr::Load(k) => Instr::Load(first + k),
        Instr::Const(x) => Instr::Const(x),
        Instr::One(f, t, a) => Instr::One(f, t, count + a),
        Instr::Two(f, t, a, b) => Instr::Two(f, t, count + a, count + b),
        Instr::Select(c, a, b) => Instr::Select(count + c, count + a, count + b),
    }
}

/// The number of an input where `width` others stand in place of number `j`.
fn input_behind(j: u32, width: u32, k: u32) -> u32
    requires width { width ≤ 8 }
    requires small { k < 2147483648 }
    ensures { result ≡ input_behind j width k }
{
    if k < j {
        k
    } else {
        (k + width).saturating_sub(1)
    }
}

/// Appends the inner kernel.
fn push_inner(inner: Inner<'_>, code: &mut ArrayVec<Instr, 1024>)
    requires few { length code.old.items ≤ 992 }
    requires inner { length inner.code.now ≤ 32 }
    requires input { inner.input ≤ 8 }
    requires small { All AreNumbersBelow inner.code.now }
    ensures { code.new.items ≡ code.old.items
        ++ map (moved_behind (length code.old.items) inner.entry.input) inner.entry.code.now }
{
    let count = code.len();
    for instr in inner.code {
        code.push(moved_behind(count as u32, inner.input, *instr));
    }
}

/// Appends what stands in place of an instruction.
fn push_in_place(inner: Inner<'_>, places: &[u32], instr: Instr, code: &mut ArrayVec<Instr, 1024>)
    requires few { length code.old.items ≤ 992 }
    requires inner { length inner.code.now ≤ 32 }
    requires some { 0 < length inner.code.now }
    requires input { inner.input ≤ 8 }
    requires width { inner.width ≤ 8 }
    requires small { All AreNumbersBelow inner.code.now }
    requires own { AreNumbersBelow instr }
    ensures code { code.new.items ≡ code.old.items
        ++ in_place inner.entry.input inner.entry.width inner.entry.code.now places.now
        (length code.old.items) instr }
    ensures longer { length code.old.items < length code.new.items }
    ensures few { length code.new.items ≤ length code.old.items + 32 }
{
    match instr {
        Instr::Load(k) => {
            if k == inner.input {
                push_inner(inner, code);
            } else {
                code.push(Instr::Load(input_behind(inner.input, inner.width, k)));
            }
        }
        Instr::Const(x) => code.push(Instr::Const(x)),
        Instr::One(f, t, a) => code.push(Instr::One(f, t, number_at(places, a))),
        Instr::Two(f, t, a, b) => code.push(Instr::Two(
            f,
            t,
            number_at(places, a),
            number_at(places, b),
        )),
        Instr::Select(c, a, b) => code.push(Instr::Select(
            number_at(places, c),
            number_at(places, a),
            number_at(places, b),
        )),
    }
}

/// The kernel in which the inner one stands in place of each load of its input.
pub(crate) fn spliced(inner: Inner<'_>, outer: &[Instr]) -> ArrayVec<Instr, 1024>
    requires input { inner.input ≤ 8 }
    requires width { inner.width ≤ 8 }
    requires some { 0 < length inner.code.now }
    requires inner { length inner.code.now ≤ 32 }
    requires few { length outer.now ≤ 32 }
    requires small { All AreNumbersBelow inner.code.now }
    requires own { All AreNumbersBelow outer.now }
    ensures code { result.items
        ≡ spliced inner.entry.input inner.entry.width inner.entry.code.now outer.now }
    ensures few { length result.items ≤ 1024 }
{
    let mut code = ArrayVec::new();
    let mut places = ArrayVec::<u32, 32>::new();
    for instr in outer {
        push_in_place(inner, places.as_slice(), *instr, &mut code);
        places.push(code.len() as u32 - 1);
    }
    code
}
