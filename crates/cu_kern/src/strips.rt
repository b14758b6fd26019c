//! Elements along a run of places of the result, as bytes, and the loops over them.
ghost use Rattle.std.specs.Prelude.{◌≡◌, ◌+◌, ◌<◌, ◌≤◌, ◌^◌, ℕ, length};
ghost use Rattle.cu_num.specs.Scalar.{result_type2};
ghost use Rattle.cu_num.specs.declared.types.Dtype.TheVariants.{Bool};
ghost use Rattle.cu_kern.specs.Strips.{strip, value_along, IsCall, WidensTo, HasPlace, HasArguments, HasResults, HasPart, ResultsBelow};

use crate::calls::{Call, chosen, extreme, value2};
use cu_num::{Dtype, Fn1, Fn2, load, result1, result2, save, scalar1, size};

/// Elements of which the next place reads the next, or where the step is 0 the same.
#[derive(Clone, Copy)]
pub(crate) struct Strip<'a> {
    pub(crate) bytes: &'a [u8],
    pub(crate) step: usize,
}

impl<'a> Strip<'a> {
    /// The strip, with its step as a literal.
    #[inline(always)]
    pub(crate) fn resting(self) -> Strip<'a>
        requires { self.step ≡ 0 }
        ensures bytes { result.bytes.now ≡ self.entry.bytes.now }
        ensures step { result.step ≡ self.entry.step }
    {
        Strip {
            bytes: self.bytes,
            step: 0,
        }
    }

    /// The strip, with its step as a literal.
    #[inline(always)]
    pub(crate) fn moving(self) -> Strip<'a>
        requires some { 0 < self.step }
        requires one { self.step ≤ 1 }
        ensures bytes { result.bytes.now ≡ self.entry.bytes.now }
        ensures step { result.step ≡ self.entry.step }
    {
        Strip {
            bytes: self.bytes,
            step: 1,
        }
    }
}

/// A function of two arguments.
#[inline(always)]
pub(crate) fn pair_each(
    f: Fn2,
    t: Dtype,
    x: &[u8],
    x_step: usize,
    y: &[u8],
    y_step: usize,
    out: &mut [u8],
)
    requires arguments { HasArguments (Call.Two f t) (strip x.now x_step) (strip y.now y_step) (strip y.now y_step) (length out.old) }
    ensures { HasResults (Call.Two f t) (strip x.now x_step) (strip y.now y_step) (strip y.now y_step) out.new }
{
    let r = result2(f, t);
    let count = out.len() / size(r) as usize;
    for at in 0..count {
        let value = value2(f, t, load(t, x, x_step * at), load(t, y, y_step * at));
        save(r, value, out, at);
    }
}

/// A function of two arguments that gives truth values, sixteen in a step. The last step begins so early that it ends with the run.
#[inline(always)]
pub(crate) fn compare_short(f: Fn2, t: Dtype, x: &[u8], y: &[u8], y_step: usize, out: &mut [u8])
    requires truth { result_type2 f t ≡ Bool }
    requires some { 16 ≤ length out.old }
    requires arguments { HasArguments (Call.Two f t) (strip x.now 1) (strip y.now y_step) (strip y.now y_step) (length out.old) }
    ensures { HasResults (Call.Two f t) (strip x.now 1) (strip y.now y_step) (strip y.now y_step) out.new }
{
    let count = out.len();
    for block in 0..count.div_ceil(16) {
        let from = (block * 16).min(count - 16);
        put_sixteen(f, t, x, y, y_step, from, out);
    }
}

/// `compare_short`, twice sixty-four in a step. Where the arguments lie beyond the nearest cache this was measured to be faster.
#[inline(always)]
pub(crate) fn compare_long(f: Fn2, t: Dtype, x: &[u8], y: &[u8], y_step: usize, out: &mut [u8])
    requires truth { result_type2 f t ≡ Bool }
    requires some { 128 ≤ length out.old }
    requires arguments { HasArguments (Call.Two f t) (strip x.now 1) (strip y.now y_step) (strip y.now y_step) (length out.old) }
    ensures { HasResults (Call.Two f t) (strip x.now 1) (strip y.now y_step) (strip y.now y_step) out.new }
{
    let count = out.len();
    for block in 0..count.div_ceil(128) {
        let from = (block * 128).min(count - 128);
        for half in 0..2 {
            put_sixty_four(f, t, x, y, y_step, from + half * 64, out);
        }
    }
}

/// `compare_long`, sixty-four in a step: of elements of 64 bits longer steps were measured to be slower.
#[inline(always)]
pub(crate) fn compare_wide(f: Fn2, t: Dtype, x: &[u8], y: &[u8], y_step: usize, out: &mut [u8])
    requires truth { result_type2 f t ≡ Bool }
    requires some { 64 ≤ length out.old }
    requires arguments { HasArguments (Call.Two f t) (strip x.now 1) (strip y.now y_step) (strip y.now y_step) (length out.old) }
    ensures { HasResults (Call.Two f t) (strip x.now 1) (strip y.now y_step) (strip y.now y_step) out.new }
{
    let count = out.len();
    for block in 0..count.div_ceil(64) {
        let from = (block * 64).min(count - 64);
        put_sixty_four(f, t, x, y, y_step, from, out);
    }
}

/// Sixteen truth values more, where those before `from` are there.
#[inline(always)]
fn put_sixteen(f: Fn2, t: Dtype, x: &[u8], y: &[u8], y_step: usize, from: usize, out: &mut [u8])
    requires truth { result_type2 f t ≡ Bool }
    requires room { from + 16 ≤ length out.old }
    requires done { ResultsBelow (Call.Two f t) (strip x.now 1) (strip y.now y_step) (strip y.now y_step) from out.old }
    requires arguments { HasArguments (Call.Two f t) (strip x.now 1) (strip y.now y_step) (strip y.now y_step) (length out.old) }
    ensures { ResultsBelow (Call.Two f t) (strip x.now 1) (strip y.now y_step) (strip y.now y_step) (from + 16) out.new }
{
    let mut part = [0; 16];
    gather(f, t, x, y, y_step, from, &mut part);
    write(&part, &mut out[from..from + 16]);
}

/// Sixty-four truth values more, where those before `from` are there. All are made before the first is written: where the result
/// lies a little behind an argument, counted within a page, a read waits for the write before it.
#[inline(always)]
fn put_sixty_four(f: Fn2, t: Dtype, x: &[u8], y: &[u8], y_step: usize, from: usize, out: &mut [u8])
    requires truth { result_type2 f t ≡ Bool }
    requires room { from + 64 ≤ length out.old }
    requires done { ResultsBelow (Call.Two f t) (strip x.now 1) (strip y.now y_step) (strip y.now y_step) from out.old }
    requires arguments { HasArguments (Call.Two f t) (strip x.now 1) (strip y.now y_step) (strip y.now y_step) (length out.old) }
    ensures { ResultsBelow (Call.Two f t) (strip x.now 1) (strip y.now y_step) (strip y.now y_step) (from + 64) out.new }
{
    let mut part = [0; 64];
    for quarter in 0..4 {
        let at = quarter * 16;
        gather(f, t, x, y, y_step, from + at, &mut part[at..at + 16]);
    }
    write(&part, &mut out[from..from + 64]);
}

/// Sixteen truth values, made apart from the result, so that a compiler takes as many together where the arguments are wider.
#[inline(always)]
fn gather(f: Fn2, t: Dtype, x: &[u8], y: &[u8], y_step: usize, from: usize, part: &mut [u8])
    requires truth { result_type2 f t ≡ Bool }
    requires room { length part.old ≡ 16 }
    requires small { from < 2 ^ 63 }
    requires places { (k : ℕ) → k < 16 → HasPlace (Call.Two f t) (strip x.now 1) (strip y.now y_step) (strip y.now y_step) (from + k) }
    ensures len { length part.new ≡ 16 }
    ensures values { HasPart (Call.Two f t) (strip x.now 1) (strip y.now y_step) (strip y.now y_step) from part.new }
{
    let r = result2(f, t);
    for k in 0..16 {
        let at = from + k;
        let value = value2(f, t, load(t, x, at), load(t, y, y_step * at));
        save(r, value, part, k);
    }
}

/// Writes bytes one by one: built, these are writes from registers. A copy of a slice first asks how the two lie, and goes over the
/// stack.
#[inline(always)]
fn write(part: &[u8], place: &mut [u8])
    requires { length place.old ≡ length part.now }
    ensures { place.new ≡ part.now }
{
    for k in 0..part.len() {
        place[k] = part[k];
    }
}

/// A function of one argument, at one place.
#[inline(always)]
fn one_at(f: Fn1, origin: Dtype, t: Dtype, x: Strip<'_>, at: usize) -> i128
    requires call { IsCall (Call.One f origin t) }
    requires place { HasPlace (Call.One f origin t) (strip x.bytes.now x.step) (strip x.bytes.now x.step) (strip x.bytes.now x.step) at }
    ensures { result ≡ value_along (Call.One f origin t) (strip x.entry.bytes.now x.entry.step) (strip x.entry.bytes.now x.entry.step) (strip x.entry.bytes.now x.entry.step) at }
{
    scalar1(f, t, load(origin, x.bytes, x.step * at))
}

/// A function of one argument.
#[inline(always)]
pub(crate) fn one_each(f: Fn1, origin: Dtype, t: Dtype, x: Strip<'_>, out: &mut [u8])
    requires call { IsCall (Call.One f origin t) }
    requires arguments { HasArguments (Call.One f origin t) (strip x.bytes.now x.step) (strip x.bytes.now x.step) (strip x.bytes.now x.step) (length out.old) }
    ensures { HasResults (Call.One f origin t) (strip x.entry.bytes.now x.entry.step) (strip x.entry.bytes.now x.entry.step) (strip x.entry.bytes.now x.entry.step) out.new }
{
    let r = result1(f, t);
    let count = out.len() / size(r) as usize;
    for at in 0..count {
        save(r, one_at(f, origin, t, x, at), out, at);
    }
}

/// A choice, at one place.
#[inline(always)]
fn select_at(t: Dtype, x: Strip<'_>, y: Strip<'_>, z: Strip<'_>, at: usize) -> i128
    requires place { HasPlace (Call.Select t) (strip x.bytes.now x.step) (strip y.bytes.now y.step) (strip z.bytes.now z.step) at }
    ensures { result ≡ value_along (Call.Select t) (strip x.entry.bytes.now x.entry.step) (strip y.entry.bytes.now y.entry.step) (strip z.entry.bytes.now z.entry.step) at }
{
    chosen(
        load(Dtype::Bool, x.bytes, x.step * at),
        load(t, y.bytes, y.step * at),
        load(t, z.bytes, z.step * at),
    )
}

/// A choice.
#[inline(always)]
pub(crate) fn select_each(t: Dtype, x: Strip<'_>, y: Strip<'_>, z: Strip<'_>, out: &mut [u8])
    requires arguments { HasArguments (Call.Select t) (strip x.bytes.now x.step) (strip y.bytes.now y.step) (strip z.bytes.now z.step) (length out.old) }
    ensures { HasResults (Call.Select t) (strip x.entry.bytes.now x.entry.step) (strip y.entry.bytes.now y.entry.step) (strip z.entry.bytes.now z.entry.step) out.new }
{
    let count = out.len() / size(t) as usize;
    for at in 0..count {
        save(t, select_at(t, x, y, z, at), out, at);
    }
}

/// The least or the greatest, at one place.
#[inline(always)]
fn extreme_at(least: bool, t: Dtype, x: Strip<'_>, y: Strip<'_>, at: usize) -> i128
    requires place { HasPlace (Call.Extreme least t) (strip x.bytes.now x.step) (strip y.bytes.now y.step) (strip y.bytes.now y.step) at }
    ensures { result ≡ value_along (Call.Extreme least t) (strip x.entry.bytes.now x.entry.step) (strip y.entry.bytes.now y.entry.step) (strip y.entry.bytes.now y.entry.step) at }
{
    extreme(
        least,
        load(t, x.bytes, x.step * at),
        load(t, y.bytes, y.step * at),
    )
}

/// The least of two arguments, or else the greatest.
#[inline(always)]
pub(crate) fn extreme_each(least: bool, t: Dtype, x: Strip<'_>, y: Strip<'_>, out: &mut [u8])
    requires arguments { HasArguments (Call.Extreme least t) (strip x.bytes.now x.step) (strip y.bytes.now y.step) (strip y.bytes.now y.step) (length out.old) }
    ensures { HasResults (Call.Extreme least t) (strip x.entry.bytes.now x.entry.step) (strip y.entry.bytes.now y.entry.step) (strip y.entry.bytes.now y.entry.step) out.new }
{
    let count = out.len() / size(t) as usize;
    for at in 0..count {
        save(t, extreme_at(least, t, x, y, at), out, at);
    }
}

/// The product of numbers of a narrower type, at one place.
#[inline(always)]
fn product_at(from: Dtype, t: Dtype, x: Strip<'_>, y: Strip<'_>, at: usize) -> i128
    requires within { WidensTo from t }
    requires place { HasPlace (Call.Product from t) (strip x.bytes.now x.step) (strip y.bytes.now y.step) (strip y.bytes.now y.step) at }
    ensures { result ≡ value_along (Call.Product from t) (strip x.entry.bytes.now x.entry.step) (strip y.entry.bytes.now y.entry.step) (strip y.entry.bytes.now y.entry.step) at }
{
    let first = load(from, x.bytes, x.step * at);
    let second = load(from, y.bytes, y.step * at);
    value2(Fn2::Multiply, t, first, second)
}

/// The product of numbers of a narrower type: a processor has an instruction for it where it has none for the wide type.
#[inline(always)]
pub(crate) fn product_each(from: Dtype, t: Dtype, x: Strip<'_>, y: Strip<'_>, out: &mut [u8])
    requires within { WidensTo from t }
    requires arguments { HasArguments (Call.Product from t) (strip x.bytes.now x.step) (strip y.bytes.now y.step) (strip y.bytes.now y.step) (length out.old) }
    ensures { HasResults (Call.Product from t) (strip x.entry.bytes.now x.entry.step) (strip y.entry.bytes.now y.entry.step) (strip y.entry.bytes.now y.entry.step) out.new }
{
    let count = out.len() / size(t) as usize;
    for at in 0..count {
        save(t, product_at(from, t, x, y, at), out, at);
    }
}

/// The square of a number of a narrower type, at one place.
#[inline(always)]
fn square_at(from: Dtype, t: Dtype, x: Strip<'_>, at: usize) -> i128
    requires within { WidensTo from t }
    requires place { HasPlace (Call.Square from t) (strip x.bytes.now x.step) (strip x.bytes.now x.step) (strip x.bytes.now x.step) at }
    ensures { result ≡ value_along (Call.Square from t) (strip x.entry.bytes.now x.entry.step) (strip x.entry.bytes.now x.entry.step) (strip x.entry.bytes.now x.entry.step) at }
{
    scalar1(Fn1::Square, t, load(from, x.bytes, x.step * at))
}

/// The square of numbers of a narrower type.
#[inline(always)]
pub(crate) fn square_each(from: Dtype, t: Dtype, x: Strip<'_>, out: &mut [u8])
    requires within { WidensTo from t }
    requires arguments { HasArguments (Call.Square from t) (strip x.bytes.now x.step) (strip x.bytes.now x.step) (strip x.bytes.now x.step) (length out.old) }
    ensures { HasResults (Call.Square from t) (strip x.entry.bytes.now x.entry.step) (strip x.entry.bytes.now x.entry.step) (strip x.entry.bytes.now x.entry.step) out.new }
{
    let count = out.len() / size(t) as usize;
    for at in 0..count {
        save(t, square_at(from, t, x, at), out, at);
    }
}
