//! Loops from bytes to bytes, one for each call and steps of its arguments: all are given as literals, and the loops are built for
//! them.
ghost use Rattle.std.specs.Prelude.{◌≤◌, ◌≡◌, length};
ghost use Rattle.cu_num.specs.Scalar.{result_type2};
ghost use Rattle.cu_num.specs.declared.types.Dtype.TheVariants.{Bool};
ghost use Rattle.cu_kern.specs.Strips.{strip, IsCall, WidensTo, HasArguments, HasResults};

use crate::by_type::{call_by_type, call_widening};
use crate::calls::Call;
use crate::strips::{
    Strip, compare_long, compare_short, compare_wide, extreme_each, one_each, pair_each,
    product_each, select_each, square_each,
};
use cu_num::{Dtype, Fn1, Fn2};

/// A function of one argument other than `Astype`, with loops for each type.
#[inline(always)]
pub(crate) fn one_by_type(f: Fn1, t: Dtype, x: Strip<'_>, out: &mut [u8])
    requires call { IsCall (Call.One f t t) }
    requires arguments { HasArguments (Call.One f t t) (strip x.bytes.now x.step) (strip x.bytes.now x.step) (strip x.bytes.now x.step) (length out.old) }
    ensures { HasResults (Call.One f t t) (strip x.entry.bytes.now x.entry.step) (strip x.entry.bytes.now x.entry.step) (strip x.entry.bytes.now x.entry.step) out.new }
{
    match t {
        Dtype::Bool => by_step(f, Dtype::Bool, Dtype::Bool, x, out),
        Dtype::Int8 => by_step(f, Dtype::Int8, Dtype::Int8, x, out),
        Dtype::Int16 => by_step(f, Dtype::Int16, Dtype::Int16, x, out),
        Dtype::Int32 => by_step(f, Dtype::Int32, Dtype::Int32, x, out),
        Dtype::Int64 => by_step(f, Dtype::Int64, Dtype::Int64, x, out),
        Dtype::Uint8 => by_step(f, Dtype::Uint8, Dtype::Uint8, x, out),
        Dtype::Uint16 => by_step(f, Dtype::Uint16, Dtype::Uint16, x, out),
        Dtype::Uint32 => by_step(f, Dtype::Uint32, Dtype::Uint32, x, out),
        Dtype::Uint64 => by_step(f, Dtype::Uint64, Dtype::Uint64, x, out),
    }
}

/// `Astype`, with loops for each pair of types.
#[inline(always)]
pub(crate) fn astype_by_types(from: Dtype, t: Dtype, x: Strip<'_>, out: &mut [u8])
    requires arguments { HasArguments (Call.One Fn1.Astype from t) (strip x.bytes.now x.step) (strip x.bytes.now x.step) (strip x.bytes.now x.step) (length out.old) }
    ensures { HasResults (Call.One Fn1.Astype from t) (strip x.entry.bytes.now x.entry.step) (strip x.entry.bytes.now x.entry.step) (strip x.entry.bytes.now x.entry.step) out.new }
{
    call_by_type!(astype_to, [], from, [t, x, out])
}

#[inline(always)]
fn astype_to(from: Dtype, t: Dtype, x: Strip<'_>, out: &mut [u8])
    requires arguments { HasArguments (Call.One Fn1.Astype from t) (strip x.bytes.now x.step) (strip x.bytes.now x.step) (strip x.bytes.now x.step) (length out.old) }
    ensures { HasResults (Call.One Fn1.Astype from t) (strip x.entry.bytes.now x.entry.step) (strip x.entry.bytes.now x.entry.step) (strip x.entry.bytes.now x.entry.step) out.new }
{
    call_by_type!(by_step, [Fn1::Astype, from], t, [x, out])
}

/// A function of two arguments, with loops for each type.
#[inline(always)]
pub(crate) fn pair_by_type(
    f: Fn2,
    t: Dtype,
    x: &[u8],
    x_step: usize,
    y: &[u8],
    y_step: usize,
    out: &mut [u8],
)
    requires arguments { HasArguments (Call.Two f t) (strip x.now x_step) (strip y.now y_step) (strip y.now y_step) (length out.old) }
    ensures { HasResults (Call.Two f t) (strip x.now x_step) (strip y.now y_step) (strip y.now y_step) out.new }
{
    call_by_type!(by_first_step, [f], t, [x, x_step, y, y_step, out])
}

/// A function of at least sixteen arguments of which the first move on, that gives truth values, with loops for each type.
#[inline(always)]
pub(crate) fn compare_short_by_type(
    f: Fn2,
    t: Dtype,
    x: &[u8],
    y: &[u8],
    y_step: usize,
    out: &mut [u8],
)
    requires truth { result_type2 f t ≡ Bool }
    requires some { 16 ≤ length out.old }
    requires arguments { HasArguments (Call.Two f t) (strip x.now 1) (strip y.now y_step) (strip y.now y_step) (length out.old) }
    ensures { HasResults (Call.Two f t) (strip x.now 1) (strip y.now y_step) (strip y.now y_step) out.new }
{
    call_by_type!(compare_short, [f], t, [x, y, y_step, out])
}

/// `compare_short_by_type` for a run of at least 128 elements.
#[inline(always)]
pub(crate) fn compare_long_by_type(
    f: Fn2,
    t: Dtype,
    x: &[u8],
    y: &[u8],
    y_step: usize,
    out: &mut [u8],
)
    requires truth { result_type2 f t ≡ Bool }
    requires some { 128 ≤ length out.old }
    requires arguments { HasArguments (Call.Two f t) (strip x.now 1) (strip y.now y_step) (strip y.now y_step) (length out.old) }
    ensures { HasResults (Call.Two f t) (strip x.now 1) (strip y.now y_step) (strip y.now y_step) out.new }
{
    match t {
        Dtype::Bool => compare_long(f, Dtype::Bool, x, y, y_step, out),
        Dtype::Int8 => compare_long(f, Dtype::Int8, x, y, y_step, out),
        Dtype::Int16 => compare_long(f, Dtype::Int16, x, y, y_step, out),
        Dtype::Int32 => compare_long(f, Dtype::Int32, x, y, y_step, out),
        Dtype::Int64 => compare_wide(f, Dtype::Int64, x, y, y_step, out),
        Dtype::Uint8 => compare_long(f, Dtype::Uint8, x, y, y_step, out),
        Dtype::Uint16 => compare_long(f, Dtype::Uint16, x, y, y_step, out),
        Dtype::Uint32 => compare_long(f, Dtype::Uint32, x, y, y_step, out),
        Dtype::Uint64 => compare_wide(f, Dtype::Uint64, x, y, y_step, out),
    }
}

/// A choice of two arguments, with loops for each type.
#[inline(always)]
pub(crate) fn select_by_type(t: Dtype, x: Strip<'_>, y: Strip<'_>, z: Strip<'_>, out: &mut [u8])
    requires arguments { HasArguments (Call.Select t) (strip x.bytes.now x.step) (strip y.bytes.now y.step) (strip z.bytes.now z.step) (length out.old) }
    ensures { HasResults (Call.Select t) (strip x.entry.bytes.now x.entry.step) (strip y.entry.bytes.now y.entry.step) (strip z.entry.bytes.now z.entry.step) out.new }
{
    call_by_type!(by_three_steps, [], t, [x, y, z, out])
}

#[inline(always)]
fn by_step(f: Fn1, from: Dtype, t: Dtype, x: Strip<'_>, out: &mut [u8])
    requires call { IsCall (Call.One f from t) }
    requires arguments { HasArguments (Call.One f from t) (strip x.bytes.now x.step) (strip x.bytes.now x.step) (strip x.bytes.now x.step) (length out.old) }
    ensures { HasResults (Call.One f from t) (strip x.entry.bytes.now x.entry.step) (strip x.entry.bytes.now x.entry.step) (strip x.entry.bytes.now x.entry.step) out.new }
{
    if x.step == 0 {
        one_each(f, from, t, x.resting(), out);
    } else {
        one_each(f, from, t, x.moving(), out);
    }
}

#[inline(always)]
fn by_first_step(f: Fn2, t: Dtype, x: &[u8], x_step: usize, y: &[u8], y_step: usize, out: &mut [u8])
    requires arguments { HasArguments (Call.Two f t) (strip x.now x_step) (strip y.now y_step) (strip y.now y_step) (length out.old) }
    ensures { HasResults (Call.Two f t) (strip x.now x_step) (strip y.now y_step) (strip y.now y_step) out.new }
{
    if x_step == 0 {
        by_second_step(f, t, x, 0, y, y_step, out);
    } else {
        by_second_step(f, t, x, 1, y, y_step, out);
    }
}

#[inline(always)]
fn by_second_step(
    f: Fn2,
    t: Dtype,
    x: &[u8],
    x_step: usize,
    y: &[u8],
    y_step: usize,
    out: &mut [u8],
)
    requires arguments { HasArguments (Call.Two f t) (strip x.now x_step) (strip y.now y_step) (strip y.now y_step) (length out.old) }
    ensures { HasResults (Call.Two f t) (strip x.now x_step) (strip y.now y_step) (strip y.now y_step) out.new }
{
    if y_step == 0 {
        pair_each(f, t, x, x_step, y, 0, out);
    } else {
        pair_each(f, t, x, x_step, y, 1, out);
    }
}

#[inline(always)]
fn by_three_steps(t: Dtype, x: Strip<'_>, y: Strip<'_>, z: Strip<'_>, out: &mut [u8])
    requires arguments { HasArguments (Call.Select t) (strip x.bytes.now x.step) (strip y.bytes.now y.step) (strip z.bytes.now z.step) (length out.old) }
    ensures { HasResults (Call.Select t) (strip x.entry.bytes.now x.entry.step) (strip y.entry.bytes.now y.entry.step) (strip z.entry.bytes.now z.entry.step) out.new }
{
    if x.step == 0 {
        by_two_steps(t, x.resting(), y, z, out);
    } else {
        by_two_steps(t, x.moving(), y, z, out);
    }
}

#[inline(always)]
fn by_two_steps(t: Dtype, x: Strip<'_>, y: Strip<'_>, z: Strip<'_>, out: &mut [u8])
    requires arguments { HasArguments (Call.Select t) (strip x.bytes.now x.step) (strip y.bytes.now y.step) (strip z.bytes.now z.step) (length out.old) }
    ensures { HasResults (Call.Select t) (strip x.entry.bytes.now x.entry.step) (strip y.entry.bytes.now y.entry.step) (strip z.entry.bytes.now z.entry.step) out.new }
{
    if y.step == 0 {
        by_last_step(t, x, y.resting(), z, out);
    } else {
        by_last_step(t, x, y.moving(), z, out);
    }
}

#[inline(always)]
fn by_last_step(t: Dtype, x: Strip<'_>, y: Strip<'_>, z: Strip<'_>, out: &mut [u8])
    requires arguments { HasArguments (Call.Select t) (strip x.bytes.now x.step) (strip y.bytes.now y.step) (strip z.bytes.now z.step) (length out.old) }
    ensures { HasResults (Call.Select t) (strip x.entry.bytes.now x.entry.step) (strip y.entry.bytes.now y.entry.step) (strip z.entry.bytes.now z.entry.step) out.new }
{
    if z.step == 0 {
        select_each(t, x, y, z.resting(), out);
    } else {
        select_each(t, x, y, z.moving(), out);
    }
}

/// The least or the greatest of two arguments of one type.
#[inline(always)]
pub(crate) fn extreme_by_steps(least: bool, t: Dtype, x: Strip<'_>, y: Strip<'_>, out: &mut [u8])
    requires arguments { HasArguments (Call.Extreme least t) (strip x.bytes.now x.step) (strip y.bytes.now y.step) (strip y.bytes.now y.step) (length out.old) }
    ensures { HasResults (Call.Extreme least t) (strip x.entry.bytes.now x.entry.step) (strip y.entry.bytes.now y.entry.step) (strip y.entry.bytes.now y.entry.step) out.new }
{
    if x.step == 0 {
        extreme_by_last_step(least, t, x.resting(), y, out);
    } else {
        extreme_by_last_step(least, t, x.moving(), y, out);
    }
}

#[inline(always)]
fn extreme_by_last_step(least: bool, t: Dtype, x: Strip<'_>, y: Strip<'_>, out: &mut [u8])
    requires arguments { HasArguments (Call.Extreme least t) (strip x.bytes.now x.step) (strip y.bytes.now y.step) (strip y.bytes.now y.step) (length out.old) }
    ensures { HasResults (Call.Extreme least t) (strip x.entry.bytes.now x.entry.step) (strip y.entry.bytes.now y.entry.step) (strip y.entry.bytes.now y.entry.step) out.new }
{
    if y.step == 0 {
        extreme_each(least, t, x, y.resting(), out);
    } else {
        extreme_each(least, t, x, y.moving(), out);
    }
}

/// The product of numbers of a narrower type, with loops for each pair of types.
#[inline(always)]
pub(crate) fn product_by_types(from: Dtype, t: Dtype, x: Strip<'_>, y: Strip<'_>, out: &mut [u8])
    requires within { WidensTo from t }
    requires arguments { HasArguments (Call.Product from t) (strip x.bytes.now x.step) (strip y.bytes.now y.step) (strip y.bytes.now y.step) (length out.old) }
    ensures { HasResults (Call.Product from t) (strip x.entry.bytes.now x.entry.step) (strip y.entry.bytes.now y.entry.step) (strip y.entry.bytes.now y.entry.step) out.new }
{
    call_widening!(
        product_by_steps,
        from,
        t,
        [x, y, out],
        product_each(from, t, x, y, out)
    )
}

#[inline(always)]
fn product_by_steps(from: Dtype, t: Dtype, x: Strip<'_>, y: Strip<'_>, out: &mut [u8])
    requires within { WidensTo from t }
    requires arguments { HasArguments (Call.Product from t) (strip x.bytes.now x.step) (strip y.bytes.now y.step) (strip y.bytes.now y.step) (length out.old) }
    ensures { HasResults (Call.Product from t) (strip x.entry.bytes.now x.entry.step) (strip y.entry.bytes.now y.entry.step) (strip y.entry.bytes.now y.entry.step) out.new }
{
    if x.step == 0 {
        product_by_last_step(from, t, x.resting(), y, out);
    } else {
        product_by_last_step(from, t, x.moving(), y, out);
    }
}

#[inline(always)]
fn product_by_last_step(from: Dtype, t: Dtype, x: Strip<'_>, y: Strip<'_>, out: &mut [u8])
    requires within { WidensTo from t }
    requires arguments { HasArguments (Call.Product from t) (strip x.bytes.now x.step) (strip y.bytes.now y.step) (strip y.bytes.now y.step) (length out.old) }
    ensures { HasResults (Call.Product from t) (strip x.entry.bytes.now x.entry.step) (strip y.entry.bytes.now y.entry.step) (strip y.entry.bytes.now y.entry.step) out.new }
{
    if y.step == 0 {
        product_each(from, t, x, y.resting(), out);
    } else {
        product_each(from, t, x, y.moving(), out);
    }
}

/// The square of numbers of a narrower type, with loops for each pair of types.
#[inline(always)]
pub(crate) fn square_by_types(from: Dtype, t: Dtype, x: Strip<'_>, out: &mut [u8])
    requires within { WidensTo from t }
    requires arguments { HasArguments (Call.Square from t) (strip x.bytes.now x.step) (strip x.bytes.now x.step) (strip x.bytes.now x.step) (length out.old) }
    ensures { HasResults (Call.Square from t) (strip x.entry.bytes.now x.entry.step) (strip x.entry.bytes.now x.entry.step) (strip x.entry.bytes.now x.entry.step) out.new }
{
    call_widening!(
        square_by_step,
        from,
        t,
        [x, out],
        square_each(from, t, x, out)
    )
}

#[inline(always)]
fn square_by_step(from: Dtype, t: Dtype, x: Strip<'_>, out: &mut [u8])
    requires within { WidensTo from t }
    requires arguments { HasArguments (Call.Square from t) (strip x.bytes.now x.step) (strip x.bytes.now x.step) (strip x.bytes.now x.step) (length out.old) }
    ensures { HasResults (Call.Square from t) (strip x.entry.bytes.now x.entry.step) (strip x.entry.bytes.now x.entry.step) (strip x.entry.bytes.now x.entry.step) out.new }
{
    if x.step == 0 {
        square_each(from, t, x.resting(), out);
    } else {
        square_each(from, t, x.moving(), out);
    }
}
