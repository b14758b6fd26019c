//! Loops over words, one for each function and type: the calls give both as literals, and the loops are built for them.
ghost use Rattle.std.specs.Prelude.{◌≡◌, ◌*◌, length};
ghost use Rattle.cu_num.specs.Dtype.{size_of};
ghost use Rattle.cu_lane.specs.Lanes.{HasResults1, HasResults2, HasLoaded, HasSaved};

use cu_num::{Dtype, Fn1, Fn2, load, number, save, scalar1, scalar2, word};

/// A function of one argument, with a loop for each type.
#[inline(always)]
pub(crate) fn by_type1(f: Fn1, t: Dtype, x: &[u64], out: &mut [u64])
    requires { length x.now ≡ length out.old }
    ensures { HasResults1 f t x.now out.new }
{
    match t {
        Dtype::Bool => each1(f, Dtype::Bool, x, out),
        Dtype::Int8 => each1(f, Dtype::Int8, x, out),
        Dtype::Int16 => each1(f, Dtype::Int16, x, out),
        Dtype::Int32 => each1(f, Dtype::Int32, x, out),
        Dtype::Int64 => each1(f, Dtype::Int64, x, out),
        Dtype::Uint8 => each1(f, Dtype::Uint8, x, out),
        Dtype::Uint16 => each1(f, Dtype::Uint16, x, out),
        Dtype::Uint32 => each1(f, Dtype::Uint32, x, out),
        Dtype::Uint64 => each1(f, Dtype::Uint64, x, out),
    }
}

#[inline(always)]
fn each1(f: Fn1, t: Dtype, x: &[u64], out: &mut [u64])
    requires { length x.now ≡ length out.old }
    ensures { HasResults1 f t x.now out.new }
{
    for at in 0..out.len() {
        out[at] = word(scalar1(f, t, number(t, x[at])));
    }
}

/// A function of two arguments, with a loop for each type.
#[inline(always)]
pub(crate) fn by_type2(f: Fn2, t: Dtype, x: &[u64], y: &[u64], out: &mut [u64])
    requires first { length x.now ≡ length out.old }
    requires second { length y.now ≡ length out.old }
    ensures { HasResults2 f t x.now y.now out.new }
{
    match t {
        Dtype::Bool => each2(f, Dtype::Bool, x, y, out),
        Dtype::Int8 => each2(f, Dtype::Int8, x, y, out),
        Dtype::Int16 => each2(f, Dtype::Int16, x, y, out),
        Dtype::Int32 => each2(f, Dtype::Int32, x, y, out),
        Dtype::Int64 => each2(f, Dtype::Int64, x, y, out),
        Dtype::Uint8 => each2(f, Dtype::Uint8, x, y, out),
        Dtype::Uint16 => each2(f, Dtype::Uint16, x, y, out),
        Dtype::Uint32 => each2(f, Dtype::Uint32, x, y, out),
        Dtype::Uint64 => each2(f, Dtype::Uint64, x, y, out),
    }
}

#[inline(always)]
fn each2(f: Fn2, t: Dtype, x: &[u64], y: &[u64], out: &mut [u64])
    requires first { length x.now ≡ length out.old }
    requires second { length y.now ≡ length out.old }
    ensures { HasResults2 f t x.now y.now out.new }
{
    for at in 0..out.len() {
        out[at] = word(scalar2(f, t, number(t, x[at]), number(t, y[at])));
    }
}

#[inline(always)]
pub(crate) fn load_each(t: Dtype, bytes: &[u8], out: &mut [u64])
    requires { length bytes.now ≡ length out.old * size_of t }
    ensures { HasLoaded t bytes.now out.new }
{
    for at in 0..out.len() {
        out[at] = word(load(t, bytes, at));
    }
}

#[inline(always)]
pub(crate) fn save_each(t: Dtype, x: &[u64], out: &mut [u8])
    requires { length out.old ≡ length x.now * size_of t }
    ensures { HasSaved t x.now out.new }
{
    for at in 0..x.len() {
        save(t, number(t, x[at]), out, at);
    }
}
