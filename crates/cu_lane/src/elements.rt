//! Calls on words that choose, load and save.
ghost use Rattle.std.specs.Prelude.{◌≡◌, ◌*◌, length};
ghost use Rattle.cu_num.specs.Dtype.{size_of};
ghost use Rattle.cu_lane.specs.Lanes.{HasChoices, HasLoaded, HasSaved};

use crate::loops::{load_each, save_each};
use cu_num::Dtype;

/// Where the first word is 1 the second, else the third.
pub fn lane_select(c: &[u64], x: &[u64], y: &[u64], out: &mut [u64])
    requires choice { length c.now ≡ length out.old }
    requires first { length x.now ≡ length out.old }
    requires second { length y.now ≡ length out.old }
    ensures { HasChoices c.now x.now y.now out.new }
{
    for at in 0..out.len() {
        out[at] = if c[at] == 1 { x[at] } else { y[at] };
    }
}

/// The words of the elements of a type, little-endian.
#[inline(never)]
pub fn lane_load(t: Dtype, bytes: &[u8], out: &mut [u64])
    requires { length bytes.now ≡ length out.old * size_of t }
    ensures { HasLoaded t bytes.now out.new }
{
    match t {
        Dtype::Bool => load_each(Dtype::Bool, bytes, out),
        Dtype::Int8 => load_each(Dtype::Int8, bytes, out),
        Dtype::Int16 => load_each(Dtype::Int16, bytes, out),
        Dtype::Int32 => load_each(Dtype::Int32, bytes, out),
        Dtype::Int64 => load_each(Dtype::Int64, bytes, out),
        Dtype::Uint8 => load_each(Dtype::Uint8, bytes, out),
        Dtype::Uint16 => load_each(Dtype::Uint16, bytes, out),
        Dtype::Uint32 => load_each(Dtype::Uint32, bytes, out),
        Dtype::Uint64 => load_each(Dtype::Uint64, bytes, out),
    }
}

/// The elements of a type, little-endian, from their words.
#[inline(never)]
pub fn lane_save(t: Dtype, x: &[u64], out: &mut [u8])
    requires { length out.old ≡ length x.now * size_of t }
    ensures { HasSaved t x.now out.new }
{
    match t {
        Dtype::Bool => save_each(Dtype::Bool, x, out),
        Dtype::Int8 => save_each(Dtype::Int8, x, out),
        Dtype::Int16 => save_each(Dtype::Int16, x, out),
        Dtype::Int32 => save_each(Dtype::Int32, x, out),
        Dtype::Int64 => save_each(Dtype::Int64, x, out),
        Dtype::Uint8 => save_each(Dtype::Uint8, x, out),
        Dtype::Uint16 => save_each(Dtype::Uint16, x, out),
        Dtype::Uint32 => save_each(Dtype::Uint32, x, out),
        Dtype::Uint64 => save_each(Dtype::Uint64, x, out),
    }
}
