//! Comparisons from bytes to bytes, one call each, so that the loops of each are built apart.
ghost use Rattle.std.specs.Prelude.{length};
ghost use Rattle.cu_kern.specs.Strips.{strip, HasArguments, HasResults};

use crate::calls::Call;
use crate::strip_loops::{compare_long_by_type, compare_short_by_type, pair_by_type};
use cu_num::{Dtype, Fn2};

/// From so many elements on a comparison has longer steps.
const LONG: usize = 128;

/// A comparison, with loops for a short and a long run, over second arguments that move on or rest. It is written out in each of the
/// calls below: where it was a function that is inlined, its loops were compiled before the comparison was known.
macro_rules! compare {
    ($f:expr, $t:expr, $x:expr, $x_step:expr, $y:expr, $y_step:expr, $out:expr) => {
        if $x_step == 0 || $out.len() < 16 {
            pair_by_type($f, $t, $x, $x_step, $y, $y_step, $out);
        } else if $y_step == 0 {
            if $out.len() < LONG {
                compare_short_by_type($f, $t, $x, $y, 0, $out);
            } else {
                compare_long_by_type($f, $t, $x, $y, 0, $out);
            }
        } else if $out.len() < LONG {
            compare_short_by_type($f, $t, $x, $y, 1, $out);
        } else {
            compare_long_by_type($f, $t, $x, $y, 1, $out);
        }
    };
}

#[inline(never)]
pub(crate) fn pair_equal(t: Dtype, x: &[u8], x_step: usize, y: &[u8], y_step: usize, out: &mut [u8])
    requires arguments { HasArguments (Call.Two Fn2.Equal t) (strip x.now x_step) (strip y.now y_step) (strip y.now y_step) (length out.old) }
    ensures { HasResults (Call.Two Fn2.Equal t) (strip x.now x_step) (strip y.now y_step) (strip y.now y_step) out.new }
{
    compare!(Fn2::Equal, t, x, x_step, y, y_step, out);
}

#[inline(never)]
pub(crate) fn pair_not_equal(
    t: Dtype,
    x: &[u8],
    x_step: usize,
    y: &[u8],
    y_step: usize,
    out: &mut [u8],
)
    requires arguments { HasArguments (Call.Two Fn2.NotEqual t) (strip x.now x_step) (strip y.now y_step) (strip y.now y_step) (length out.old) }
    ensures { HasResults (Call.Two Fn2.NotEqual t) (strip x.now x_step) (strip y.now y_step) (strip y.now y_step) out.new }
{
    compare!(Fn2::NotEqual, t, x, x_step, y, y_step, out);
}

#[inline(never)]
pub(crate) fn pair_less(t: Dtype, x: &[u8], x_step: usize, y: &[u8], y_step: usize, out: &mut [u8])
    requires arguments { HasArguments (Call.Two Fn2.Less t) (strip x.now x_step) (strip y.now y_step) (strip y.now y_step) (length out.old) }
    ensures { HasResults (Call.Two Fn2.Less t) (strip x.now x_step) (strip y.now y_step) (strip y.now y_step) out.new }
{
    compare!(Fn2::Less, t, x, x_step, y, y_step, out);
}

#[inline(never)]
pub(crate) fn pair_less_equal(
    t: Dtype,
    x: &[u8],
    x_step: usize,
    y: &[u8],
    y_step: usize,
    out: &mut [u8],
)
    requires arguments { HasArguments (Call.Two Fn2.LessEqual t) (strip x.now x_step) (strip y.now y_step) (strip y.now y_step) (length out.old) }
    ensures { HasResults (Call.Two Fn2.LessEqual t) (strip x.now x_step) (strip y.now y_step) (strip y.now y_step) out.new }
{
    compare!(Fn2::LessEqual, t, x, x_step, y, y_step, out);
}

#[inline(never)]
pub(crate) fn pair_greater(
    t: Dtype,
    x: &[u8],
    x_step: usize,
    y: &[u8],
    y_step: usize,
    out: &mut [u8],
)
    requires arguments { HasArguments (Call.Two Fn2.Greater t) (strip x.now x_step) (strip y.now y_step) (strip y.now y_step) (length out.old) }
    ensures { HasResults (Call.Two Fn2.Greater t) (strip x.now x_step) (strip y.now y_step) (strip y.now y_step) out.new }
{
    compare!(Fn2::Greater, t, x, x_step, y, y_step, out);
}

#[inline(never)]
pub(crate) fn pair_greater_equal(
    t: Dtype,
    x: &[u8],
    x_step: usize,
    y: &[u8],
    y_step: usize,
    out: &mut [u8],
)
    requires arguments { HasArguments (Call.Two Fn2.GreaterEqual t) (strip x.now x_step) (strip y.now y_step) (strip y.now y_step) (length out.old) }
    ensures { HasResults (Call.Two Fn2.GreaterEqual t) (strip x.now x_step) (strip y.now y_step) (strip y.now y_step) out.new }
{
    compare!(Fn2::GreaterEqual, t, x, x_step, y, y_step, out);
}
