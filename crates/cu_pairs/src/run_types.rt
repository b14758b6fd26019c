//! The first best of a run, with loops for each type and order.
ghost use Rattle.std.specs.Prelude.{◌≤◌, ◌/◌, length};
ghost use Rattle.cu_num.specs.Dtype.{size_of};
ghost use Rattle.cu_pairs.specs.Runs.{elements, IsFirstBest};

use crate::by_type::call_by_type;
use crate::runs::first_best;
use cu_num::Dtype;

/// The number of the first best of at least one element.
pub(crate) fn first_best_of_type(least: bool, t: Dtype, bytes: &[u8]) -> usize
    requires some { size_of t ≤ length bytes.now }
    ensures { IsFirstBest least (elements t bytes.now) (length bytes.now / size_of t) result }
{
    if least {
        by_type(true, t, bytes)
    } else {
        by_type(false, t, bytes)
    }
}

#[inline(always)]
fn by_type(least: bool, t: Dtype, bytes: &[u8]) -> usize
    requires some { size_of t ≤ length bytes.now }
    ensures { IsFirstBest least (elements t bytes.now) (length bytes.now / size_of t) result }
{
    call_by_type!(first_best, least, t, bytes)
}
