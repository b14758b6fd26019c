//! The axes of a region as levels, outermost first.
ghost use Rattle.std.specs.Prelude.{◌≡◌, ◌+◌, ◌≤◌, ◌<◌, ◌++◌, ◌∷◌, List, take};
ghost use Rattle.cu_fold.specs.Levels.{levels_from, IsAlike};
ghost use Rattle.cu_fold.specs.Reduced.{is_folded};

use cu_origin::Axes;
use cu_shape::Dims;

/// An axis, or neighbouring axes of one kind.
#[derive(Clone, Copy)]
pub(crate) struct Level {
    /// How many indices it has.
    pub(crate) size: usize,
    /// Whether its elements are reduced; else each index has results of its own.
    pub(crate) is_reduced: bool,
}

/// The last level of a region, or its last two, whose elements one loop takes.
#[derive(Clone, Copy)]
pub(crate) enum Leaf {
    /// So many elements of one result.
    Run(usize),
    /// So many elements, each of a result of its own.
    Row(usize),
    /// So many runs of so many elements, each of a result of its own.
    Runs(usize, usize),
    /// So many rows of so many elements, all into one row of results.
    Rows(usize, usize),
}

/// At most six levels: the first `count` of a list.
#[derive(Clone, Copy)]
pub(crate) struct Levels {
    pub(crate) list: [Level; 6],
    pub(crate) count: usize,
}

/// Which axes are reduced.
#[derive(Clone, Copy)]
pub(crate) enum Reduced {
    /// those of a set
    Set(Axes),
    /// one
    One(u32),
}

/// Whether an axis is reduced.
fn is_reduced(reduced: Reduced, axis: u32) -> bool
    requires { axis < 6 }
    ensures { result ≡ is_folded reduced axis }
{
    match reduced {
        Reduced::Set(axes) => axes.0 >> axis & 1 == 1,
        Reduced::One(own) => axis == own,
    }
}

/// These levels with one more axis inside them, of this size. It is put together with the last one of its kind; where it has one index,
/// it changes nothing.
fn with_axis(levels: Levels, size: usize, is_reduced: bool) -> Levels
    requires { levels.count < 6 }
    ensures count { result.count ≤ levels.count + 1 }
    ensures levels { (more : List Level) → IsAlike (take result.count result.list ++ more) (take levels.count levels.list ++ record { size = size; is_reduced = is_reduced } ∷ more) }
{
    if size == 1 {
        return levels;
    }
    let count = levels.count;
    let mut list = levels.list;
    if count > 0 && list[count - 1].is_reduced == is_reduced {
        if let Some(size) = list[count - 1].size.checked_mul(size) {
            list[count - 1] = Level { size, is_reduced };
            return Levels { list, count };
        }
    }
    list[count] = Level { size, is_reduced };
    Levels {
        list,
        count: count + 1,
    }
}

/// The levels of a region of these sizes.
pub(crate) fn levels_of(reduced: Reduced, dims: &Dims) -> Levels
    ensures count { result.count ≤ 6 }
    ensures levels { IsAlike (take result.count result.list) (levels_from (is_folded reduced) 0 dims.now) }
{
    let none = Level {
        size: 1,
        is_reduced: false,
    };
    let mut levels = Levels {
        list: [none; 6],
        count: 0,
    };
    for axis in 0..dims.rank() {
        levels = with_axis(levels, dims.at(axis) as usize, is_reduced(reduced, axis));
    }
    levels
}
