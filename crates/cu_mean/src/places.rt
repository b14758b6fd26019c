//! The places of least and of greatest elements at an index of the result.
ghost use Rattle.std.specs.Prelude.{◌≡◌, ◌≤◌, ◌^◌, ℤ, List, ◌∷◌, ◌+◌, length};
ghost use Rattle.cu_shape.specs.Index.{product, indices_of};
ghost use Rattle.cu_reduce.specs.Places.{best_place};
ghost use Rattle.cu_mean.specs.Places.{IsBestFrom, takes_place};
ghost use Rattle.cu_mean.specs.Reading.{named_element};
ghost use Rattle.cu_mean.specs.Reductions.{IsFirstOrSingle, IsNone, elements_along};

use crate::lines::line_of;
use crate::reading::NamedArrays;
use crate::reductions::element_along;
use cu_shape::Dims;

/// The least or the greatest element so far, and its place.
#[derive(Clone, Copy)]
struct Best {
    number: i128,
    place: u64,
}

/// Whether `x` takes the place of the best of the elements behind it, if there are any: also where it is equal, since it comes first.
fn takes_place(least: bool, x: i128, best: i128, last: bool) -> bool
    ensures { result ≡ takes_place least x best last }
{
    if last {
        return true;
    }
    if least { x <= best } else { best <= x }
}

/// The best with one element more in front; `last` says that there are none behind it.
fn best_with(least: bool, x: i128, place: u64, best: Best, last: bool) -> Best
    ensures { (xs : List ℤ) → IsBestFrom least (place + 1) xs best → IsNone xs last → IsBestFrom least place (x ∷ xs) result }
{
    if takes_place(least, x, best.number, last) {
        Best { number: x, place }
    } else {
        best
    }
}

/// The first place of the least or the greatest of the elements from a first index on.
pub(crate) fn best_place(least: bool, arrays: &NamedArrays<'_>, start: &Dims, sizes: &Dims) -> u64
    requires count { product sizes.now ≤ 2 ^ 40 }
    requires ranks { length sizes.now ≡ length start.now }
    requires apart { IsFirstOrSingle start.now sizes.now }
    ensures { result ≡ best_place least (elements_along (named_element arrays.now 0) start.now (indices_of sizes.now)) }
{
    let count = sizes.elements().unwrap();
    let line = line_of(arrays, start, sizes);
    let mut best = Best {
        number: 0,
        place: count,
    };
    for place in (0..count).rev() {
        let x = element_along(line, arrays, start, sizes, place);
        best = best_with(least, x, place, best, place + 1 == count);
    }
    best.place
}
