//! Reductions by labels at an index of the result.
ghost use Rattle.std.specs.Prelude.{◌≡◌, ◌<◌, ℤ, List, ◌∷◌, [], length, slice_index, if◌then◌else◌};
ghost use Rattle.std.specs.List.{range_with_len};
ghost use Rattle.cu_num.specs.Dtype.{IsInteger};
ghost use Rattle.cu_num.specs.Wrap.{wrapped};
ghost use Rattle.cu_num.specs.declared.folds.FoldKind.{FoldKind};
ghost use Rattle.cu_semantics.specs.Along.{along};
ghost use Rattle.cu_reduce.specs.Labels.{is_label, group_fold, grouped_at};
ghost use Rattle.cu_mean.specs.Grouped.{HasKept};
ghost use Rattle.cu_mean.specs.Reading.{named_element};

use crate::reading::{NamedArrays, source};
use crate::reductions::{kept_of_none, kept_with};
use crate::summed::element_on;
use cu_num::{Dtype, FoldKind, wrap};
use cu_reduce::unit;
use cu_shape::Dims;

/// What is kept of the elements of a group so far, and whether there are none.
#[derive(Clone, Copy)]
struct Members {
    kept: i128,
    none: bool,
}

/// What is kept with an element more in front, if it is one of the group.
fn with_place(kind: FoldKind, t: Dtype, x: i128, is_member: bool, members: Members) -> Members
    requires { kind ≡ FoldKind.Sum → IsInteger t }
    ensures { (xs : List ℤ) → HasKept kind t xs members → HasKept kind t (if is_member then x ∷ xs else xs) result }
{
    if is_member {
        Members {
            kept: kept_with(kind, t, x, members.kept, members.none),
            none: false,
        }
    } else {
        members
    }
}

/// Whether the label of a place is the number of the group: the labels are the second array.
fn is_member(arrays: &NamedArrays<'_>, group: u64, place: u64) -> bool
    ensures { result ≡ is_label group (named_element arrays.now 1 (place ∷ [])) }
{
    let mut at = Dims::default();
    at.push(place);
    source(arrays.plains, arrays.args, 1, &at) == i128::from(group)
}

/// What is made of the elements of a group, wrapped to the type.
fn made_of(kind: FoldKind, t: Dtype, members: Members) -> i128
    ensures { (xs : List ℤ) → HasKept kind t xs members → result ≡ wrapped t (group_fold kind t xs) }
{
    if members.none {
        wrap(t, unit(kind, t))
    } else {
        wrap(t, members.kept)
    }
}

/// What is made of the elements of the line through an index, of so many places, whose label is the
/// number of the index on the axis; wrapped to the type.
pub(crate) fn group_at(
    kind: FoldKind,
    t: Dtype,
    arrays: &NamedArrays<'_>,
    axis: u32,
    count: u64,
    idx: &Dims,
) -> i128
    requires integer { kind ≡ FoldKind.Sum → IsInteger t }
    requires axis { axis < length idx.now }
    ensures { result ≡ wrapped t (grouped_at kind t (λ p. named_element arrays.now 1 (p ∷ []))
        (along (named_element arrays.now 0) axis idx.now) (slice_index idx.now axis) (range_with_len 0 count)) }
{
    let group = idx.at(axis);
    let mut members = Members {
        kept: kept_of_none(kind, t),
        none: true,
    };
    for place in (0..count).rev() {
        let x = element_on(arrays, axis, idx, place);
        members = with_place(kind, t, x, is_member(arrays, group, place), members);
    }
    made_of(kind, t, members)
}
