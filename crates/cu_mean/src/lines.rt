//! Elements over which is reduced that lie evenly apart in an array, as along one axis or over axes that are next to one another.
ghost use Rattle.std.specs.Prelude.{◌≡◌, ◌≤◌, ◌+◌, ◌*◌, ℕ, ℤ, List, ◌∷◌, IfSome, Some, length, slice_get};
ghost use Rattle.cu_mean.specs.Evenly.{AreEven, IsSpan, LieEvenly};
ghost use Rattle.cu_mean.specs.Reading.{named_element, plain_at};

use crate::plain::Plain;
use crate::reading::NamedArrays;
use cu_form::Arg;
use cu_shape::Dims;

/// A box on the last axes of an array: the place of its first index, the distance from one place to the next, and how many elements the
/// array and the box have there.
#[derive(Clone, Copy)]
struct AxisSpan {
    first: u64,
    stride: u64,
    array: u64,
    count: u64,
}

/// Elements that lie evenly apart: the place of the first, and the distance from one to the next.
#[derive(Clone, Copy)]
pub(crate) struct EvenLine<'a> {
    cells: &'a [i128],
    first: u64,
    stride: u64,
}

/// The distance with one axis more in front, on which the box has so many places; none where it isn't the same everywhere.
fn stride_with(behind: AxisSpan, count: u64) -> Option<u64>
    ensures { IfSome result (λ s. (size start : ℕ) (ds is ns : List ℕ) → start + count ≤ size → IsSpan ds is ns behind → AreEven (size ∷ ds) (start ∷ is) (count ∷ ns) s) }
{
    if count == 1 {
        return Some(behind.stride);
    }
    if behind.count == 1 {
        return Some(behind.array);
    }
    let whole = behind.count.checked_mul(behind.stride)?;
    if whole == behind.array {
        Some(behind.stride)
    } else {
        None
    }
}

/// The box with one axis more in front, on which the array has `size` places and the box `count` from `start` on; none where it isn't
/// inside, or where its places don't lie evenly apart.
fn with_axis(behind: AxisSpan, size: u64, start: u64, count: u64) -> Option<AxisSpan>
    ensures { IfSome result (λ s. (ds is ns : List ℕ) → IsSpan ds is ns behind → IsSpan (size ∷ ds) (start ∷ is) (count ∷ ns) s) }
{
    if count > size || start > size - count {
        return None;
    }
    let stride = stride_with(behind, count)?;
    let before = start.checked_mul(behind.array)?;
    let first = before.checked_add(behind.first)?;
    let array = size.checked_mul(behind.array)?;
    let count = count.checked_mul(behind.count)?;
    Some(AxisSpan {
        first,
        stride,
        array,
        count,
    })
}

/// The box of these sizes from a first index on; none where it isn't inside, or where its places don't lie evenly apart.
fn span_of(dims: &Dims, start: &Dims, sizes: &Dims) -> Option<AxisSpan>
    requires starts { length start.now ≡ length dims.now }
    requires sizes { length sizes.now ≡ length dims.now }
    ensures { IfSome result (λ s. IsSpan dims.now start.now sizes.now s) }
{
    let mut behind = AxisSpan {
        first: 0,
        stride: 1,
        array: 1,
        count: 1,
    };
    for axis in (0..dims.rank()).rev() {
        behind = with_axis(behind, dims.at(axis), start.at(axis), sizes.at(axis))?;
    }
    Some(behind)
}

/// The elements of a box of an array; none where they don't lie evenly apart.
fn line_in<'a>(plain: &'a Plain, start: &Dims, sizes: &Dims) -> Option<EvenLine<'a>>
    requires { length sizes.now ≡ length start.now }
    ensures { IfSome result (λ l. LieEvenly (plain_at plain.now) start.now sizes.now l.cells.now l.first l.stride) }
{
    let dims = plain.dims();
    if dims.rank() != start.rank() {
        return None;
    }
    let span = span_of(dims, start, sizes)?;
    Some(EvenLine {
        cells: plain.cells(),
        first: span.first,
        stride: span.stride,
    })
}

/// The elements of a box of the array that the first argument names; none where they don't lie evenly apart.
pub(crate) fn line_of<'a>(
    arrays: &NamedArrays<'a>,
    start: &Dims,
    sizes: &Dims,
) -> Option<EvenLine<'a>>
    requires { length sizes.now ≡ length start.now }
    ensures { IfSome result (λ l. LieEvenly (named_element arrays.now 0) start.now sizes.now l.cells.now l.first l.stride) }
{
    if arrays.args.len() == 0 {
        return None;
    }
    match arrays.args[0] {
        Arg::Node(node) => {
            if node as usize >= arrays.plains.len() {
                return None;
            }
            line_in(&arrays.plains[node as usize], start, sizes)
        }
        Arg::Int(_) | Arg::Truth(_) => None,
    }
}

/// The element of a number.
pub(crate) fn on_line(line: EvenLine<'_>, number: u64) -> i128
    requires { (x : ℤ) × (slice_get line.cells.now (line.first + number * line.stride) ≡ Some x) }
    ensures { slice_get line.entry.cells.now (line.entry.first + number * line.entry.stride) ≡ Some result }
{
    line.cells[(line.first + number * line.stride) as usize]
}
