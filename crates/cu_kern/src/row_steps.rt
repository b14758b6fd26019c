//! Steps of a kernel along a row of places: each leaves its results in a row of its own. The types of the rows are guessed beforehand
//! and tested at each step.
ghost use Rattle.std.specs.Prelude.{◌≡◌, ◌≢◌, ◌+◌, ◌*◌, ◌^◌, ◌≤◌, ◌<◌, ℤ, All, IsTrue, IfSome, Some, length};
ghost use Rattle.std.specs.List.{slice_get};
ghost use Rattle.cu_num.specs.Dtype.{size_of};
ghost use Rattle.cu_num.specs.Promotion.{promotion};
ghost use Rattle.cu_num.specs.Scalar.{result_type1, result_type2};
ghost use Rattle.cu_shape.specs.Index.{product};
ghost use Rattle.cu_op.specs.declared.kernel.Instr.TheVariants.{Load, Const, One, Two, Select};
ghost use Rattle.cu_kern.specs.Lays.{LayFits};
ghost use Rattle.cu_kern.specs.Rows.{Rows, rows_before, loads_along, Computes, left_row, Leaves, IsExtreme, ReadsEarlier};

use crate::arguments::{
    found, found_in_type, found_unconverted, kind_found, literal_at, origin_of, takes,
};
use crate::calls::Call;
use crate::fills::row_of_region;
use crate::regions::{Inputs, LaidRegion};
use crate::rows::{Earlier, PlaceRange, Row};
use crate::strip_functions::call_strips;
use cu_num::{Dtype, Fn1, Fn2, result1, result2, size};
use cu_op::Instr;

/// Whether the loops of a function of one argument read it before its conversion.
pub(crate) fn widens_one(f: Fn1) -> bool
    ensures { IsTrue result → f ≡ Fn1.Square }
{
    f == Fn1::Square
}

/// Whether the loops of a function of two arguments read them before their conversion.
pub(crate) fn widens_two(f: Fn2) -> bool
    ensures { IsTrue result → f ≡ Fn2.Multiply }
{
    f == Fn2::Multiply
}

/// The narrower type in which a function's argument is read before its conversion; none where it is read after it.
#[inline(always)]
fn origin_of_one(f: Fn1, t: Dtype, a: u32, earlier: Earlier<'_>) -> Option<Dtype>
    ensures function { IfSome result (λ origin. f ≡ Fn1.Square) }
    ensures promoted { IfSome result (λ origin. promotion origin t ≡ Some t) }
{
    if !widens_one(f) {
        return None;
    }
    let kernel = earlier.kernel;
    origin_of(kernel.code, kernel.rows, earlier.number, (a, a), t)
}

/// The narrower type in which both arguments of a function are read before their conversion; none where they are read after it.
#[inline(always)]
fn origin_of_two(f: Fn2, t: Dtype, steps: (u32, u32), earlier: Earlier<'_>) -> Option<Dtype>
    ensures function { IfSome result (λ origin. f ≡ Fn2.Multiply) }
    ensures promoted { IfSome result (λ origin. promotion origin t ≡ Some t) }
{
    if !widens_two(f) {
        return None;
    }
    let kernel = earlier.kernel;
    origin_of(kernel.code, kernel.rows, earlier.number, steps, t)
}

/// The squares of an earlier step, read as numbers of a narrower type; `false` where types differ.
#[inline(always)]
fn row_of_square(origin: Dtype, t: Dtype, a: u32, earlier: Earlier<'_>, out: &mut [u8]) -> bool
    requires lays { All (LayFits earlier.kernel.inputs.dims.now (length earlier.kernel.inputs.ins.now)) earlier.kernel.inputs.lays.now }
    requires small { product earlier.kernel.inputs.dims.now < 2 ^ 63 }
    requires within { earlier.range.from + earlier.range.count ≤ product earlier.kernel.inputs.dims.now }
    requires promoted { promotion origin t ≡ Some t }
    requires room { length out.old ≡ earlier.range.count * size_of t }
    ensures { IsTrue result → Computes (One Fn1.Square t a) t (rows_before earlier.entry.kernel.code.now earlier.entry.kernel.rows.now earlier.entry.bytes.now earlier.entry.number)
        (loads_along earlier.entry.kernel.inputs.lays.now earlier.entry.kernel.inputs.ins.now earlier.entry.kernel.inputs.dims.now earlier.entry.range.from) out.new }
{
    let literal = literal_at(earlier.kernel.code, a, origin);
    let Some(x) = found_unconverted(earlier, a, origin, t, &literal) else {
        return false;
    };
    call_strips(Call::Square(origin, t), x, x, x, out);
    true
}

/// The products of two earlier steps, read as numbers of a narrower type; `false` where types differ.
#[inline(always)]
fn row_of_product(
    origin: Dtype,
    t: Dtype,
    steps: (u32, u32),
    earlier: Earlier<'_>,
    out: &mut [u8],
) -> bool
    requires lays { All (LayFits earlier.kernel.inputs.dims.now (length earlier.kernel.inputs.ins.now)) earlier.kernel.inputs.lays.now }
    requires small { product earlier.kernel.inputs.dims.now < 2 ^ 63 }
    requires within { earlier.range.from + earlier.range.count ≤ product earlier.kernel.inputs.dims.now }
    requires promoted { promotion origin t ≡ Some t }
    requires room { length out.old ≡ earlier.range.count * size_of t }
    ensures { IsTrue result → Computes (Two Fn2.Multiply t steps.0 steps.1) t (rows_before earlier.entry.kernel.code.now earlier.entry.kernel.rows.now earlier.entry.bytes.now earlier.entry.number)
        (loads_along earlier.entry.kernel.inputs.lays.now earlier.entry.kernel.inputs.ins.now earlier.entry.kernel.inputs.dims.now earlier.entry.range.from) out.new }
{
    let (a, b) = steps;
    let first = literal_at(earlier.kernel.code, a, origin);
    let second = literal_at(earlier.kernel.code, b, origin);
    let Some(x) = found_unconverted(earlier, a, origin, t, &first) else {
        return false;
    };
    let Some(y) = found_unconverted(earlier, b, origin, t, &second) else {
        return false;
    };
    call_strips(Call::Product(origin, t), x, y, y, out);
    true
}

/// A function of an earlier step; `false` where types differ.
#[inline(always)]
fn row_of_one(f: Fn1, t: Dtype, a: u32, earlier: Earlier<'_>, out: &mut [u8]) -> bool
    requires lays { All (LayFits earlier.kernel.inputs.dims.now (length earlier.kernel.inputs.ins.now)) earlier.kernel.inputs.lays.now }
    requires small { product earlier.kernel.inputs.dims.now < 2 ^ 63 }
    requires within { earlier.range.from + earlier.range.count ≤ product earlier.kernel.inputs.dims.now }
    requires room { length out.old ≡ earlier.range.count * size_of (result_type1 f t) }
    ensures { IsTrue result → Computes (One f t a) (result_type1 f t) (rows_before earlier.entry.kernel.code.now earlier.entry.kernel.rows.now earlier.entry.bytes.now earlier.entry.number)
        (loads_along earlier.entry.kernel.inputs.lays.now earlier.entry.kernel.inputs.ins.now earlier.entry.kernel.inputs.dims.now earlier.entry.range.from) out.new }
{
    if let Some(origin) = origin_of_one(f, t, a, earlier) {
        return row_of_square(origin, t, a, earlier, out);
    }
    let kind = kind_found(earlier, a, t);
    if !takes(f, kind, t) {
        return false;
    }
    let literal = literal_at(earlier.kernel.code, a, kind);
    let Some(x) = found(earlier, a, kind, &literal) else {
        return false;
    };
    call_strips(Call::One(f, kind, t), x, x, x, out);
    true
}

/// A function of two earlier steps, over spare bytes for arguments of other types; `false` where types differ.
#[inline(always)]
fn row_of_two(
    f: Fn2,
    t: Dtype,
    steps: (u32, u32),
    earlier: Earlier<'_>,
    out: &mut [u8],
    spare: &mut [u8],
) -> bool
    requires lays { All (LayFits earlier.kernel.inputs.dims.now (length earlier.kernel.inputs.ins.now)) earlier.kernel.inputs.lays.now }
    requires small { product earlier.kernel.inputs.dims.now < 2 ^ 63 }
    requires within { earlier.range.from + earlier.range.count ≤ product earlier.kernel.inputs.dims.now }
    requires room { length out.old ≡ earlier.range.count * size_of (result_type2 f t) }
    ensures { IsTrue result → Computes (Two f t steps.0 steps.1) (result_type2 f t) (rows_before earlier.entry.kernel.code.now earlier.entry.kernel.rows.now earlier.entry.bytes.now earlier.entry.number)
        (loads_along earlier.entry.kernel.inputs.lays.now earlier.entry.kernel.inputs.ins.now earlier.entry.kernel.inputs.dims.now earlier.entry.range.from) out.new }
{
    if let Some(origin) = origin_of_two(f, t, steps, earlier) {
        return row_of_product(origin, t, steps, earlier, out);
    }
    let (a, b) = steps;
    let first = literal_at(earlier.kernel.code, a, t);
    let second = literal_at(earlier.kernel.code, b, t);
    let (near, far) = spare.split_at_mut(spare.len() / 2);
    let Some(x) = found_in_type(earlier, a, t, &first, near) else {
        return false;
    };
    let Some(y) = found_in_type(earlier, b, t, &second, far) else {
        return false;
    };
    call_strips(Call::Two(f, t), x, y, y, out);
    true
}

/// A choice of two earlier steps by a third, over spare bytes for arguments of other types; `false` where types differ.
#[inline(always)]
fn row_of_select(
    steps: (u32, u32, u32),
    t: Dtype,
    earlier: Earlier<'_>,
    out: &mut [u8],
    spare: &mut [u8],
) -> bool
    requires lays { All (LayFits earlier.kernel.inputs.dims.now (length earlier.kernel.inputs.ins.now)) earlier.kernel.inputs.lays.now }
    requires small { product earlier.kernel.inputs.dims.now < 2 ^ 63 }
    requires within { earlier.range.from + earlier.range.count ≤ product earlier.kernel.inputs.dims.now }
    requires room { length out.old ≡ earlier.range.count * size_of t }
    ensures { IsTrue result → Computes (Select steps.0 steps.1 steps.2) t (rows_before earlier.entry.kernel.code.now earlier.entry.kernel.rows.now earlier.entry.bytes.now earlier.entry.number)
        (loads_along earlier.entry.kernel.inputs.lays.now earlier.entry.kernel.inputs.ins.now earlier.entry.kernel.inputs.dims.now earlier.entry.range.from) out.new }
{
    let (c, a, b) = steps;
    let code = earlier.kernel.code;
    let first = literal_at(code, a, t);
    let second = literal_at(code, b, t);
    let (near, far) = spare.split_at_mut(spare.len() / 2);
    let Some(x) = found_in_type(earlier, a, t, &first, near) else {
        return false;
    };
    let Some(y) = found_in_type(earlier, b, t, &second, far) else {
        return false;
    };
    if let Some(least) = extreme_of(code, earlier.number, steps, t) {
        call_strips(Call::Extreme(least, t), x, y, y, out);
        return true;
    }
    let choosing = literal_at(code, c, Dtype::Bool);
    let Some(choice) = found(earlier, c, Dtype::Bool, &choosing) else {
        return false;
    };
    call_strips(Call::Select(t), choice, x, y, out);
    true
}

/// Whether a choice is the least of its arguments, or else the greatest, where its condition, one of the first `number` steps,
/// compares them in this type; none where it doesn't.
#[inline(always)]
pub(crate) fn extreme_of(
    code: &[Instr],
    number: usize,
    steps: (u32, u32, u32),
    t: Dtype,
) -> Option<bool>
    ensures before { IfSome result (λ least. steps.0 < number) }
    ensures compares { IfSome result (λ least. (f : Fn2) × (slice_get code.now steps.0 ≡ Some (Two f t steps.1 steps.2)) × IsExtreme least f) }
{
    let (c, a, b) = steps;
    if c as usize >= number || c as usize >= code.len() {
        return None;
    }
    let condition = code[c as usize];
    match condition {
        Instr::Two(f, s, x, y) if s == t && x == a && y == b => extreme_by(f),
        _ => None,
    }
}

/// Whether the first of two numbers of which a comparison holds, else the second, is the least of them, or else the greatest; none
/// where it is neither.
#[inline(always)]
fn extreme_by(f: Fn2) -> Option<bool>
    ensures { IfSome result (λ least. IsExtreme least f) }
{
    match f {
        Fn2::Less | Fn2::LessEqual => Some(true),
        Fn2::Greater | Fn2::GreaterEqual => Some(false),
        _ => None,
    }
}

/// A region along the places; `false` where its type is another.
fn row_of_load(j: u32, t: Dtype, inputs: Inputs<'_>, range: PlaceRange, out: &mut [u8]) -> bool
    requires lays { All (LayFits inputs.dims.now (length inputs.ins.now)) inputs.lays.now }
    requires small { product inputs.dims.now < 2 ^ 63 }
    requires within { range.from + range.count ≤ product inputs.dims.now }
    requires room { length out.old ≡ range.count * size_of t }
    ensures { IsTrue result → (r : Rows) → Computes (Load j) t r (loads_along inputs.entry.lays.now inputs.entry.ins.now inputs.entry.dims.now range.from) out.new }
{
    if j as usize >= inputs.lays.len() {
        return false;
    }
    let lay = &inputs.lays[j as usize];
    if lay.dtype != t {
        return false;
    }
    let region = LaidRegion {
        lay,
        ins: inputs.ins,
    };
    row_of_region(region, inputs.dims, range, out);
    true
}

/// A step that computes or loads, along the places, over spare bytes; `false` where types differ, and for a literal.
pub(crate) fn row_of_step(
    instr: Instr,
    t: Dtype,
    earlier: Earlier<'_>,
    out: &mut [u8],
    spare: &mut [u8],
) -> bool
    requires lays { All (LayFits earlier.kernel.inputs.dims.now (length earlier.kernel.inputs.ins.now)) earlier.kernel.inputs.lays.now }
    requires small { product earlier.kernel.inputs.dims.now < 2 ^ 63 }
    requires within { earlier.range.from + earlier.range.count ≤ product earlier.kernel.inputs.dims.now }
    requires room { length out.old ≡ earlier.range.count * size_of t }
    ensures { IsTrue result → Computes instr t (rows_before earlier.entry.kernel.code.now earlier.entry.kernel.rows.now earlier.entry.bytes.now earlier.entry.number)
        (loads_along earlier.entry.kernel.inputs.lays.now earlier.entry.kernel.inputs.ins.now earlier.entry.kernel.inputs.dims.now earlier.entry.range.from) out.new }
{
    match instr {
        Instr::Load(j) => row_of_load(j, t, earlier.kernel.inputs, earlier.range, out),
        Instr::Const(_) => false,
        Instr::One(f, s, a) => result1(f, s) == t && row_of_one(f, s, a, earlier, out),
        Instr::Two(f, s, a, b) => result2(f, s) == t
            && row_of_two(f, s, (a, b), earlier, out, spare),
        Instr::Select(c, a, b) => row_of_select((c, a, b), t, earlier, out, spare),
    }
}

/// A step's row at the beginning of `rest`, and its bytes there; none where types differ or there is no room.
#[inline(always)]
pub(crate) fn leave_row(
    instr: Instr,
    row: Row,
    earlier: Earlier<'_>,
    rest: &mut [u8],
) -> Option<usize>
    requires lays { All (LayFits earlier.kernel.inputs.dims.now (length earlier.kernel.inputs.ins.now)) earlier.kernel.inputs.lays.now }
    requires small { product earlier.kernel.inputs.dims.now < 2 ^ 63 }
    requires within { earlier.range.from + earlier.range.count ≤ product earlier.kernel.inputs.dims.now }
    ensures leaves { IfSome result (λ used. Leaves instr row (rows_before earlier.entry.kernel.code.now earlier.entry.kernel.rows.now earlier.entry.bytes.now earlier.entry.number)
        (loads_along earlier.entry.kernel.inputs.lays.now earlier.entry.kernel.inputs.ins.now earlier.entry.kernel.inputs.dims.now earlier.entry.range.from) earlier.entry.range.count (left_row used rest.new)) }
    ensures room { IfSome result (λ used. used ≤ length rest.old) }
{
    match instr {
        Instr::Const(_) => Some(0),
        _ => {
            if row.kept {
                leave_computed(instr, row, earlier, rest)
            } else {
                leave_nothing(instr, earlier)
            }
        }
    }
}

/// `leave_row` of a step that has no row: a region that is read where it lies, or what no step reads.
fn leave_nothing(instr: Instr, earlier: Earlier<'_>) -> Option<usize>
    ensures there { IfSome result (λ used. ReadsEarlier instr (length earlier.entry.kernel.inputs.lays.now) earlier.entry.number) }
    ensures none { IfSome result (λ used. used ≡ 0) }
{
    let lays = earlier.kernel.inputs.lays.len();
    let there = match instr {
        Instr::Load(j) => (j as usize) < lays,
        Instr::Const(_) => true,
        Instr::One(_, _, a) => is_earlier(a, earlier),
        Instr::Two(_, _, a, b) => is_earlier(a, earlier) && is_earlier(b, earlier),
        Instr::Select(c, a, b) => {
            is_earlier(c, earlier) && is_earlier(a, earlier) && is_earlier(b, earlier)
        }
    };
    if there { Some(0) } else { None }
}

/// Whether a step is among those before.
fn is_earlier(a: u32, earlier: Earlier<'_>) -> bool
    ensures { IsTrue result → a < earlier.entry.number }
{
    (a as usize) < earlier.number
}

/// `leave_row` of a step that is no literal.
#[inline(always)]
fn leave_computed(instr: Instr, row: Row, earlier: Earlier<'_>, rest: &mut [u8]) -> Option<usize>
    requires computes { (y : ℤ) → instr ≢ Const y }
    requires lays { All (LayFits earlier.kernel.inputs.dims.now (length earlier.kernel.inputs.ins.now)) earlier.kernel.inputs.lays.now }
    requires small { product earlier.kernel.inputs.dims.now < 2 ^ 63 }
    requires within { earlier.range.from + earlier.range.count ≤ product earlier.kernel.inputs.dims.now }
    ensures leaves { IfSome result (λ used. Leaves instr row (rows_before earlier.entry.kernel.code.now earlier.entry.kernel.rows.now earlier.entry.bytes.now earlier.entry.number)
        (loads_along earlier.entry.kernel.inputs.lays.now earlier.entry.kernel.inputs.ins.now earlier.entry.kernel.inputs.dims.now earlier.entry.range.from) earlier.entry.range.count (left_row used rest.new)) }
    ensures room { IfSome result (λ used. used ≤ length rest.old) }
{
    let size = size(row.dtype) as usize;
    if rest.len() / size < earlier.range.count {
        return None;
    }
    let used = earlier.range.count * size;
    let (out, spare) = rest.split_at_mut(used);
    if !row_of_step(instr, row.dtype, earlier, out, spare) {
        return None;
    }
    Some(used)
}
