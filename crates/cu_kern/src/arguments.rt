//! What a step along a row of places reads: rows of earlier steps, regions where they lie, and literals, all as elements of its type.
ghost use Rattle.std.specs.Prelude.{◌≡◌, ◌≢◌, ◌+◌, ◌^◌, ◌≤◌, ◌<◌, ℕ, ℤ, All, IsTrue, IfSome, Some, length, drop};
ghost use Rattle.std.specs.List.{slice_get};
ghost use Rattle.cu_num.specs.Dtype.{InRange};
ghost use Rattle.cu_num.specs.Element.{element_at};
ghost use Rattle.cu_num.specs.Promotion.{promotion};
ghost use Rattle.cu_num.specs.declared.layout.Endian.TheVariants.{Little};
ghost use Rattle.cu_shape.specs.Index.{product};
ghost use Rattle.cu_num.specs.declared.functions.Fn1.TheVariants.{Astype};
ghost use Rattle.cu_op.specs.declared.kernel.Instr.TheVariants.{Const, One};
ghost use Rattle.cu_op.specs.KernelTypes.{IsArgument};
ghost use Rattle.cu_kern.specs.Lays.{LayFits};
ghost use Rattle.cu_kern.specs.Strips.{strip, strip_element, HasPlaces};
ghost use Rattle.cu_kern.specs.Rows.{rows_before, loads_along, HasResultsOf, HasSameElements, IsSource};

use crate::by_type::call_by_type;
use crate::calls::Call;
use crate::lays::pace_of;
use crate::regions::{Inputs, LaidRegion, left_in, strip_from};
use crate::rows::{Earlier, PlaceRange, Row, is_literal, kind_at, step_at};
use crate::strip_functions::call_strips;
use crate::strips::Strip;
use cu_num::{Dtype, Fn1, in_range, promote, save, size};
use cu_op::Instr;

/// A literal as an element of the type, with zeros behind; of another step zeros.
#[inline(always)]
pub(crate) fn literal_at(code: &[Instr], a: u32, t: Dtype) -> [u8; 8]
    ensures { (y : ℤ) → slice_get code.now a ≡ Some (Const y) → InRange t y → element_at Little t result 0 ≡ y }
{
    match step_at(code, a) {
        Instr::Const(y) => spelled(t, y),
        _ => [0; 8],
    }
}

/// A number as an element of the type, with zeros behind; another is wrapped to the type. With the type
/// written out it is made in a register: a processor waits for bytes that are read in one piece after
/// they were written in two.
#[inline(never)]
fn spelled(t: Dtype, x: i128) -> [u8; 8]
    ensures { InRange t x → element_at Little t result 0 ≡ x }
{
    call_by_type!(spelled_as, [], t, [x])
}

#[inline(always)]
fn spelled_as(t: Dtype, x: i128) -> [u8; 8]
    ensures { InRange t x → element_at Little t result 0 ≡ x }
{
    let mut bytes = [0; 8];
    save(t, x, &mut bytes, 0);
    bytes
}

/// Whether a literal is a number of the type.
fn literal_fits(instr: Instr, t: Dtype) -> bool
    ensures { IsTrue result → (y : ℤ) → instr ≡ Const y → InRange t y }
{
    match instr {
        Instr::Const(y) => in_range(t, y),
        _ => false,
    }
}

/// The type that the elements of an earlier step are thought to have, of a literal the one in which it is wanted. It goes beside them
/// and not with them in one value: such a value has gaps, and to copy these in pieces holds a processor up for longer than a row takes.
#[inline(always)]
pub(crate) fn kind_found(earlier: Earlier<'_>, a: u32, t: Dtype) -> Dtype
    ensures { (y : ℤ) → slice_get earlier.entry.kernel.code.now a ≡ Some (Const y) → result ≡ t }
{
    if is_literal(step_at(earlier.kernel.code, a)) {
        return t;
    }
    kind_at(earlier.kernel.rows, a)
}

/// The elements of a row; none where it is too short or has another type.
#[inline(always)]
fn row_strip<'a>(bytes: &'a [u8], row: Row, kind: Dtype, count: usize) -> Option<Strip<'a>>
    ensures places { IfSome result (λ s. HasPlaces kind (strip s.bytes.now s.step) count) }
    ensures elements { IfSome result (λ s. (k : ℕ) → k < count → strip_element kind (strip s.bytes.now s.step) k ≡ element_at Little row.dtype (drop row.at bytes.now) k) }
{
    if row.dtype != kind || row.at > bytes.len() {
        return None;
    }
    let room = bytes.len() - row.at;
    if room / (size(kind) as usize) < count {
        return None;
    }
    Some(Strip {
        bytes: &bytes[row.at..],
        step: 1,
    })
}

/// The elements of a region at the places, where they lie; none where they lie in several runs or have another type.
#[inline(always)]
fn region_strip<'a>(inputs: Inputs<'a>, j: u32, kind: Dtype, range: PlaceRange) -> Option<Strip<'a>>
    requires lays { All (LayFits inputs.dims.now (length inputs.ins.now)) inputs.lays.now }
    requires small { product inputs.dims.now < 2 ^ 63 }
    requires within { range.from + range.count ≤ product inputs.dims.now }
    ensures places { IfSome result (λ s. HasPlaces kind (strip s.bytes.now s.step) range.count) }
    ensures elements { IfSome result (λ s. (k : ℕ) → k < range.count
        → loads_along inputs.entry.lays.now inputs.entry.ins.now inputs.entry.dims.now range.from k j ≡ Some (strip_element kind (strip s.bytes.now s.step) k)) }
{
    if j as usize >= inputs.lays.len() || range.count == 0 {
        return None;
    }
    let lay = &inputs.lays[j as usize];
    if lay.dtype != kind {
        return None;
    }
    let pace = pace_of(&lay.dims, inputs.dims);
    if left_in(pace.run, range.from) < range.count as u64 {
        return None;
    }
    let region = LaidRegion {
        lay,
        ins: inputs.ins,
    };
    Some(strip_from(region, pace, inputs.dims, range.from, range.count))
}

/// A literal as an element of the type, which `literal` has, for each place; none where it is none of the type.
#[inline(always)]
fn literal_strip<'a>(instr: Instr, t: Dtype, literal: &'a [u8; 8]) -> Option<Strip<'a>>
    ensures range { IfSome result (λ s. (y : ℤ) → instr ≡ Const y → InRange t y) }
    ensures bytes { IfSome result (λ s. s.bytes.now ≡ literal.now) }
    ensures step { IfSome result (λ s. s.step ≡ 0) }
{
    if !literal_fits(instr, t) {
        return None;
    }
    Some(Strip {
        bytes: literal,
        step: 0,
    })
}

/// The results of an earlier step as elements of this type; none where they aren't there or have another.
#[inline(always)]
pub(crate) fn found<'a>(
    earlier: Earlier<'a>,
    a: u32,
    kind: Dtype,
    literal: &'a [u8; 8],
) -> Option<Strip<'a>>
    requires lays { All (LayFits earlier.kernel.inputs.dims.now (length earlier.kernel.inputs.ins.now)) earlier.kernel.inputs.lays.now }
    requires small { product earlier.kernel.inputs.dims.now < 2 ^ 63 }
    requires within { earlier.range.from + earlier.range.count ≤ product earlier.kernel.inputs.dims.now }
    requires literal { (y : ℤ) → slice_get earlier.kernel.code.now a ≡ Some (Const y) → InRange kind y → element_at Little kind literal.now 0 ≡ y }
    ensures { IfSome result (λ s. HasResultsOf (rows_before earlier.entry.kernel.code.now earlier.entry.kernel.rows.now earlier.entry.bytes.now earlier.entry.number)
        (loads_along earlier.entry.kernel.inputs.lays.now earlier.entry.kernel.inputs.ins.now earlier.entry.kernel.inputs.dims.now earlier.entry.range.from) earlier.entry.range.count a kind (strip s.bytes.now s.step)) }
{
    let at = a as usize;
    if at >= earlier.number || at >= earlier.kernel.code.len() || at >= earlier.kernel.rows.len() {
        return None;
    }
    let row = earlier.kernel.rows[at];
    match earlier.kernel.code[at] {
        Instr::Const(_) => literal_strip(earlier.kernel.code[at], kind, literal),
        Instr::Load(j) => {
            if row.kept {
                row_strip(earlier.bytes, row, kind, earlier.range.count)
            } else {
                region_strip(earlier.kernel.inputs, j, kind, earlier.range)
            }
        }
        _ => {
            if row.kept {
                row_strip(earlier.bytes, row, kind, earlier.range.count)
            } else {
                None
            }
        }
    }
}

/// The step whose numbers a step converts to the type, where it is one of the first `number` and no literal is converted; none of
/// another step.
#[inline(always)]
fn conversion_at(code: &[Instr], number: usize, a: u32, t: Dtype) -> Option<u32>
    ensures before { IfSome result (λ k. a < number) }
    ensures converts { IfSome result (λ k. slice_get code.now a ≡ Some (One Astype t k)) }
    ensures other { IfSome result (λ k. (y : ℤ) → slice_get code.now k ≢ Some (Const y)) }
{
    if a as usize >= number || a as usize >= code.len() {
        return None;
    }
    let step = code[a as usize];
    match step {
        Instr::One(Fn1::Astype, s, k) if s == t && !is_literal(step_at(code, k)) => Some(k),
        _ => None,
    }
}

/// The step whose numbers an argument has before it converts them to the type; of a step that converts none itself.
#[inline(always)]
pub(crate) fn source_of(code: &[Instr], number: usize, a: u32, t: Dtype) -> u32
    ensures { IsSource code.now number t a result }
{
    match conversion_at(code, number, a, t) {
        Some(k) => k,
        None => a,
    }
}

/// Whether the numbers of an argument's source are elements of this type.
fn reads_as(code: &[Instr], rows: &[Row], source: u32, kind: Dtype) -> bool {
    let step = step_at(code, source);
    if is_literal(step) {
        return literal_fits(step, kind);
    }
    kind_at(rows, source) == kind
}

/// The narrower type of at most 32 bits in which two arguments of a type of at least 32 stand before they are converted to it; none
/// where they don't. To the type it is promoted.
pub(crate) fn origin_of(
    code: &[Instr],
    rows: &[Row],
    number: usize,
    args: (u32, u32),
    t: Dtype,
) -> Option<Dtype>
    ensures { IfSome result (λ origin. promotion origin t ≡ Some t) }
{
    let a = source_of(code, number, args.0, t);
    let b = source_of(code, number, args.1, t);
    let of = if is_literal(step_at(code, a)) { b } else { a };
    let origin = kind_at(rows, of);
    if origin == t || size(origin) > 4 || size(t) < 4 {
        return None;
    }
    if !reads_as(code, rows, a, origin) || !reads_as(code, rows, b, origin) {
        return None;
    }
    match promote(origin, t) {
        Some(r) if r == t => Some(origin),
        _ => None,
    }
}

/// `found` of an argument of type `t` where it stands before it is converted to it, as elements of a type that is promoted to it.
#[inline(always)]
pub(crate) fn found_unconverted<'a>(
    earlier: Earlier<'a>,
    a: u32,
    origin: Dtype,
    t: Dtype,
    literal: &'a [u8; 8],
) -> Option<Strip<'a>>
    requires lays { All (LayFits earlier.kernel.inputs.dims.now (length earlier.kernel.inputs.ins.now)) earlier.kernel.inputs.lays.now }
    requires small { product earlier.kernel.inputs.dims.now < 2 ^ 63 }
    requires within { earlier.range.from + earlier.range.count ≤ product earlier.kernel.inputs.dims.now }
    requires promoted { promotion origin t ≡ Some t }
    requires literal { (y : ℤ) → slice_get earlier.kernel.code.now a ≡ Some (Const y) → InRange origin y → element_at Little origin literal.now 0 ≡ y }
    ensures { IfSome result (λ s. HasResultsOf (rows_before earlier.entry.kernel.code.now earlier.entry.kernel.rows.now earlier.entry.bytes.now earlier.entry.number)
        (loads_along earlier.entry.kernel.inputs.lays.now earlier.entry.kernel.inputs.ins.now earlier.entry.kernel.inputs.dims.now earlier.entry.range.from) earlier.entry.range.count a origin (strip s.bytes.now s.step)) }
{
    let source = source_of(earlier.kernel.code, earlier.number, a, t);
    found(earlier, source, origin, literal)
}

/// The results of an earlier step as elements of the type, over spare bytes where theirs are of another; none where they aren't there
/// or their type isn't promoted to it.
#[inline(always)]
pub(crate) fn found_in_type<'a>(
    earlier: Earlier<'a>,
    a: u32,
    t: Dtype,
    literal: &'a [u8; 8],
    spare: &'a mut [u8],
) -> Option<Strip<'a>>
    requires lays { All (LayFits earlier.kernel.inputs.dims.now (length earlier.kernel.inputs.ins.now)) earlier.kernel.inputs.lays.now }
    requires small { product earlier.kernel.inputs.dims.now < 2 ^ 63 }
    requires within { earlier.range.from + earlier.range.count ≤ product earlier.kernel.inputs.dims.now }
    requires literal { (y : ℤ) → slice_get earlier.kernel.code.now a ≡ Some (Const y) → InRange t y → element_at Little t literal.now 0 ≡ y }
    ensures { IfSome result (λ s. HasResultsOf (rows_before earlier.entry.kernel.code.now earlier.entry.kernel.rows.now earlier.entry.bytes.now earlier.entry.number)
        (loads_along earlier.entry.kernel.inputs.lays.now earlier.entry.kernel.inputs.ins.now earlier.entry.kernel.inputs.dims.now earlier.entry.range.from) earlier.entry.range.count a t (strip s.bytes.now s.step)) }
{
    let count = earlier.range.count;
    let kind = kind_found(earlier, a, t);
    let Some(x) = found(earlier, a, kind, literal) else {
        return None;
    };
    if !convert(x, kind, t, count, spare) {
        return None;
    }
    Some(in_type(x, kind, t, count, spare))
}

/// Writes elements as elements of a type to which theirs is promoted, where that is another; `false` where it isn't promoted to it.
#[inline(always)]
fn convert(x: Strip<'_>, kind: Dtype, t: Dtype, count: usize, out: &mut [u8]) -> bool
    requires places { HasPlaces kind (strip x.bytes.now x.step) count }
    ensures { IsTrue result → kind ≢ t → HasSameElements kind (strip x.entry.bytes.now x.entry.step) t (strip out.new 1) count }
{
    if kind == t {
        return true;
    }
    match promote(kind, t) {
        Some(r) => r == t && convert_to(x, kind, t, count, out),
        None => false,
    }
}

/// `convert` to another type.
fn convert_to(x: Strip<'_>, kind: Dtype, t: Dtype, count: usize, out: &mut [u8]) -> bool
    requires places { HasPlaces kind (strip x.bytes.now x.step) count }
    requires promoted { promotion kind t ≡ Some t }
    ensures { IsTrue result → HasSameElements kind (strip x.entry.bytes.now x.entry.step) t (strip out.new 1) count }
{
    let size = size(t) as usize;
    if out.len() / size < count {
        return false;
    }
    let part = &mut out[..count * size];
    call_strips(Call::One(Fn1::Astype, kind, t), x, x, x, part);
    true
}

/// The elements as elements of the type: their own, or those that `converted` has.
#[inline(always)]
fn in_type<'a>(x: Strip<'a>, kind: Dtype, t: Dtype, count: usize, converted: &'a [u8]) -> Strip<'a>
    requires places { HasPlaces kind (strip x.bytes.now x.step) count }
    requires converted { kind ≢ t → HasSameElements kind (strip x.bytes.now x.step) t (strip converted.now 1) count }
    ensures { HasSameElements kind (strip x.entry.bytes.now x.entry.step) t (strip result.bytes.now result.step) count }
{
    if kind == t {
        return x;
    }
    Strip {
        bytes: converted,
        step: 1,
    }
}

/// Whether a function has arguments of this type.
pub(crate) fn takes(f: Fn1, origin: Dtype, t: Dtype) -> bool
    ensures { IsTrue result → IsArgument f origin t }
{
    match f {
        Fn1::Astype => true,
        _ => origin == t,
    }
}
