//! Kernels of several steps over whole regions, a row of places at a time.
ghost use Rattle.std.specs.Prelude.{◌≡◌, ◌+◌, ◌*◌, ◌^◌, ◌≤◌, ◌<◌, ℕ, All, IsTrue, IfSome, length};
ghost use Rattle.cu_num.specs.Dtype.{size_of};
ghost use Rattle.cu_shape.specs.Index.{product};
ghost use Rattle.cu_kern.specs.Lays.{LayFits, HasValue};
ghost use Rattle.cu_kern.specs.Steps.{value_by_place};
ghost use Rattle.cu_kern.specs.Rows.{step_rows, loads_along, RowsAt};

use crate::arguments::{origin_of, source_of};
use crate::lays::{Lay, pace_of};
use crate::regions::{Inputs, left_in};
use crate::row_steps::{extreme_of, leave_row, row_of_step, widens_one, widens_two};
use crate::rows::{Earlier, PlaceRange, Row, RowKernel, RowLoad, is_literal, kind_at, step_at};
use cu_num::{Dtype, promote, result1, result2, size};
use cu_op::Instr;
use cu_shape::Dims;

/// The most steps of a kernel.
const STEPS: usize = 32;

/// The bytes of the largest bank: with as many of the regions and the result they stay in the first cache.
const BANK: usize = 24576;

/// The most bytes of a row. Each row costs a step some forty nanoseconds beside its loop, as much as two or three kilobytes do.
const WIDTH: usize = 6144;

/// Rows begin at multiples of so many bytes.
const LINE: usize = 64;

/// A piece of a region that has so many places is long: to read it where it lies takes less time than to copy it.
const LONG: u64 = 1024;

/// The rows of the first `last` steps, and how many bytes of the bank they fill; none where one isn't of its type or has no room.
fn leave_rows(
    kernel: RowKernel<'_>,
    range: PlaceRange,
    last: usize,
    bank: &mut [u8],
) -> Option<usize>
    requires steps { last ≤ length kernel.code.now }
    requires rows { last ≤ length kernel.rows.now }
    requires lays { All (LayFits kernel.inputs.dims.now (length kernel.inputs.ins.now)) kernel.inputs.lays.now }
    requires small { product kernel.inputs.dims.now < 2 ^ 63 }
    requires within { range.from + range.count ≤ product kernel.inputs.dims.now }
    ensures stand { IfSome result (λ filled. (k : ℕ) → k < range.count → RowsAt (step_rows kernel.entry.code.now kernel.entry.rows.now bank.new last filled)
        (loads_along kernel.entry.inputs.lays.now kernel.entry.inputs.ins.now kernel.entry.inputs.dims.now range.from k) k) }
    ensures room { IfSome result (λ filled. filled ≤ length bank.new) }
{
    let mut filled = 0;
    for number in 0..last {
        let row = kernel.rows[number];
        if row.at < filled || row.at > bank.len() {
            return None;
        }
        let (before, rest) = bank.split_at_mut(row.at);
        let earlier = Earlier {
            kernel,
            range,
            bytes: before,
            number,
        };
        let Some(used) = leave_row(kernel.code[number], row, earlier, rest) else {
            return None;
        };
        filled = row.at + used;
    }
    Some(filled)
}

/// The elements of the kernel's result at a row of places; `false` where types differ.
fn run_row(
    kernel: RowKernel<'_>,
    t: Dtype,
    range: PlaceRange,
    bank: &mut [u8],
    out: &mut [u8],
) -> bool
    requires some { 0 < length kernel.code.now }
    requires rows { length kernel.code.now ≤ length kernel.rows.now }
    requires lays { All (LayFits kernel.inputs.dims.now (length kernel.inputs.ins.now)) kernel.inputs.lays.now }
    requires small { product kernel.inputs.dims.now < 2 ^ 63 }
    requires within { range.from + range.count ≤ product kernel.inputs.dims.now }
    requires room { length out.old ≡ range.count * size_of t }
    ensures { IsTrue result → (k : ℕ) → k < range.count
        → HasValue t out.new k (value_by_place kernel.entry.code.now kernel.entry.inputs.lays.now kernel.entry.inputs.ins.now kernel.entry.inputs.dims.now (range.from + k)) }
{
    let last = kernel.code.len() - 1;
    let Some(filled) = leave_rows(kernel, range, last, bank) else {
        return false;
    };
    let (before, spare) = bank.split_at_mut(filled);
    let earlier = Earlier {
        kernel,
        range,
        bytes: before,
        number: last,
    };
    row_of_step(kernel.code[last], t, earlier, out, spare)
}

/// How many places a row has at most, and how many bytes of the bank the rows then need.
#[derive(Clone, Copy)]
struct BankUse {
    places: usize,
    bytes: usize,
}

/// The elements of a kernel's result at the places of `all`, a row of places at a time; `false` where types differ. No row of places
/// goes past the end of a long piece of a region, so that such a piece is read where it lies.
fn run_each(
    code: &[Instr],
    inputs: Inputs<'_>,
    t: Dtype,
    all: PlaceRange,
    places: usize,
    rows: &mut [Row],
    bank: &mut [u8],
    out: &mut [u8],
) -> bool
    requires some { 0 < length code.now }
    requires rows { length code.now ≤ length rows.old }
    requires places { 0 < places }
    requires lays { All (LayFits inputs.dims.now (length inputs.ins.now)) inputs.lays.now }
    requires small { product inputs.dims.now < 2 ^ 63 }
    requires within { all.from + all.count ≤ product inputs.dims.now }
    requires out { length out.old ≡ all.count * size_of t }
    ensures { IsTrue result → (k : ℕ) → k < all.count
        → HasValue t out.new k (value_by_place code.now inputs.entry.lays.now inputs.entry.ins.now inputs.entry.dims.now (all.from + k)) }
{
    let size = size(t) as usize;
    let piece = long_piece(rows);
    let mut done = 0;
    while done < all.count {
        let from = all.from + done as u64;
        let most = (all.count - done).min(places);
        let count = most.min(left_in(piece, from) as usize);
        let range = PlaceRange { from, count };
        keep_rows(range, rows);
        let kernel = RowKernel { code, rows, inputs };
        let part = &mut out[done * size..(done + count) * size];
        if !run_row(kernel, t, range, bank, part) {
            return false;
        }
        done += count;
    }
    true
}

/// The places of the shortest long piece that a step loads; more than any result has where none does.
fn long_piece(rows: &[Row]) -> u64
    ensures { 0 < result }
{
    let mut least = u64::MAX;
    for row in rows {
        if let RowLoad::Pieces(run) = row.load {
            if run >= LONG {
                least = least.min(run);
            }
        }
    }
    least
}

/// Has rows kept of the regions in pieces that these places don't read in one piece. Of the others it is known before.
fn keep_rows(range: PlaceRange, rows: &mut [Row]) {
    for row in rows.iter_mut() {
        if let RowLoad::Pieces(run) = row.load {
            row.kept = run == 0 || left_in(run, range.from) < range.count as u64;
        }
    }
}

/// The elements of a kernel of at most 32 steps at some places; `false` where the rows weren't guessed right.
#[inline(never)]
pub(crate) fn run_by_rows(
    code: &[Instr],
    inputs: Inputs<'_>,
    t: Dtype,
    range: PlaceRange,
    out: &mut [u8],
) -> bool
    requires lays { All (LayFits inputs.dims.now (length inputs.ins.now)) inputs.lays.now }
    requires small { product inputs.dims.now < 2 ^ 63 }
    requires within { range.from + range.count ≤ product inputs.dims.now }
    requires out { length out.old ≡ range.count * size_of t }
    ensures { IsTrue result → (k : ℕ) → k < range.count
        → HasValue t out.new k (value_by_place code.now inputs.entry.lays.now inputs.entry.ins.now inputs.entry.dims.now (range.from + k)) }
{
    if code.is_empty() || code.len() > STEPS || range.count == 0 {
        return false;
    }
    let mut rows = rows_of(code, inputs);
    let places = places_of(code, &rows, range.count);
    let bytes = lay_out(code, places, &mut rows);
    let used = BankUse { places, bytes };
    run_in_bank(code, inputs, t, range, used, &mut rows[..code.len()], out)
}

/// `run_each` with a bank that has at least so many bytes, where that is possible: what a small task doesn't use isn't zeroed.
fn run_in_bank(
    code: &[Instr],
    inputs: Inputs<'_>,
    t: Dtype,
    all: PlaceRange,
    used: BankUse,
    rows: &mut [Row],
    out: &mut [u8],
) -> bool
    requires some { 0 < length code.now }
    requires rows { length code.now ≤ length rows.old }
    requires places { 0 < used.places }
    requires lays { All (LayFits inputs.dims.now (length inputs.ins.now)) inputs.lays.now }
    requires small { product inputs.dims.now < 2 ^ 63 }
    requires within { all.from + all.count ≤ product inputs.dims.now }
    requires out { length out.old ≡ all.count * size_of t }
    ensures { IsTrue result → (k : ℕ) → k < all.count
        → HasValue t out.new k (value_by_place code.now inputs.entry.lays.now inputs.entry.ins.now inputs.entry.dims.now (all.from + k)) }
{
    if used.bytes <= 2048 {
        let mut bank = [0; 2048];
        run_each(code, inputs, t, all, used.places, rows, &mut bank, out)
    } else if used.bytes <= 8192 {
        let mut bank = [0; 8192];
        run_each(code, inputs, t, all, used.places, rows, &mut bank, out)
    } else {
        let mut bank = [0; BANK];
        run_each(code, inputs, t, all, used.places, rows, &mut bank, out)
    }
}

/// The types that the rows of the steps are guessed to have, what the steps load, and whether rows are kept somewhere.
fn rows_of(code: &[Instr], inputs: Inputs<'_>) -> [Row; STEPS]
    requires lays { All (LayFits inputs.dims.now (length inputs.ins.now)) inputs.lays.now }
    requires some { 0 < product inputs.dims.now }
    requires small { product inputs.dims.now < 2 ^ 63 }
{
    let none = Row {
        dtype: Dtype::Bool,
        at: 0,
        kept: true,
        load: RowLoad::Nothing,
    };
    let mut rows = [none; STEPS];
    for number in 0..code.len().min(STEPS) {
        let load = load_of(code[number], inputs);
        rows[number] = Row {
            dtype: kind_of(code[number], code, inputs, &rows),
            at: 0,
            kept: matches!(load, RowLoad::Pieces(_)),
            load,
        };
        keep_read(number, code, &mut rows);
    }
    keep_computed(code.len().saturating_sub(1), &mut rows);
    rows
}

/// Has rows kept of the steps that a step reads. A choice that is an extreme doesn't read its condition, and a product of converted
/// numbers reads them before.
fn keep_read(number: usize, code: &[Instr], rows: &mut [Row; STEPS])
    requires step { number < length code.now }
    requires row { number < 32 }
{
    match code[number] {
        Instr::Load(_) | Instr::Const(_) => (),
        Instr::One(f, t, a) => keep_arguments(widens_one(f), number, (a, a), t, code, rows),
        Instr::Two(f, t, a, b) => keep_arguments(widens_two(f), number, (a, b), t, code, rows),
        Instr::Select(c, a, b) => {
            if extreme_of(code, number, (c, a, b), rows[number].dtype).is_none() {
                keep_computed(c as usize, rows);
            }
            keep_computed(a as usize, rows);
            keep_computed(b as usize, rows);
        }
    }
}

/// Has rows kept of a step's arguments of this type, or of what they convert to it where it may be read before.
fn keep_arguments(
    widens: bool,
    number: usize,
    args: (u32, u32),
    t: Dtype,
    code: &[Instr],
    rows: &mut [Row; STEPS],
) {
    let (a, b) = args;
    if widens && origin_of(code, rows, number, args, t).is_some() {
        keep_computed(source_of(code, number, a, t) as usize, rows);
        keep_computed(source_of(code, number, b, t) as usize, rows);
    } else {
        keep_computed(a as usize, rows);
        keep_computed(b as usize, rows);
    }
}

/// Has a row kept of a step, unless it loads: of these it is known before.
#[inline(always)]
fn keep_computed(number: usize, rows: &mut [Row; STEPS]) {
    if number < STEPS {
        if let RowLoad::Nothing = rows[number].load {
            rows[number].kept = true;
        }
    }
}

/// What a step loads. A region that has as many elements as the result, or one, is in one piece.
fn load_of(instr: Instr, inputs: Inputs<'_>) -> RowLoad
    requires lays { All (LayFits inputs.dims.now (length inputs.ins.now)) inputs.lays.now }
    requires some { 0 < product inputs.dims.now }
    requires small { product inputs.dims.now < 2 ^ 63 }
{
    let Instr::Load(j) = instr else {
        return RowLoad::Nothing;
    };
    if j as usize >= inputs.lays.len() {
        return RowLoad::Nothing;
    }
    let lay = &inputs.lays[j as usize];
    if !is_stretched(lay, inputs.dims) {
        return RowLoad::OnePiece;
    }
    RowLoad::Pieces(pace_of(&lay.dims, inputs.dims).run)
}

/// Whether a region has neither as many elements as the result nor one.
fn is_stretched(lay: &Lay, dims: &Dims) -> bool {
    match lay.dims.elements() {
        Some(own) => own != 1 && Some(own) != dims.elements(),
        None => true,
    }
}

/// Whether a step has bytes of the bank.
fn has_bytes(instr: Instr, row: Row) -> bool {
    row.kept && !is_literal(instr)
}

/// Whether an argument has the type, as a literal takes it.
fn is_of(code: &[Instr], rows: &[Row; STEPS], a: u32, t: Dtype) -> bool {
    is_literal(step_at(code, a)) || kind_at(rows, a) == t
}

/// The bytes of two elements where one of two arguments is converted to the type, else none.
fn spare_for(t: Dtype, args: (u32, u32), code: &[Instr], rows: &[Row; STEPS]) -> usize {
    let (a, b) = args;
    if is_of(code, rows, a, t) && is_of(code, rows, b, t) {
        return 0;
    }
    2 * size(t) as usize
}

/// The spare bytes of a step of this type for each place.
fn spare_of(instr: Instr, own: Dtype, code: &[Instr], rows: &[Row; STEPS]) -> usize {
    match instr {
        Instr::Two(_, t, a, b) => spare_for(t, (a, b), code, rows),
        Instr::Select(_, a, b) => spare_for(own, (a, b), code, rows),
        _ => 0,
    }
}

/// The most spare bytes of a step for each place.
fn most_spare(code: &[Instr], rows: &[Row; STEPS]) -> usize {
    let mut spare = 0;
    for number in 0..code.len().min(STEPS) {
        spare = spare_of(code[number], rows[number].dtype, code, rows).max(spare);
    }
    spare
}

/// The bytes of the rows of the steps before the last, for each place.
fn bytes_of_rows(code: &[Instr], rows: &[Row; STEPS]) -> usize {
    let mut bytes = 0usize;
    for number in 0..code.len().saturating_sub(1).min(STEPS) {
        if has_bytes(code[number], rows[number]) {
            bytes = bytes.saturating_add(size(rows[number].dtype) as usize);
        }
    }
    bytes
}

/// The places for which the bank and rows of so many bytes have room; all where no bytes are wanted.
fn places_of(code: &[Instr], rows: &[Row; STEPS], all: usize) -> usize
    ensures { 0 < result }
{
    let spare = most_spare(code, rows);
    let each = bytes_of_rows(code, rows).saturating_add(spare);
    if each == 0 {
        return all.max(1);
    }
    let places = ((BANK - LINE * STEPS) / each)
        .min(WIDTH / widest(code, rows, spare / 2).max(1))
        .min(all);
    if places < LINE {
        return places.max(1);
    }
    places / LINE * LINE
}

/// The bytes of the widest element of a row, and at least `least`.
fn widest(code: &[Instr], rows: &[Row; STEPS], least: usize) -> usize {
    let mut bytes = least;
    for number in 0..code.len().min(STEPS) {
        if has_bytes(code[number], rows[number]) {
            bytes = bytes.max(size(rows[number].dtype) as usize);
        }
    }
    bytes
}

/// Gives each row its place in the bank, and returns how many bytes are wanted.
fn lay_out(code: &[Instr], most: usize, rows: &mut [Row; STEPS]) -> usize {
    let mut at = 0usize;
    for number in 0..code.len().min(STEPS) {
        let row = rows[number];
        rows[number] = Row { at, ..row };
        if has_bytes(code[number], row) && number + 1 < code.len() {
            let lines = most.saturating_mul(size(row.dtype) as usize) / LINE + 1;
            at = at.saturating_add(lines.saturating_mul(LINE));
        }
    }
    at.saturating_add(most.saturating_mul(most_spare(code, rows)))
}

/// The type of a step over steps of these types.
fn kind_of(instr: Instr, code: &[Instr], inputs: Inputs<'_>, rows: &[Row]) -> Dtype {
    match instr {
        Instr::Load(j) => kind_of_region(inputs.lays, j),
        Instr::Const(_) => Dtype::Bool,
        Instr::One(f, t, _) => result1(f, t),
        Instr::Two(f, t, _, _) => result2(f, t),
        Instr::Select(_, a, b) => {
            if is_literal(step_at(code, a)) {
                kind_at(rows, b)
            } else if is_literal(step_at(code, b)) {
                kind_at(rows, a)
            } else {
                promoted(kind_at(rows, a), kind_at(rows, b))
            }
        }
    }
}

/// The type to which two types are promoted, and the first where they aren't.
fn promoted(a: Dtype, b: Dtype) -> Dtype {
    match promote(a, b) {
        Some(t) => t,
        None => a,
    }
}

/// The type of a region, and `Bool` where there is none.
fn kind_of_region(lays: &[Lay], j: u32) -> Dtype {
    if j as usize >= lays.len() {
        return Dtype::Bool;
    }
    lays[j as usize].dtype
}
