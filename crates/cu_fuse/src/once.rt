//! Maps that load each array once.
ghost use Rattle.std.specs.Prelude.{◌≡◌, ◌<◌, ◌≤◌, ◌^◌, ◌⊎◌, All, IfSome, OnSome, None, [], length};
ghost use Rattle.std.specs.Prelude.{map};
ghost use Rattle.std.specs.List.{position_or_len};
ghost use Rattle.cu_op.specs.Kind.Map.{map_of};
ghost use Rattle.cu_op.specs.Layout.{IsArray};
ghost use Rattle.cu_op.specs.Operation.{reads_of};
ghost use Rattle.cu_op.specs.Projection.{instruction_count, own_projection};
ghost use Rattle.cu_fuse.specs.Fused.{with_one_load};
ghost use Rattle.cu_fuse.specs.Once.{at_places, distinct, first_like, first_load_of, loaded_by};
ghost use Rattle.cu_fuse.specs.Once.{loading_once, loads, over_distinct, stays, step_at};
ghost use Rattle.cu_fuse.specs.Runs.{CanRun, IsOverArrays};

use crate::inputs::{distinct, number_at};
use crate::setting::MergeSetting;
use arrayvec::ArrayVec;
use cu_op::{Instr, Kernel, Op, Planned, number_in, own_projection};

/// An instruction over these inputs as one over each of them once.
fn over_distinct(instr: Instr, ins: &[u32], once: &[u32]) -> Instr
    requires once { once.now ≡ distinct ins.now }
    requires few { length once.now < 2 ^ 32 }
    ensures { result ≡ over_distinct ins.now instr }
{
    match instr {
        Instr::Load(k) => Instr::Load(number_in(once, number_at(ins, k)) as u32),
        other => other,
    }
}

/// A kernel over these inputs as one over each of them once.
fn code_over_distinct(code: &[Instr], ins: &[u32], once: &[u32]) -> ArrayVec<Instr, 1024>
    requires code { length code.now ≤ 1024 }
    requires once { once.now ≡ distinct ins.now }
    requires few { length once.now < 2 ^ 32 }
    ensures { result.items ≡ map (over_distinct ins.now) code.now }
{
    let mut over = ArrayVec::new();
    for instr in code {
        over.push(over_distinct(*instr, ins, once));
    }
    over
}

/// Whether an instruction loads input number `k`.
fn loads(k: u32, instr: Instr) -> bool
    ensures { result ≡ loads k instr }
{
    match instr {
        Instr::Load(j) => j == k,
        _ => false,
    }
}

/// The number of the first instruction that loads input number `k`, and how many there are where
/// none does.
fn first_load(code: &[Instr], k: u32) -> usize
    ensures place { result ≡ position_or_len (loads k) code.now }
    ensures within { result ≤ length code.now }
{
    let mut number = 0;
    for instr in code {
        if loads(k, *instr) {
            return number;
        }
        number += 1;
    }
    number
}

/// The number of the first instruction that loads what number `n`, which is `instr`, does; `n`
/// itself if that loads nothing.
fn first_like(code: &[Instr], n: usize, instr: Instr) -> usize
    ensures { result ≡ first_like code.now n instr }
{
    match instr {
        Instr::Load(k) => first_load(code, k),
        _ => n,
    }
}

/// An instruction, by its number.
fn step_at(code: &[Instr], n: usize) -> Instr
    requires { n < length code.now }
    ensures { result ≡ step_at code.now n }
{
    code[n]
}

/// Whether instruction number `n` stays, where number `first` is the first that is like it.
fn stays(code: &[Instr], n: usize, first: usize) -> bool
    requires within { n < length code.now }
    requires first { first ≡ first_load_of code.now n }
    ensures { result ≡ stays code.now n }
{
    first == n || n + 1 == code.len()
}

/// An instruction with its arguments where they stand.
fn at_places(places: &[u32], instr: Instr) -> Instr
    ensures { result ≡ at_places places.now instr }
{
    match instr {
        Instr::Load(k) => Instr::Load(k),
        Instr::Const(x) => Instr::Const(x),
        Instr::One(f, t, a) => Instr::One(f, t, number_at(places, a)),
        Instr::Two(f, t, a, b) => Instr::Two(f, t, number_at(places, a), number_at(places, b)),
        Instr::Select(c, a, b) => Instr::Select(
            number_at(places, c),
            number_at(places, a),
            number_at(places, b),
        ),
    }
}

/// A kernel with one load of each input.
fn loading_once(code: &[Instr]) -> ArrayVec<Instr, 1024>
    requires { length code.now ≤ 1024 }
    ensures { result.items ≡ loading_once code.now }
{
    let mut once = ArrayVec::new();
    let mut places = ArrayVec::<u32, 1024>::new();
    for n in 0..code.len() {
        let instr = step_at(code, n);
        let first = first_like(code, n, instr);
        let standing = places.as_slice();
        let place = if first < n {
            number_at(standing, first as u32)
        } else {
            once.len() as u32
        };
        if stays(code, n, first) {
            once.push(at_places(standing, instr));
        }
        places.push(place);
    }
    once
}

/// A map of this kernel over these arrays; none where it has more than 8 inputs or 32 instructions.
fn small_map(code: &[Instr], ins: &[u32], out: u32) -> Option<Op>
    ensures map { IfSome result (λ op. op ≡ map_of code.now ins.now out) }
    ensures steps { OnSome result (length code.now ≤ 32) }
    ensures inputs { OnSome result (length ins.now ≤ 8) }
    ensures none { result ≡ None → (32 < length code.now) ⊎ (8 < length ins.now) }
{
    let mut steps = ArrayVec::new();
    let mut inputs = ArrayVec::new();
    if steps.try_extend_from_slice(code).is_err() || inputs.try_extend_from_slice(ins).is_err() {
        return None;
    }
    Some(Op::map_of(Kernel { code: steps }, inputs, out))
}

/// A map of this kernel over these arrays, with one load of each of them where maps load an array
/// once; none where it then has more than 8 inputs or 32 instructions.
pub(crate) fn loaded_map(once: bool, code: &[Instr], ins: &[u32], out: u32) -> Option<Op>
    requires code { length code.now ≤ 1024 }
    requires ins { length ins.now ≤ 16 }
    ensures map { IfSome result (λ op. op ≡ loaded_by once (map_of code.now ins.now out)) }
    ensures steps { OnSome result
        (instruction_count (loaded_by once (map_of code.now ins.now out)) ≤ 32) }
    ensures inputs { OnSome result
        (length (reads_of (loaded_by once (map_of code.now ins.now out))) ≤ 8) }
    ensures none { result ≡ None
        → (32 < instruction_count (loaded_by once (map_of code.now ins.now out)))
        ⊎ (8 < length (reads_of (loaded_by once (map_of code.now ins.now out)))) }
{
    if !once {
        return small_map(code, ins, out);
    }
    let arrays = distinct(ins);
    let over = code_over_distinct(code, ins, arrays.as_slice());
    small_map(
        loading_once(over.as_slice()).as_slice(),
        arrays.as_slice(),
        out,
    )
}

/// Gives an operation one load of each array.
fn load_once(setting: &MergeSetting, planned: &mut Planned)
    requires arrays { All IsArray setting.now.arrays }
    requires over { IsOverArrays setting.now.arrays planned.old.op }
    requires projected { planned.old.projected
        ≡ own_projection setting.now.arrays setting.now.reserved planned.old.op }
    requires room { planned.old.projected < 2 ^ 64 }
    ensures { planned.new ≡ with_one_load setting.now planned.old }
{
    let Some(kernel) = planned.op.kernel() else {
        return;
    };
    let ins = planned.op.reads();
    let out = planned.op.target();
    let Some(op) = loaded_map(true, kernel.code.as_slice(), ins.as_slice(), out) else {
        return;
    };
    planned.projected = own_projection(&setting.arrays, setting.reserved, &op);
    planned.op = op;
}

/// Gives each operation one load of each array.
pub(crate) fn load_all_once(setting: &MergeSetting, ops: &mut Vec<Planned>)
    requires arrays { All IsArray setting.now.arrays }
    requires run { CanRun setting.now.arrays setting.now.reserved [] ops.old.items }
    ensures { ops.new.items ≡ map (with_one_load setting.now) ops.old.items }
{
    for planned in ops.iter_mut() {
        load_once(setting, planned);
    }
}
