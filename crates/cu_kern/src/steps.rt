//! The steps of a kernel over a block of places.
ghost use Rattle.std.specs.Prelude.{◌≡◌, ◌+◌, ◌*◌, ◌^◌, ◌≤◌, ◌<◌, ℕ, [], All, length, slice_index};
ghost use Rattle.cu_num.specs.Dtype.{size_of};
ghost use Rattle.cu_shape.specs.Index.{product};
ghost use Rattle.cu_op.specs.KernelTypes.{KernelFits};
ghost use Rattle.cu_kern.specs.Lays.{LayFits, lay_types, HasValue};
ghost use Rattle.cu_kern.specs.Steps.{HasRow, NamesBefore, StepHolds, loaded_by_place, value_by_place};

use crate::lays::load_lay;
use crate::regions::Inputs;
use cu_lane::{lane_save, lane_select, lane1, lane2};
use cu_num::{Dtype, size, word};
use cu_op::Instr;

/// The words that a step has for its results.
pub(crate) const ROW: usize = 64;

/// The first words of a step's results.
fn row(words: &[u64], step: u32, count: usize) -> &[u64]
    requires inside { HasRow (length words.now) step }
    requires count { count ≤ 64 }
    ensures length { length result.now ≡ count }
    ensures words { (k : ℕ) → k < count → slice_index result.now k ≡ slice_index words.now (64 * step + k) }
{
    let first = ROW * step as usize;
    &words[first..first + count]
}

/// One step at the places of the result from `from` on, over the words of the steps before it.
fn run_step(instr: Instr, inputs: Inputs<'_>, from: u64, before: &[u64], out: &mut [u64])
    requires lays { All (LayFits inputs.dims.now (length inputs.ins.now)) inputs.lays.now }
    requires names { NamesBefore instr (length inputs.lays.now) (length before.now) }
    requires within { from + length out.old ≤ product inputs.dims.now }
    requires small { product inputs.dims.now < 2 ^ 63 }
    requires count { length out.old ≤ 64 }
    ensures { (k : ℕ) → k < length out.new → StepHolds instr (lay_types inputs.entry.lays.now) (loaded_by_place inputs.entry.lays.now inputs.entry.ins.now inputs.entry.dims.now (from + k)) before.now k (slice_index out.new k) }
{
    let count = out.len();
    match instr {
        Instr::Load(k) => {
            load_lay(&inputs.lays[k as usize], inputs.dims, inputs.ins, from, out);
        }
        Instr::Const(x) => out.fill(word(x)),
        Instr::One(f, t, a) => lane1(f, t, row(before, a, count), out),
        Instr::Two(f, t, a, b) => lane2(f, t, row(before, a, count), row(before, b, count), out),
        Instr::Select(c, a, b) => lane_select(
            row(before, c, count),
            row(before, a, count),
            row(before, b, count),
            out,
        ),
    }
}

/// The elements of the result from place `from` on, as many as `out` has, at most 64.
pub(crate) fn run_block(
    code: &[Instr],
    inputs: Inputs<'_>,
    t: Dtype,
    from: u64,
    out: &mut [u8],
    words: &mut [u64],
)
    requires kernel { KernelFits code.now (lay_types inputs.lays.now) [] t }
    requires lays { All (LayFits inputs.dims.now (length inputs.ins.now)) inputs.lays.now }
    requires small { product inputs.dims.now < 2 ^ 63 }
    requires words { length words.old ≡ 64 * length code.now }
    requires whole { (count : ℕ) × (length out.old ≡ count * size_of t) × (count ≤ 64) × (from + count ≤ product inputs.dims.now) }
    ensures { (k : ℕ) → k * size_of t + size_of t ≤ length out.new → HasValue t out.new k (value_by_place code.now inputs.entry.lays.now inputs.entry.ins.now inputs.entry.dims.now (from + k)) }
{
    let count = out.len() / size(t) as usize;
    for (number, instr) in code.iter().enumerate() {
        let (before, rest) = words.split_at_mut(ROW * number);
        run_step(*instr, inputs, from, before, &mut rest[..count]);
    }
    let last = ROW * (code.len() - 1);
    lane_save(t, &words[last..last + count], out);
}
