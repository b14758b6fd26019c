//! Kernels over whole regions.
ghost use Rattle.std.specs.Prelude.{◌≡◌, ◌+◌, ◌*◌, ◌^◌, ◌≤◌, ◌<◌, ℕ, List, [], Some, All, length};
ghost use Rattle.cu_num.specs.Dtype.{size_of};
ghost use Rattle.cu_num.specs.Element.{element_at, element_bytes, bytes_at};
ghost use Rattle.cu_num.specs.declared.layout.Endian.TheVariants.{Little};
ghost use Rattle.cu_shape.specs.Index.{product, place_of, index_at, IsInside};
ghost use Rattle.cu_op.specs.Kernel.{kernel_value};
ghost use Rattle.cu_op.specs.KernelTypes.{KernelFits};
ghost use Rattle.cu_kern.specs.Lays.{LayFits, lay_types, loaded_at, HasValue};
ghost use Rattle.cu_kern.specs.Steps.{value_by_place};

use crate::by_rows::run_by_rows;
use crate::lays::Lay;
use crate::regions::Inputs;
use crate::rows::PlaceRange;
use crate::steps::{ROW, run_block};
use arrayvec::ArrayVec;
use cu_num::{Dtype, size};
use cu_op::{Instr, Kernel};
use cu_shape::Dims;

/// Computes a map over regions of its inputs (Python array API, elementwise functions and broadcasting).
///
/// All regions lie in one buffer, `ins`, each as its `Lay` says, row-major and little-endian. They are stretched to `dims`, the
/// sizes of the result, whose elements of type `t` are written to `out`, row-major and little-endian. Each element of the result
/// is the kernel's value at the elements that its index reads. `words` are 64 for each step of the kernel.
pub fn run_kernel(
    kernel: &Kernel,
    lays: &ArrayVec<Lay, 8>,
    t: Dtype,
    dims: &Dims,
    ins: &[u8],
    out: &mut [u8],
    words: &mut [u64],
)
    requires kernel { KernelFits kernel.now.code.items (lay_types lays.now.items) [] t }
    requires lays { All (LayFits dims.now (length ins.now)) lays.now.items }
    requires out { length out.old ≡ product dims.now * size_of t }
    requires words { length words.old ≡ 64 * length kernel.now.code.items }
    ensures value { (idx : List ℕ) → IsInside dims.now idx
        → kernel_value kernel.now.code.items (loaded_at lays.now.items ins.now idx) ≡ Some (element_at Little t out.new (place_of dims.now idx)) }
    ensures bytes { (p : ℕ) → p < product dims.now → bytes_at t out.new p ≡ element_bytes Little t (element_at Little t out.new p) }
{
    let count = out.len() / size(t) as usize;
    let range = PlaceRange { from: 0, count };
    run_kernel_at(kernel, lays, t, dims, range, ins, out, words);
}

/// `run_kernel` at some places of the result alone: of its elements in row-major order `out` has those of `range`, and no others.
pub fn run_kernel_at(
    kernel: &Kernel,
    lays: &ArrayVec<Lay, 8>,
    t: Dtype,
    dims: &Dims,
    range: PlaceRange,
    ins: &[u8],
    out: &mut [u8],
    words: &mut [u64],
)
    requires kernel { KernelFits kernel.now.code.items (lay_types lays.now.items) [] t }
    requires lays { All (LayFits dims.now (length ins.now)) lays.now.items }
    requires small { product dims.now < 2 ^ 63 }
    requires within { range.from + range.count ≤ product dims.now }
    requires out { length out.old ≡ range.count * size_of t }
    requires words { length words.old ≡ 64 * length kernel.now.code.items }
    ensures value { (k : ℕ) → k < range.count
        → kernel_value kernel.now.code.items (loaded_at lays.now.items ins.now (index_at dims.now (range.from + k))) ≡ Some (element_at Little t out.new k) }
    ensures bytes { (k : ℕ) → k < range.count → bytes_at t out.new k ≡ element_bytes Little t (element_at Little t out.new k) }
{
    let code = kernel.code.as_slice();
    let lays = lays.as_slice();
    run_places(code, Inputs { lays, ins, dims }, t, range, out, words);
}

/// `run_kernel_at`: along rows of bytes, and in blocks of words where the rows weren't guessed right.
fn run_places(
    code: &[Instr],
    inputs: Inputs<'_>,
    t: Dtype,
    range: PlaceRange,
    out: &mut [u8],
    words: &mut [u64],
)
    requires kernel { KernelFits code.now (lay_types inputs.lays.now) [] t }
    requires lays { All (LayFits inputs.dims.now (length inputs.ins.now)) inputs.lays.now }
    requires small { product inputs.dims.now < 2 ^ 63 }
    requires within { range.from + range.count ≤ product inputs.dims.now }
    requires out { length out.old ≡ range.count * size_of t }
    requires words { length words.old ≡ 64 * length code.now }
    ensures { (k : ℕ) → k < range.count → HasValue t out.new k (value_by_place code.now inputs.entry.lays.now inputs.entry.ins.now inputs.entry.dims.now (range.from + k)) }
{
    if run_by_rows(code, inputs, t, range, out) {
        return;
    }
    run_blocks(code, inputs, t, range, out, words);
}

/// `run_kernel_at` by blocks of 64 places, the last of which may be shorter.
fn run_blocks(
    code: &[Instr],
    inputs: Inputs<'_>,
    t: Dtype,
    range: PlaceRange,
    out: &mut [u8],
    words: &mut [u64],
)
    requires kernel { KernelFits code.now (lay_types inputs.lays.now) [] t }
    requires lays { All (LayFits inputs.dims.now (length inputs.ins.now)) inputs.lays.now }
    requires small { product inputs.dims.now < 2 ^ 63 }
    requires within { range.from + range.count ≤ product inputs.dims.now }
    requires out { length out.old ≡ range.count * size_of t }
    requires words { length words.old ≡ 64 * length code.now }
    ensures { (k : ℕ) → k < range.count → HasValue t out.new k (value_by_place code.now inputs.entry.lays.now inputs.entry.ins.now inputs.entry.dims.now (range.from + k)) }
{
    let size = size(t) as usize;
    let all = range.count;
    for block in 0..all.div_ceil(ROW) {
        let done = block * ROW;
        let count = (all - done).min(ROW);
        let part = &mut out[done * size..(done + count) * size];
        run_block(code, inputs, t, range.from + done as u64, part, words);
    }
}
