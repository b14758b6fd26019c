//! Folds of what a map makes where it is read, by strips of the map's result.
ghost use Rattle.std.specs.Prelude.{◌≡◌, ◌*◌, ◌^◌, ◌<◌, ◌≤◌, ℕ, ℤ, [], All, IfSome, Some, length};
ghost use Rattle.cu_num.specs.Dtype.{size_of};
ghost use Rattle.cu_shape.specs.Index.{product};
ghost use Rattle.cu_reduce.specs.Kinds.{Accumulates};
ghost use Rattle.cu_op.specs.KernelTypes.{KernelFits};
ghost use Rattle.cu_fold.specs.Strips.{result_sizes, HasFoldedTo};
ghost use Rattle.cu_kern.specs.Lays.{LayFits, lay_types};
ghost use Rattle.cu_task.specs.OfTask.{own_words, read_bytes, made_bytes, AreOfItsType};
ghost use Rattle.cu_task.specs.Strips.{mapped_at, FoldsMap, IsMadeThrough, IsNumberOf};

use crate::conversions::{takes_all_types, unconverted};
use crate::inner::inner_task;
use crate::inputs::{input_walk, lays_of};
use crate::reductions::dtype_of;
use arrayvec::ArrayVec;
use cu_fold::{RegionFold, begin_fold, strips_law, take_strip};
use cu_kern::{Lay, PlaceRange, run_kernel_at};
use cu_num::size;
use cu_op::{Kernel, Op, PlanTask};
use cu_shape::{Dims, difference};

/// The bytes of a strip. The fold reads it right after the map has written it, at the same place
/// of the memory each time, so it should fit into a core's second cache with what the map reads.
const STRIP: usize = 1 << 18;

/// A map over the regions of its inputs, which stand one behind another.
#[derive(Clone, Copy)]
struct RegionMap<'a> {
    kernel: &'a Kernel,
    lays: &'a ArrayVec<Lay, 8>,
    inputs: &'a [u8],
}

/// The map that makes where it is read what a task folds, for the region that the task folds. None
/// where the task folds no map.
pub(crate) fn folded_map<'a>(task: &PlanTask<'a>) -> Option<PlanTask<'a>>
    ensures { IfSome result (λ t. FoldsMap task.now t) }
{
    let Op::Fold { .. } = task.operation() else {
        return None;
    };
    let inner = inner_task(task, 0)?;
    // No operation but a map has a kernel.
    inner.operation().kernel()?;
    Some(inner)
}

/// The partial results of a task whose input a map makes where it is read, from the regions that
/// the map reads. The map's result isn't made whole: each strip of it stands in the front of
/// `strip` until the fold has taken it.
pub(crate) fn fold_map(
    task: &PlanTask<'_>,
    map: &PlanTask<'_>,
    inputs: &[u8],
    strip: &mut [u8],
    output: &mut [u8],
    words: &mut [u64],
)
    requires map { FoldsMap task.now map.now }
    requires inputs { length inputs.now ≡ read_bytes map.now }
    requires strip { length strip.old ≡ read_bytes task.now }
    requires output { length output.old ≡ made_bytes task.now }
    requires words { own_words map.now ≤ length words.old }
    ensures values { IsMadeThrough task.now map.now inputs.now output.new }
    ensures elements { AreOfItsType task.now output.new }
{
    let Op::Fold {
        kind,
        axes,
        source,
        out,
    } = task.operation()
    else {
        unreachable!()
    };
    let Some(kernel) = map.operation().kernel() else {
        unreachable!()
    };
    let walk = input_walk(task, 0);
    let fold = RegionFold {
        kind: *kind,
        from: dtype_of(task, *source),
        acc: dtype_of(task, *out),
        dims: difference(&walk.region.hi, &walk.region.lo),
        axes: *axes,
    };
    let lays = lays_of(map, map.input_walks());
    let map = RegionMap {
        kernel,
        lays: &lays,
        inputs,
    };
    strips_law();
    let words = &mut words[..64 * kernel.code.len()];
    fold_unconverted(&fold, map, strip, output, words);
}

/// `fold_strips`, without a last conversion of the map that changes no number: the strips then have
/// more elements, and the fold reads fewer bytes.
fn fold_unconverted(
    fold: &RegionFold,
    map: RegionMap<'_>,
    strip: &mut [u8],
    output: &mut [u8],
    words: &mut [u64],
)
    requires types { Accumulates fold.now.kind fold.now.from fold.now.acc }
    requires kernel { KernelFits map.kernel.now.code.items (lay_types map.lays.now.items) [] fold.now.from }
    requires lays { All (LayFits fold.now.dims (length map.inputs.now)) map.lays.now.items }
    requires small { product fold.now.dims < 2 ^ 63 }
    requires strip { length strip.old ≡ product fold.now.dims * size_of fold.now.from }
    requires output { length output.old ≡ product (result_sizes fold.now) * size_of fold.now.acc }
    requires words { length words.old ≡ 64 * length map.kernel.now.code.items }
    ensures values { (p : ℕ) → p < product fold.now.dims → IsNumberOf fold.now.from (mapped_at map.entry fold.now.dims p) }
    ensures folded { (at : ℕ → ℤ) → ((p : ℕ) → p < product fold.now.dims → mapped_at map.entry fold.now.dims p ≡ Some (at p))
        → HasFoldedTo fold.now at (product fold.now.dims) output.new }
{
    if takes_all_types(fold.kind) {
        if let Some(shorter) = unconverted(map.kernel, map.lays.as_slice(), fold.from) {
            let all = strip.len() / size(fold.from) as usize;
            let bytes = all * size(shorter.dtype) as usize;
            let steps = shorter.kernel.code.len();
            let own = RegionFold {
                from: shorter.dtype,
                ..*fold
            };
            let map = RegionMap {
                kernel: &shorter.kernel,
                ..map
            };
            fold_strips(
                &own,
                map,
                &mut strip[..bytes],
                output,
                &mut words[..64 * steps],
            );
            return;
        }
    }
    fold_strips(fold, map, strip, output, words);
}

/// Makes the map's result strip by strip, and takes each into the results in `output`.
fn fold_strips(
    fold: &RegionFold,
    map: RegionMap<'_>,
    strip: &mut [u8],
    output: &mut [u8],
    words: &mut [u64],
)
    requires types { Accumulates fold.now.kind fold.now.from fold.now.acc }
    requires kernel { KernelFits map.kernel.now.code.items (lay_types map.lays.now.items) [] fold.now.from }
    requires lays { All (LayFits fold.now.dims (length map.inputs.now)) map.lays.now.items }
    requires small { product fold.now.dims < 2 ^ 63 }
    requires strip { length strip.old ≡ product fold.now.dims * size_of fold.now.from }
    requires output { length output.old ≡ product (result_sizes fold.now) * size_of fold.now.acc }
    requires words { length words.old ≡ 64 * length map.kernel.now.code.items }
    ensures values { (p : ℕ) → p < product fold.now.dims → IsNumberOf fold.now.from (mapped_at map.entry fold.now.dims p) }
    ensures folded { (at : ℕ → ℤ) → ((p : ℕ) → p < product fold.now.dims → mapped_at map.entry fold.now.dims p ≡ Some (at p))
        → HasFoldedTo fold.now at (product fold.now.dims) output.new }
{
    begin_fold(fold, output);
    let size = size(fold.from) as usize;
    let all = strip.len() / size;
    let most = strip_elements(&fold.dims, size);
    let mut done = 0;
    while done < all {
        let count = (all - done).min(most);
        let part = &mut strip[..count * size];
        let range = PlaceRange {
            from: done as u64,
            count,
        };
        run_kernel_at(
            map.kernel, map.lays, fold.from, &fold.dims, range, map.inputs, part, words,
        );
        take_strip(fold, done, count, part, output);
        done += count;
    }
}

/// The elements of `size` bytes that a strip has: where it can, all those of some indices of the
/// region's first axis, since the fold takes whole rows together.
fn strip_elements(dims: &Dims, size: usize) -> usize
    requires small { product dims.now < 2 ^ 63 }
    requires size { 0 < size }
    ensures { 0 < result }
{
    let most = (STRIP / size).max(1);
    if dims.rank() == 0 || dims.at(0) == 0 {
        return most;
    }
    let row = (dims.product() / dims.at(0)) as usize;
    if row == 0 || row > most {
        return most;
    }
    most - most % row
}
