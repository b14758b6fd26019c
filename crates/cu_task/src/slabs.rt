//! Maps of which a view makes one of the two inputs where it is read, from one stored chunk. The
//! chunk stays where it was read. The result is made slab by slab: what the view shows of a slab
//! stands in a strip until the kernel has taken it. A slab has some indices of the first axis.
//!
//! The result overlaps the other input's region, which stands one slab in front of it. The last
//! slab is made first: its results stand where nothing is, and those of each other one where the
//! input of the slab behind it was, which is done.
ghost use Rattle.std.specs.Prelude.{◌≡◌, ◌+◌, ◌*◌, ◌-◌, ◌<◌, ◌≤◌, ℕ, [], ◌∷◌, Some, length};
ghost use Rattle.std.specs.Prelude.{slice_index};
ghost use Rattle.cu_kern.specs.Lays.{loaded_at};
ghost use Rattle.cu_num.specs.Dtype.{size_of};
ghost use Rattle.cu_num.specs.Element.{bytes_at, element_at, element_bytes};
ghost use Rattle.cu_num.specs.declared.layout.Endian.TheVariants.{Little};
ghost use Rattle.cu_op.specs.Kernel.{kernel_value};
ghost use Rattle.cu_op.specs.TaskView.{task_op};
ghost use Rattle.cu_region.specs.Writing.{AreElements};
ghost use Rattle.cu_shape.specs.Index.{differences, product};
ghost use Rattle.cu_task.specs.Inputs.{map_code};
ghost use Rattle.cu_task.specs.OfTask.{made_bytes, own_words};
ghost use Rattle.cu_task.specs.Slabs.{front_room, input_type, made_type};
ghost use Rattle.cu_task.specs.Slabs.{input_bytes_at, other_place};
ghost use Rattle.cu_task.specs.Slabs.{result_bytes_at, slab_dims, slab_hi, slab_lay, slab_lays};
ghost use Rattle.cu_task.specs.Slabs.{slab_lo, view_type, HasSlabResults, IsStrip};
ghost use Rattle.cu_task.specs.Slabs.{IsOnlyChunk, IsSlabJob, MapsTwo};
ghost use Rattle.cu_task.specs.ViewJobs.{made_in, source_of_chunk, view_of_chunk, view_task_of};
ghost use Rattle.cu_task.specs.ViewJobs.{IsFront, IsViewJob};

use crate::inputs::input_walk;
use crate::results::result_bytes;
use crate::slab_jobs::{SlabJob, input_size, made_size};
use crate::views::{ViewJob, made_array, result_block};
use arrayvec::ArrayVec;
use cu_kern::{Lay, run_kernel};
use cu_op::PlanTask;
use cu_shape::Dims;
use cu_view::{gather, lay_constants};
use cu_view_box::Block;

/// Makes a map's result at the end of `memory`, where the other input's region stands one slab in
/// front of it. `front` is what was read of the chunk of the view's source.
pub(crate) fn make_slabs(
    task: &PlanTask<'_>,
    job: &SlabJob<'_>,
    front: &[u8],
    memory: &mut [u8],
    words: &mut [u64],
)
    requires job { IsSlabJob task.now job.now }
    requires front { length front.now ≡ front_room job.now }
    requires elements { AreElements (source_of_chunk job.now.chunk.now).layout.dtype front.now }
    requires memory { job.now.sizes.strip + job.now.sizes.gap + made_bytes task.now
        ≤ length memory.old }
    requires words { own_words task.now ≤ length words.old }
    ensures { HasSlabResults task.now job.now front.now 0 (job.now.sizes.rows * job.now.sizes.row)
        memory.old memory.new }
{
    let mut end = job.sizes.rows;
    while end > 0 {
        let first = end - job.sizes.step.min(end);
        make_slab(task, job, first, end, front, memory, words);
        end = first;
    }
}

/// Makes the slab from index `first` of the first axis up to before index `end`.
fn make_slab(
    task: &PlanTask<'_>,
    job: &SlabJob<'_>,
    first: usize,
    end: usize,
    front: &[u8],
    memory: &mut [u8],
    words: &mut [u64],
)
    requires job { IsSlabJob task.now job.now }
    requires first { first ≤ end }
    requires end { end ≤ job.now.sizes.rows }
    requires few { end - first ≤ job.now.sizes.step }
    requires front { length front.now ≡ front_room job.now }
    requires elements { AreElements (source_of_chunk job.now.chunk.now).layout.dtype front.now }
    requires memory { job.now.sizes.strip + job.now.sizes.gap + made_bytes task.now
        ≤ length memory.old }
    requires words { own_words task.now ≤ length words.old }
    ensures made { HasSlabResults task.now job.now front.now (first * job.now.sizes.row)
        (end * job.now.sizes.row) memory.old memory.new }
    ensures before { (p : ℕ) → p < first * job.now.sizes.row
        → input_bytes_at task.now job.now.sizes memory.new p
        ≡ input_bytes_at task.now job.now.sizes memory.old p }
    ensures behind { (p : ℕ) → end * job.now.sizes.row ≤ p
        → result_bytes_at task.now job.now.sizes memory.new p
        ≡ result_bytes_at task.now job.now.sizes memory.old p }
{
    let start = memory.len() - job.sizes.gap - result_bytes(task);
    let from = first * job.sizes.row;
    let count = (end - first) * job.sizes.row;
    let made = made_size(task);
    let at = start + from * made;
    let (inputs, behind) = memory.split_at_mut(at + job.sizes.gap);
    let (output, _) = behind.split_at_mut(count * made);
    let (strip, _) = inputs.split_at_mut(count * input_size(task, job.place));
    show_rows(job, first, end, front, strip);
    run_slab(task, job.place, at, count, inputs, output, words);
}

/// Writes what the view shows of some rows of its region.
fn show_rows(job: &SlabJob<'_>, first: usize, end: usize, front: &[u8], strip: &mut [u8])
    requires chunk { IsOnlyChunk job.now.chunk.now }
    requires read { IsFront job.now.chunk.now job.now.front }
    requires first { first ≤ end }
    requires axis { 0 < length (view_of_chunk job.now.chunk.now).lo }
    requires end { end ≤ slice_index (differences (view_of_chunk job.now.chunk.now).hi
        (view_of_chunk job.now.chunk.now).lo) 0 }
    requires front { length front.now ≡ front_room job.now }
    requires elements { AreElements (source_of_chunk job.now.chunk.now).layout.dtype front.now }
    requires strip { length strip.old
        ≡ product (slab_dims (view_of_chunk job.now.chunk.now) first end)
        * size_of (view_type job.now.chunk.now) }
    ensures { IsStrip job.now.chunk.now front.now first end strip.new }
{
    let view = job.chunk.job;
    let made = made_array(view);
    let shape = made.layout.grid.shape();
    let rows = slab_block(view, first, end);
    lay_constants(view.pull, view.shapes, shape, &rows, strip);
    gather(
        view.pull,
        view.shapes,
        shape,
        job.chunk.source,
        &job.front,
        front,
        &rows,
        strip,
    );
}

/// Some rows of the view's region.
fn slab_block(job: &ViewJob<'_>, first: usize, end: usize) -> Block
    requires job { IsViewJob job.now }
    requires first { first ≤ end }
    requires axis { 0 < length (view_task_of job.now).lo }
    requires end { end ≤ slice_index (differences (view_task_of job.now).hi
        (view_task_of job.now).lo) 0 }
    ensures lo { result.region.lo ≡ slab_lo (view_task_of job.now) first }
    ensures hi { result.region.hi ≡ slab_hi (view_task_of job.now) end }
    ensures dims { result.dims ≡ slab_dims (view_task_of job.now) first end }
    ensures dtype { result.dtype ≡ (made_in (view_task_of job.now)).layout.dtype }
{
    let mut rows = result_block(job);
    let lo = rows.region.lo.at(0);
    let _hi = rows.region.hi.at(0);
    rows.region.lo.put(0, lo + first as u64);
    rows.region.hi.put(0, lo + end as u64);
    rows.dims.put(0, (end - first) as u64);
    rows
}

/// The map's values over a strip in front of `inputs`, and so many elements of the other input from
/// byte `at` on.
fn run_slab(
    task: &PlanTask<'_>,
    place: usize,
    at: usize,
    count: usize,
    inputs: &[u8],
    output: &mut [u8],
    words: &mut [u64],
)
    requires maps { MapsTwo task.now }
    requires place { place < 2 }
    requires strip { count * size_of (input_type task.now place) ≤ length inputs.now }
    requires other { at + count * size_of (input_type task.now (other_place place))
        ≤ length inputs.now }
    requires output { length output.old ≡ count * size_of (made_type task.now) }
    requires words { own_words task.now ≤ length words.old }
    ensures values { (k : ℕ) → k < count
        → kernel_value (map_code (task_op task.now))
        (loaded_at (slab_lays task.now place at count) inputs.now (k ∷ []))
        ≡ Some (element_at Little (made_type task.now) output.new k) }
    ensures bytes { (k : ℕ) → k < count → bytes_at (made_type task.now) output.new k
        ≡ element_bytes Little (made_type task.now)
        (element_at Little (made_type task.now) output.new k) }
{
    let Some(kernel) = task.operation().kernel() else {
        unreachable!()
    };
    let made = task.array(task.operation().target());
    run_kernel(
        kernel,
        &lays_of_slab(task, place, at, count),
        made.layout.dtype,
        &one_axis(count),
        inputs,
        output,
        &mut words[..64 * kernel.code.len()],
    );
}

/// Where the elements of both inputs stand for a slab.
fn lays_of_slab(task: &PlanTask<'_>, place: usize, at: usize, count: usize) -> ArrayVec<Lay, 8>
    requires maps { MapsTwo task.now }
    ensures { result.items ≡ slab_lays task.now place at count }
{
    let mut lays = ArrayVec::new();
    lays.push(lay_of(task, place, at, count, 0));
    lays.push(lay_of(task, place, at, count, 1));
    lays
}

/// Where an input's elements stand for a slab.
fn lay_of(task: &PlanTask<'_>, place: usize, at: usize, count: usize, input: usize) -> Lay
    requires maps { MapsTwo task.now }
    requires input { input < 2 }
    ensures { result ≡ slab_lay task.now place at count input }
{
    let dtype = task.array(input_walk(task, input).array).layout.dtype;
    let at = if input == place { 0 } else { at };
    Lay {
        at,
        dtype,
        dims: one_axis(count),
    }
}

/// The sizes of an array of one axis.
fn one_axis(count: usize) -> Dims
    ensures { result ≡ count ∷ [] }
{
    let mut dims = Dims::default();
    dims.push(count as u64);
    dims
}
