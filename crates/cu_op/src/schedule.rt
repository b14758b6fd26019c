ghost use Rattle.std.specs.Prelude.{◌≡◌, ◌↔◌, ◌<◌, ◌≤◌, ◌+◌, ◌++◌, [], true, false, All, Contains};
ghost use Rattle.std.specs.Prelude.{IfSome, MatchOption, None, flat_map, length, sum_by};
ghost use Rattle.cu_shape.specs.Index.{quotients};
ghost use Rattle.cu_grid.specs.Counts.{IsRegion};
ghost use Rattle.cu_op.specs.Arrays.{grid_at, is_inlined, maker_at};
ghost use Rattle.cu_op.specs.Chunks.{IsOneChunk};
ghost use Rattle.cu_op.specs.Cells.{regions_of, tasks_of, task_grid, task_lo, task_hi, IsChunk};
ghost use Rattle.cu_op.specs.InputCells.{input_cells};
ghost use Rattle.cu_op.specs.Projection.{projection};
ghost use Rattle.cu_op.specs.Schedule.{op_of, MakesChunk, WritesCell};
ghost use Rattle.cu_op.specs.Sound.{Sound};
ghost use Rattle.cu_op.specs.TaskView.{walk_load, IsInnerRegion, IsReadFor, IsStoredWalk};
ghost use Rattle.cu_op.specs.Walks.{cells_of_walks, read_chunks, walk_cells, written_chunks};
ghost use Rattle.cu_op.specs.Walks.{input_walks, IsWalkOver};
ghost use Rattle.cu_op.specs.Within.{chunks_deep, fetched_chunks};

use crate::cells::Cell;
use crate::kinds::{grid_of_tasks, read_walks};
use crate::plan::Plan;
use crate::regions::output_walks;
use crate::walks::{Cells1, Cells2, Walk, each_once};
use arrayvec::ArrayVec;
use cu_grid::{Grid, Region};
use cu_shape::{Dims, index_of, place};

/// What the tasks of an operation go over: a grid each of whose chunks is the region of a task.
pub fn task_grid(plan: &Plan, op: u32) -> Grid
    requires { op < length plan.now.ops }
    ensures grid { result ≡ task_grid plan.now.arrays (op_of plan.now op) }
    ensures sound { Sound plan.now }
{
    grid_of_tasks(plan.arrays(), &plan.operation(op).op)
}

/// The number of regions that the tasks of an operation go over. Where its result is made where it
/// is read, each of them is computed inside a task of another operation.
pub fn region_count(plan: &Plan, op: u32) -> u32
    requires { op < length plan.now.ops }
    ensures count { result ≡ regions_of plan.now.arrays (op_of plan.now op) }
    ensures few { result ≤ 65536 }
{
    task_grid(plan, op).count() as u32
}

/// The number of tasks of an operation: none of its own where its result is made where it is read.
pub fn tasks(plan: &Plan, op: u32) -> u32
    requires { op < length plan.now.ops }
    ensures tasks { result ≡ tasks_of plan.now.arrays (op_of plan.now op) }
    ensures few { result ≤ 65536 }
{
    if plan.array(plan.operation(op).op.target()).inlined {
        0
    } else {
        region_count(plan, op)
    }
}

/// The indices of the result that a task computes.
pub fn task_region(plan: &Plan, op: u32, task: u32) -> Region
    requires operation { op < length plan.now.ops }
    requires task { task < regions_of plan.now.arrays (op_of plan.now op) }
    ensures lo { result.lo ≡ task_lo plan.now.arrays (op_of plan.now op) task }
    ensures hi { result.hi ≡ task_hi plan.now.arrays (op_of plan.now op) task }
    ensures inside { IsRegion (task_grid plan.now.arrays (op_of plan.now op)).shape result.lo result.hi }
{
    let grid = task_grid(plan, op);
    grid.chunk_region(&index_of(&grid.counts(), u64::from(task)))
}

/// The chunks that a task writes, each once.
pub fn outputs(plan: &Plan, op: u32, task: u32) -> Cells1<'_>
    requires operation { op < length plan.now.ops }
    requires task { task < tasks_of plan.now.arrays (op_of plan.now op) }
    ensures cells { result ≡ written_chunks plan.now.arrays (op_of plan.now op) task }
    ensures chunks { All (IsChunk plan.now.arrays) result }
{
    let walks = output_walks(&plan.operation(op).op, &task_region(plan, op, task));
    Cells1::make(plan.arrays(), walks)
}

/// The stored chunks that a task reads: its input cells. Each of the operations inside the task
/// reads a chunk once.
pub fn inputs(plan: &Plan, op: u32, task: u32) -> Cells2<'_>
    requires operation { op < length plan.now.ops }
    requires task { task < tasks_of plan.now.arrays (op_of plan.now op) }
    ensures cells { result ≡ fetched_chunks plan.now op task }
    ensures chunks { All (IsChunk plan.now.arrays) result }
    ensures stored { All (λ c. is_inlined plan.now.arrays c.array ≡ false) result }
    ensures exact { (c : Cell) → (Contains result c) ↔ (Contains (input_cells plan.now op task) c) }
{
    let arrays = plan.arrays();
    let read = each_once(&input_walks(plan, op, task));
    let mut walks = ArrayVec::new();
    push_walks(plan, op, read.as_slice(), &mut walks);
    Cells1::make(arrays, walks)
}

/// Adds for regions that an operation reads those of stored arrays that are read.
#[cycle(push_walks)]
fn push_walks(plan: &Plan, op: u32, read: &[Walk], walks: &mut ArrayVec<Walk, 8>)
    requires read { All (IsReadFor plan.now op) read.now }
    requires room { length walks.old.items + sum_by (walk_load plan.now op) read.now ≤ 8 }
    requires over { All (IsStoredWalk plan.now.arrays) walks.old.items }
    ensures few { length walks.new.items
        ≤ length walks.old.items + sum_by (walk_load plan.now op) read.now }
    ensures over { All (IsStoredWalk plan.now.arrays) walks.new.items }
    ensures cells { cells_of_walks plan.now.arrays walks.new.items
        ≡ cells_of_walks plan.now.arrays walks.old.items
        ++ flat_map (chunks_deep read_chunks plan.now op)
        (cells_of_walks plan.now.arrays read.now) }
{
    for at in 0..read.len() {
        push_walk(plan, op, &read[at], walks);
    }
}

/// Adds a region that an operation reads, or where its array is made where it is read those that
/// are read to make it.
#[cycle(push_walks)]
fn push_walk(plan: &Plan, op: u32, walk: &Walk, walks: &mut ArrayVec<Walk, 8>)
    requires read { IsReadFor plan.now op walk.now }
    requires room { length walks.old.items + walk_load plan.now op walk.now ≤ 8 }
    requires over { All (IsStoredWalk plan.now.arrays) walks.old.items }
    ensures few { length walks.new.items ≤ length walks.old.items + walk_load plan.now op walk.now }
    ensures over { All (IsStoredWalk plan.now.arrays) walks.new.items }
    ensures cells { cells_of_walks plan.now.arrays walks.new.items
        ≡ cells_of_walks plan.now.arrays walks.old.items
        ++ flat_map (chunks_deep read_chunks plan.now op) (walk_cells plan.now.arrays walk.now) }
{
    if !plan.array(walk.array).inlined {
        walks.push(*walk);
    } else if let Some((maker, region)) = inner_region(plan, walk) {
        let read = each_once(&input_walks(plan, maker, region));
        push_walks(plan, maker, read.as_slice(), walks);
    }
}

/// The operation that makes an array and the region of it that has the chunk in which a walk
/// begins; none where the walk has no chunk.
pub(crate) fn inner_region(plan: &Plan, walk: &Walk) -> Option<(u32, u32)>
    requires over { IsWalkOver plan.now.arrays walk.now }
    requires chunk { IsOneChunk (grid_at plan.now.arrays walk.now.array) walk.now.region }
    requires made { is_inlined plan.now.arrays walk.now.array ≡ true }
    ensures { MatchOption result (walk_cells plan.now.arrays walk.now ≡ [])
        (λ by. IsInnerRegion plan.now walk.now by.0 by.1) }
{
    let grid = plan.array(walk.array).layout.grid;
    if walk.region.sizes().has_zero() {
        return None;
    }
    let coord = box_of(&walk.region.lo, grid.chunk());
    maker(
        plan,
        &Cell {
            array: walk.array,
            coord,
        },
    )
}

/// Of each array that the operation reads, by its place, the region from which a region of its
/// result is computed.
pub fn input_walks(plan: &Plan, op: u32, task: u32) -> ArrayVec<Walk, 8>
    requires operation { op < length plan.now.ops }
    requires task { task < regions_of plan.now.arrays (op_of plan.now op) }
    ensures walks { result.items ≡ input_walks plan.now.arrays (op_of plan.now op) task }
    ensures regions { All (IsWalkOver plan.now.arrays) result.items }
    ensures few { length result.items ≤ 8 }
{
    walks_from(plan, op, task, &task_region(plan, op, task))
}

/// The same, from the region of the task.
pub(crate) fn walks_from(plan: &Plan, op: u32, task: u32, region: &Region) -> ArrayVec<Walk, 8>
    requires operation { op < length plan.now.ops }
    requires task { task < regions_of plan.now.arrays (op_of plan.now op) }
    requires lo { region.now.lo ≡ task_lo plan.now.arrays (op_of plan.now op) task }
    requires hi { region.now.hi ≡ task_hi plan.now.arrays (op_of plan.now op) task }
    ensures walks { result.items ≡ input_walks plan.now.arrays (op_of plan.now op) task }
    ensures regions { All (IsWalkOver plan.now.arrays) result.items }
    ensures few { length result.items ≤ 8 }
    ensures sound { Sound plan.now }
{
    read_walks(plan.arrays(), &plan.operation(op).op, region)
}

/// The operation and the task that write a chunk, or where it is made where it is read the
/// operation and the number of the region that has it; none where its array is an input.
pub fn maker(plan: &Plan, cell: &Cell) -> Option<(u32, u32)>
    requires { IsChunk plan.now.arrays cell.now }
    ensures makes { IfSome result
        (λ by. MakesChunk plan.now by.0 by.1 cell.now.array cell.now.coord) }
    ensures writes { is_inlined plan.now.arrays cell.now.array ≡ false
        → IfSome result (λ by. WritesCell plan.now by.0 by.1 cell.now.array cell.now.coord) }
    ensures input { (result ≡ None) ↔ (maker_at plan.now.arrays cell.now.array ≡ None) }
{
    let info = plan.array(cell.array);
    let operation = info.maker?;
    let regions = task_grid(plan, operation);
    let first = info.layout.grid.chunk_region(&cell.coord).lo;
    let region = box_of(&first, regions.chunk());
    Some((operation, place(&regions.counts(), &region) as u32))
}

/// The box that has an index, where boxes of these sizes stand side by side.
fn box_of(index: &Dims, sizes: &Dims) -> Dims
    requires ranks { length sizes.now ≡ length index.now }
    requires positive { All (λ s. 0 < s) sizes.now }
    ensures { result ≡ quotients index.now sizes.now }
{
    let mut coord = *index;
    for axis in 0..index.rank() {
        coord.put(axis, index.at(axis) / sizes.at(axis));
    }
    coord
}

/// The bytes of memory that a worker needs for a task of the operation, those that are reserved counted.
pub fn projected(plan: &Plan, op: u32) -> u64
    requires { op < length plan.now.ops }
    ensures { result ≡ projection plan.now op }
{
    plan.operation(op).projected
}
