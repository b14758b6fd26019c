//! The memory that a run takes before it stores anything.
ghost use Rattle.std.specs.Prelude.{◌≡◌, ℕ, ◌+◌, ◌*◌, ◌<◌, ◌≤◌, ◌++◌, IfOk, length, map, max, replicate, sum_by, vec_len, false};
ghost use Rattle.cu_store.specs.Held.{Contents};
ghost use Rattle.cu_op.specs.Arrays.{array_at, array_chunk_count, chunk_room};
ghost use Rattle.cu_op.specs.Cells.{IsChunk};
ghost use Rattle.cu_table.specs.Numbers.{task_count};
ghost use Rattle.cu_work.specs.Rooms.{rooms_of, buffer_bytes, AreLentWithin};
ghost use Rattle.cu_work.specs.Shared.{spec_of, specs_of, chunks_below, stored_chunks, none_done, worker_count, IsMemoryFor};
ghost use Rattle.cu_work.specs.World.{IsFound};

use crate::options::RunOptions;
use crate::rooms::Rooms;
use crate::way::key_of;
use cu_num::size;
use cu_op::{Cell, Plan, tasks};
use cu_store::{NoMemory, Spec};
use cu_table::Table;
use std::alloc::Global;

/// The memory that a run of a plan takes before it stores anything. Only the yard's is taken later, and before the first task.
#[derive(Drop)]
pub struct RunMemory {
    /// The memory that tasks are lent, for each worker.
    pub rooms: Vec<Rooms>,
    /// The table of the plan's tasks, which has no history yet.
    pub table: Table,
    /// The keys that the run shares.
    pub specs: Vec<Spec>,
}

/// The bytes of a chunk of an array.
fn chunk_bytes(plan: &Plan, array: u32) -> u64
    requires { array < length plan.now.arrays }
    ensures { result ≡ chunk_room plan.now.arrays array }
{
    let layout = &plan.array(array).layout;
    match layout.grid.chunk().elements() {
        Some(elements) => elements * size(layout.dtype),
        None => unreachable!(),
    }
}

/// The key of a chunk, as a yard serves it: it may be put where an operation makes its array.
fn spec_of(plan: &Plan, cell: &Cell) -> Spec
    requires { IsChunk plan.now.arrays cell.now }
    ensures { result ≡ spec_of plan.now.arrays cell.now }
{
    Spec {
        key: key_of(plan, cell),
        len: chunk_bytes(plan, cell.array),
        made: plan.array(cell.array).maker.is_some(),
    }
}

/// Appends the keys of the chunks of an array, row-major.
fn push_specs(plan: &Plan, array: u32, specs: &mut Vec<Spec>) -> Result<(), NoMemory>
    requires { array < length plan.now.arrays }
    ensures { IfOk result (λ _. specs.new.items ≡ specs.old.items
        ++ map (spec_of plan.now.arrays) (chunks_below plan.now.arrays array (array_chunk_count (array_at plan.now.arrays array)))) }
{
    let grid = plan.array(array).layout.grid;
    for number in 0..grid.count() {
        let cell = Cell {
            array,
            coord: grid.coordinate(number),
        };
        if specs.push(spec_of(plan, &cell)).is_err() {
            return Err(NoMemory);
        }
    }
    Ok(())
}

/// Appends the keys of the chunks of an array: none where they are made where they are read.
fn push_stored(plan: &Plan, array: u32, specs: &mut Vec<Spec>) -> Result<(), NoMemory>
    requires { array < length plan.now.arrays }
    ensures { IfOk result (λ _. specs.new.items ≡ specs.old.items
        ++ map (spec_of plan.now.arrays) (stored_chunks plan.now.arrays array)) }
{
    if plan.array(array).inlined {
        return Ok(());
    }
    push_specs(plan, array, specs)
}

/// The keys of all chunks that the plan stores or reads from a store, those of its inputs included.
fn make_specs(alloc: Global, plan: &Plan) -> Result<Vec<Spec>, NoMemory>
    ensures { IfOk result (λ specs. specs.items ≡ specs_of plan.now) }
{
    let mut specs = Vec::new(alloc);
    for array in 0..plan.arrays().len() as u32 {
        push_stored(plan, array, &mut specs)?;
    }
    Ok(specs)
}

/// Appends so many tasks that aren't done.
fn push_undone(done: &mut Vec<bool>, count: u32) -> Result<(), NoMemory>
    ensures { IfOk result (λ _. done.new.items ≡ done.old.items ++ replicate count false) }
{
    for _ in 0..count {
        if done.push(false).is_err() {
            return Err(NoMemory);
        }
    }
    Ok(())
}

/// For each task of the plan that it isn't done.
fn undone_list(alloc: Global, plan: &Plan) -> Result<Vec<bool>, NoMemory>
    ensures { IfOk result (λ done. done.items ≡ none_done plan.now) }
{
    let mut done = Vec::new(alloc);
    for op in 0..plan.ops().len() as u32 {
        push_undone(&mut done, tasks(plan, op))?;
    }
    Ok(done)
}

/// The list of a run that begins: for each task of the plan that it isn't done. The Err is want of memory.
pub fn none_done(alloc: Global, plan: &Plan) -> Result<Vec<bool>, NoMemory>
    ensures none { IfOk result (λ done. done.items ≡ none_done plan.now) }
    ensures tasks { IfOk result (λ done. length done.items ≡ task_count plan.now) }
    ensures found { (held : Contents) → IfOk result (λ done. IsFound plan.now held done.items) }
{
    undone_list(alloc, plan)
}

/// The memory for the tasks of so many workers.
fn make_rooms(alloc: Global, plan: &Plan, workers: u32) -> Result<Vec<Rooms>, NoMemory>
    ensures { IfOk result (λ rooms. rooms.items ≡ replicate workers (rooms_of plan.now)) }
{
    let mut rooms = Vec::new(alloc);
    for _ in 0..workers {
        let room = Rooms::make(alloc, plan)?;
        if rooms.push(room).is_err() {
            return Err(NoMemory);
        }
    }
    Ok(rooms)
}

/// How many workers a run has: as many as are wanted, but no more than copies of its tasks run at the same time, and one if there are
/// none. The others would never be given a task.
fn worker_count(options: &RunOptions, done: &[bool]) -> u32
    ensures { result ≡ worker_count options.now done.now }
{
    let wanted = options.workers as usize;
    let undone = done.iter().filter(|is_done| !**is_done).count().min(wanted);
    let copies = if options.backups { 2 * undone } else { undone };
    copies.max(1).min(wanted) as u32
}

impl RunMemory {
    /// The memory for a run of the plan, of which these tasks are done, those of all operations in order. There are at most as many
    /// workers as tasks that aren't done, with second copies twice as many, and one if all are done. Each has the most bytes and words
    /// that any task is lent: no more than an operation's memory and 512 bytes for each instruction of its kernels. The Err is want of
    /// memory.
    pub fn make(
        alloc: Global,
        plan: &Plan,
        options: &RunOptions,
        done: &[bool],
    ) -> Result<RunMemory, NoMemory>
        requires { length done.now ≡ task_count plan.now }
        ensures memory { IfOk result (IsMemoryFor plan.now options.now done.now) }
        ensures few { options.now.backups ≡ false → IfOk result (λ memory. vec_len memory.rooms ≤ max 1 (task_count plan.now)) }
        ensures buffers { IfOk result (λ memory. sum_by buffer_bytes memory.rooms.items
            ≡ worker_count options.now done.now * buffer_bytes (rooms_of plan.now)) }
        ensures room { (room instructions : ℕ) → AreLentWithin plan.now room instructions → IfOk result (λ memory.
            sum_by buffer_bytes memory.rooms.items ≤ options.now.workers * (room + 512 * instructions)) }
    {
        // that the plan is sound is told by the plan alone
        let _ops = plan.ops();
        let rooms = make_rooms(alloc, plan, worker_count(options, done))?;
        let table = Table::begin(alloc, plan, options.retries, options.backups, done)?;
        let specs = make_specs(alloc, plan)?;
        Ok(RunMemory {
            rooms,
            table,
            specs,
        })
    }
}
