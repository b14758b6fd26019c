//! Sums and greatest numbers over the operations and the arrays of a plan.

ghost use Rattle.std.specs.Prelude.{◌≡◌, ◌<◌, ◌≤◌, ◌^◌, All, length, sum_by};
ghost use Rattle.cu_op.specs.Arrays.{array_chunk_count};
ghost use Rattle.cu_op.specs.Cells.{tasks_of};
ghost use Rattle.cu_op.specs.Operation.{writes_of};
ghost use Rattle.cu_op.specs.Sound.{made_chunks};
ghost use Rattle.cu_plan.specs.Listed.{listed};
ghost use Rattle.cu_plan.specs.Text.{cells_of, peak_of};

use cu_op::{ArrayInfo, Op, Plan, is_listed, listed_number, tasks};

/// How many tasks the plan has.
pub fn task_count(plan: &Plan) -> u64
    ensures count { result ≡ sum_by (λ o. tasks_of plan.now.arrays o.op) plan.now.ops }
    ensures bound { result ≤ 65536 }
{
    let mut count = 0;
    for op in 0..plan.ops().len() as u32 {
        count += u64::from(tasks(plan, op));
    }
    count
}

/// How many operations have a stored result.
pub(crate) fn listed_count(plan: &Plan) -> u64
    ensures { result ≡ length (listed plan.now) }
{
    u64::from(listed_number(plan, plan.ops().len() as u32))
}

/// The most bytes that any task of the plan needs.
pub fn peak(plan: &Plan) -> u64
    ensures { result ≡ peak_of plan.now }
{
    let mut peak = 0;
    for op in 0..plan.ops().len() as u32 {
        if is_listed(plan, op) {
            peak = plan.operation(op).projected.max(peak);
        }
    }
    peak
}

/// The chunks of the arrays that an operation writes.
pub(crate) fn cells_of(arrays: &[ArrayInfo], op: &Op) -> u64
    requires { All (λ a. a < length arrays.now) (writes_of op.now) }
    ensures { result ≡ cells_of arrays.now op.now }
{
    let mut count = 0;
    let writes = op.writes();
    for array in writes.as_slice() {
        count += chunk_count(&arrays[*array as usize]);
    }
    count
}

/// How many chunks an array has.
fn chunk_count(array: &ArrayInfo) -> u64
    ensures count { result ≡ array_chunk_count array.now }
    ensures few { result ≤ 2 ^ 60 }
{
    array.layout.grid.count()
}

/// How many chunks an array has, where an operation makes it and it is stored.
fn made_chunks(array: &ArrayInfo) -> u64
    ensures { result ≡ made_chunks array.now }
{
    if array.inlined {
        return 0;
    }
    match array.maker {
        None => 0,
        Some(_) => chunk_count(array),
    }
}

/// How many chunks all arrays have that are made and stored.
pub fn cell_count(plan: &Plan) -> u64
    ensures count { result ≡ sum_by made_chunks plan.now.arrays }
    ensures bound { result ≤ 262144 }
{
    let arrays = plan.arrays();
    let mut count = 0;
    for k in 0..arrays.len() {
        count += made_chunks(&arrays[k]);
    }
    count
}
