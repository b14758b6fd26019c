//! Which operations another waits for: those that make what it reads, and what is read by an
//! operation that stands inside its tasks.

ghost use Rattle.std.specs.Prelude.{◌≡◌, ◌<◌, IfOk, length, map};
ghost use Rattle.cu_op.specs.Within.{listed_number};
ghost use Rattle.cu_plan.specs.Listed.{comes_from, awaited_ops, waits_for};

use cu_op::{Plan, listed_number};
use std::alloc::{AllocError, Global};

/// The operations that an operation waits for, each once, in their order, by the numbers that they
/// have among those whose results are stored.
pub(crate) fn source_numbers(alloc: Global, plan: &Plan, op: u32) -> Result<Vec<u32>, AllocError>
    requires { op < length plan.now.ops }
    ensures { IfOk result (λ numbers. numbers.items
        ≡ map (listed_number plan.now) (awaited_ops plan.now op)) }
{
    let mut numbers = Vec::new(alloc);
    for other in 0..op {
        if waits_for(plan, op, other) {
            numbers.push(listed_number(plan, other))?;
        }
    }
    Ok(numbers)
}

/// Whether an operation, or one that stands inside its tasks, reads an array that the other stores.
#[cycle(waits_for)]
fn waits_for(plan: &Plan, op: u32, other: u32) -> bool
    requires { op < length plan.now.ops }
    ensures { result ≡ waits_for plan.now op other }
{
    let reads = plan.operation(op).op.reads();
    for array in reads.as_slice() {
        if comes_from(plan, *array, other) {
            return true;
        }
    }
    false
}

/// Whether the other operation stores an array, or what is read to make it where it is read.
#[cycle(waits_for)]
fn comes_from(plan: &Plan, array: u32, other: u32) -> bool
    requires { array < length plan.now.arrays }
    ensures { result ≡ comes_from plan.now array other }
{
    let info = plan.array(array);
    match info.maker {
        None => false,
        Some(maker) => {
            if info.inlined {
                waits_for(plan, maker, other)
            } else {
                maker == other
            }
        }
    }
}
