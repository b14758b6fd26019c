//! Arrays that are made where they are read: the numbers of the operations that have tasks of
//! their own.
ghost use Rattle.std.specs.Prelude.{◌≡◌, ◌<◌, ◌≤◌, length};
ghost use Rattle.cu_op.specs.Within.{is_listed, listed_number};

use crate::plan::Plan;

/// How many operations before this one have a result that is stored: where it has tasks of its own,
/// its number in the list of those that do.
pub fn listed_number(plan: &Plan, op: u32) -> u32
    requires { op ≤ length plan.now.ops }
    ensures { result ≡ listed_number plan.now op }
{
    let mut number = 0;
    for before in 0..op {
        if is_listed(plan, before) {
            number += 1;
        }
    }
    number
}

/// Whether the result of an operation is stored.
pub fn is_listed(plan: &Plan, op: u32) -> bool
    requires { op < length plan.now.ops }
    ensures { result ≡ is_listed plan.now op }
{
    !plan.array(plan.operation(op).op.target()).inlined
}
