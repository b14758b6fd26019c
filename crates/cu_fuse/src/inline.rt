//! The plan in which arrays are made where they are read.
ghost use Rattle.std.specs.Prelude.{IfOk};
ghost use Rattle.cu_fuse.specs.Close.{HasMadeNames};
ghost use Rattle.cu_fuse.specs.Inlining.{IsInlinedOf};
ghost use Rattle.cu_op.specs.Arrays.{AllStored};
ghost use Rattle.cu_op.specs.Sound.{Sound};

use crate::choice::Choice;
use cu_op::Plan;
use cu_store::NoMemory;
use std::alloc::{AllocError, Global};

/// The plan in which arrays are made where they are read (this project's own rule). Operations
/// are taken in order, and each one's inputs from first to last. An input's array is inlined
/// where its maker writes one chunk of it in each task and nothing else, it isn't the output,
/// this one input alone reads it in the whole plan, and each task of the reader reads one chunk
/// of it. The reader with all that is inlined into it so far, this array too, has at most 32
/// instructions, reads at most 8 stored arrays, and needs at most what is allowed. Arrays and
/// operations keep their numbers. The names of the stored made arrays but the output close up:
/// `_cubed/NAME/K`, where K counts them from 0. The plan's output has the name NAME, and its
/// other made arrays have such names already.
pub fn inline_arrays(alloc: Global, plan: Plan) -> Result<Plan, NoMemory>
    requires names { HasMadeNames plan }
    requires stored { AllStored plan.arrays }
    ensures plan { IfOk result (λ q. IsInlinedOf plan q) }
    ensures sound { IfOk result Sound }
{
    inlined_plan(alloc, plan).map_err(|_| NoMemory)
}

fn inlined_plan(alloc: Global, plan: Plan) -> Result<Plan, AllocError>
    requires names { HasMadeNames plan }
    requires stored { AllStored plan.arrays }
    ensures plan { IfOk result (λ q. IsInlinedOf plan q) }
    ensures sound { IfOk result Sound }
{
    let out = plan.out();
    let allowed = plan.allowed();
    let reserved = plan.reserved();
    let (arrays, ops) = plan.parts();
    let mut choice = Choice {
        arrays,
        ops,
        out,
        allowed,
        reserved,
    };
    let rooms = choice.choose_all(alloc)?;
    choice.set_needs(&rooms);
    choice.rename();
    let Choice {
        arrays,
        ops,
        out,
        allowed,
        reserved,
    } = choice;
    Ok(Plan::make(arrays, ops, out, allowed, reserved))
}
