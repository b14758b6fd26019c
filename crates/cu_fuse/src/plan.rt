//! The plan after the merges of its maps.
ghost use Rattle.std.specs.Prelude.{◌≡◌, IfOk};
ghost use Rattle.cu_op.specs.Arrays.{AllStored};
ghost use Rattle.cu_op.specs.Sound.{Sound};
ghost use Rattle.cu_fuse.specs.Close.{fused, fused_by, fused_loading_once, HasMadeNames};

use crate::close::close;
use crate::laws::{fused_law, fused_loading_once_law};
use crate::merge::merge_maps;
use crate::setting::MergeSetting;
use cu_op::Plan;
use cu_store::NoMemory;
use std::alloc::{AllocError, Global};

/// The plan after the merges of its maps (this project's own rule). Maps are taken in order, and
/// each one's inputs from first to last. An input's maker is merged into the map where the maker is
/// a map, its array isn't the output, no other input reads it, it has the grid of the map's array,
/// and both together have at most 8 inputs and 32 instructions and need at most what is allowed.
/// The maker's instructions then stand in place of the load, and its inputs in place of the input.
/// The numbers of arrays and operations close up, and so do the names of the made arrays but the
/// output: `_cubed/NAME/K`, where K counts them from 0. The plan's output has the name NAME, and
/// its other made arrays have such names already. Each array is stored, before and after.
pub fn fuse(alloc: Global, plan: Plan) -> Result<Plan, NoMemory>
    requires names { HasMadeNames plan }
    requires stored { AllStored plan.arrays }
    ensures plan { IfOk result (λ merged. merged ≡ fused plan) }
    ensures sound { IfOk result Sound }
    ensures stored { IfOk result (λ merged. AllStored merged.arrays) }
{
    fused_law();
    merged_plan(alloc, plan, false).map_err(|_| NoMemory)
}

/// The plan after the merges of its maps, in which each map loads an array once (this project's own
/// rule). In each map an array stands once among the inputs and has one load, both at the place of
/// the first; the other loads of it go, and the instructions close up. (A load that ends a kernel
/// stays, since the kernel's value is its last instruction's.) Then makers are merged into maps as
/// by `fuse`, and the same is done to each merged map before its inputs, its instructions and the
/// memory that it needs are counted. The plan's output has the name NAME, and its other made arrays
/// have the names `_cubed/NAME/K` already, where K counts them from 0. Each array is stored, before
/// and after.
pub fn fuse_loading_once(alloc: Global, plan: Plan) -> Result<Plan, NoMemory>
    requires names { HasMadeNames plan }
    requires stored { AllStored plan.arrays }
    ensures plan { IfOk result (λ merged. merged ≡ fused_loading_once plan) }
    ensures sound { IfOk result Sound }
    ensures stored { IfOk result (λ merged. AllStored merged.arrays) }
{
    fused_loading_once_law();
    merged_plan(alloc, plan, true).map_err(|_| NoMemory)
}

fn merged_plan(alloc: Global, plan: Plan, once: bool) -> Result<Plan, AllocError>
    requires output { HasMadeNames plan }
    requires stored { AllStored plan.arrays }
    requires sound { Sound (fused_by once plan) }
    ensures { IfOk result (λ merged. merged ≡ fused_by once plan) }
{
    let out = plan.out();
    let allowed = plan.allowed();
    let reserved = plan.reserved();
    let (arrays, mut ops) = plan.parts();
    let setting = MergeSetting {
        arrays,
        out,
        allowed,
        reserved,
        once,
    };
    merge_maps(alloc, &setting, &mut ops)?;
    close(alloc, &setting, ops)
}
