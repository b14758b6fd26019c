//! Laws of the definitions: calls that do nothing and whose clauses are the laws.

ghost use Rattle.std.specs.Prelude.{◌≡◌, ◌<◌, ◌≤◌, ◌↔◌, ℕ, ℤ, List, None, Some, length, true};
ghost use Rattle.cu_form.specs.Expression.{Expression};
ghost use Rattle.cu_expr.specs.declared.inputs.InputInfo.{InputInfo};
ghost use Rattle.cu_lower.specs.Inputs.{input_array, input_names, input_place};
ghost use Rattle.cu_lower.specs.Plan.{plan_of};
ghost use Rattle.cu_lower.specs.Premises.{AreThere, IsLiveInput, IsLowerable, IsOutput};
ghost use Rattle.cu_lower.specs.Premises.{OutputDiffers, expression_run};
ghost use Rattle.cu_lower.specs.declared.options.Options.{Options};
ghost use Rattle.cu_semantics.specs.Argument.{NodeElements, shape_of_node};
ghost use Rattle.cu_semantics.specs.Meaning.{meaning_of};
ghost use Rattle.cu_node.specs.declared.info.NodeInfo.{NodeInfo};
ghost use Rattle.cu_fuse.specs.Close.{fused_loading_once, HasInputsFirst};
ghost use Rattle.cu_fuse.specs.Copies.{copies_joined};
ghost use Rattle.cu_fuse.specs.Inlining.{IsInlinedOf};
ghost use Rattle.cu_grid.specs.Grid.{IsCoordinate};
ghost use Rattle.cu_op.specs.Arrays.{array_at, grid_at, is_inlined, maker_at};
ghost use Rattle.cu_op.specs.Cells.{regions_of};
ghost use Rattle.cu_op.specs.Chunks.{cell};
ghost use Rattle.cu_op.specs.Names.{HasOwnNames};
ghost use Rattle.cu_op.specs.PlanView.{PlanView, op_of, operation_at};
ghost use Rattle.cu_op.specs.Sound.{Sound};
ghost use Rattle.cu_op.specs.Elements.{Elements};
ghost use Rattle.cu_op.specs.Value.{plan_value};
ghost use Rattle.cu_op.specs.Walks.{read_chunks, EachOnce};
ghost use Rattle.cu_shape.specs.Index.{IsInside};
ghost use Rattle.cu_run_law.specs.Names.{HasPlanNames};
ghost use Rattle.cu_plan.specs.Keeping.{KeepsPlan};
ghost use Rattle.cu_plan.specs.Plan.{HaveInputElements, merged_plan_of};
ghost use Rattle.cu_plan.specs.ReadsChunk.{ReadsChunk};
ghost use Rattle.cu_plan.specs.Refusal.{planned_counts, refusal_of, AreWithin, IsFirstLimit};
ghost use Rattle.cu_plan.specs.Refusal.{IsFirstNode};

use crate::fault::PlanFault;
use cu_fuse::{copies_joined_law, fused_loading_once_law, inlining_law, made_names_law};
use cu_lower::{array_law, plan_law, value_law};
use cu_need::{counts_law, live_law, over_law};
use cu_op::{input_cells_law, input_law, task_law};

/// A plan is refused for its memory exactly where a live node needs more than is allowed, which
/// names the first such node, with what it needs; for its counts exactly where none does and there
/// are more than 65,536 tasks or, with no more, than 262,144 stored chunks; and for nothing else.
/// So it is refused alike for both values of `fusion`.
pub fn refusal_law()
    ensures over_memory { (options : Options) (e : Expression) (infos : List NodeInfo)
        (node need allowed : ℕ)
        → (refusal_of options e infos ≡ Some (PlanFault.OverMemory node need allowed))
        ↔ ((allowed ≡ options.allowed) × IsFirstNode options e infos node need) }
    ensures over_limit { (options : Options) (e : Expression) (infos : List NodeInfo)
        (which count : ℕ) → (refusal_of options e infos ≡ Some (PlanFault.OverLimit which count))
        ↔ (AreWithin options e infos × IsFirstLimit (planned_counts options e infos) which count) }
    ensures none { (options : Options) (e : Expression) (infos : List NodeInfo)
        → (refusal_of options e infos ≡ None)
        ↔ (AreWithin options e infos × ((planned_counts options e infos).tasks ≤ 65536)
        × ((planned_counts options e infos).cells ≤ 262144)) }
    ensures alike { (options other : Options) (e : Expression) (infos : List NodeInfo)
        → options.allowed ≡ other.allowed → options.reserved ≡ other.reserved
        → options.split_every ≡ other.split_every
        → refusal_of options e infos ≡ refusal_of other e infos }
{
    over_law();
    counts_law();
}

/// What the merges of maps, the joins of copies and the inlining of arrays keep of the plan of an
/// expression.
#[tactic(auto, unfolding(crate::specs::Plan::merged_plan_of))]
fn keeping_law()
    ensures { (e : Expression) (infos : List NodeInfo) (inputs : List InputInfo) (options : Options)
        → IsLowerable e infos inputs options
        → KeepsPlan (plan_of e infos inputs options) (length (input_names e))
        (merged_plan_of e infos inputs options) }
{
    plan_law();
    array_law();
    fused_loading_once_law();
    made_names_law();
    copies_joined_law();
    inlining_law();
}

/// The plan of an expression that is accepted, in which maps are merged and arrays may be made
/// where they are read, is sound, and each of its operations needs at most what is allowed. It is
/// made for the memory of the options. Where no input has the output's name, its names are those of
/// a plan with a name. Its result is the output's array; the array at the place of a live input
/// node's name is the input with that name, and each array that no operation makes is one of these.
/// The value of the result is the meaning of the stored node wherever it is defined, and it is
/// defined everywhere where the live inputs have their elements.
pub fn merged_plan_law()
    ensures sound { (e : Expression) (infos : List NodeInfo) (inputs : List InputInfo)
        (options : Options) → IsLowerable e infos inputs options
        → Sound (merged_plan_of e infos inputs options) }
    ensures needs { (e : Expression) (infos : List NodeInfo) (inputs : List InputInfo)
        (options : Options) (j : ℕ) → IsLowerable e infos inputs options
        → j < length (merged_plan_of e infos inputs options).ops
        → (operation_at (merged_plan_of e infos inputs options).ops j).projected ≤ options.allowed }
    ensures memory { (e : Expression) (infos : List NodeInfo) (inputs : List InputInfo)
        (options : Options) → (merged_plan_of e infos inputs options).allowed ≡ options.allowed }
    ensures names { (e : Expression) (infos : List NodeInfo) (inputs : List InputInfo)
        (options : Options) (recorded metadata : List ℕ) → IsLowerable e infos inputs options
        → OutputDiffers e
        → HasPlanNames (expression_run e (merged_plan_of e infos inputs options) recorded metadata)
        e.store_as recorded metadata }
    ensures output { (e : Expression) (infos : List NodeInfo) (inputs : List InputInfo)
        (options : Options) → IsLowerable e infos inputs options
        → IsOutput e infos
        (array_at (merged_plan_of e infos inputs options).arrays
        (merged_plan_of e infos inputs options).out) }
    ensures inputs { (e : Expression) (infos : List NodeInfo) (inputs : List InputInfo)
        (options : Options) (k : ℕ) (name : List ℕ) → IsLowerable e infos inputs options
        → IsLiveInput e k name
        → array_at (merged_plan_of e infos inputs options).arrays (input_place e name)
        ≡ input_array inputs name }
    ensures only { (e : Expression) (infos : List NodeInfo) (inputs : List InputInfo)
        (options : Options) (a : ℕ) → IsLowerable e infos inputs options
        → a < length (merged_plan_of e infos inputs options).arrays
        → maker_at (merged_plan_of e infos inputs options).arrays a ≡ None
        → (k : ℕ) × (name : List ℕ) × IsLiveInput e k name
        × (array_at (merged_plan_of e infos inputs options).arrays a ≡ input_array inputs name) }
    ensures equal { (e : Expression) (infos : List NodeInfo) (inputs : List InputInfo)
        (options : Options) (env : Elements) (elements : NodeElements) (idx : List ℕ) (x : ℤ)
        → HaveInputElements e infos inputs options env elements
        → IsInside (shape_of_node infos e.out) idx
        → plan_value (merged_plan_of e infos inputs options) env
        (merged_plan_of e infos inputs options).out idx ≡ Some x
        → x ≡ meaning_of e infos elements e.out idx }
    ensures defined { (e : Expression) (infos : List NodeInfo) (inputs : List InputInfo)
        (options : Options) (env : Elements) (elements : NodeElements) (idx : List ℕ)
        → HaveInputElements e infos inputs options env elements → AreThere e infos env
        → IsInside (shape_of_node infos e.out) idx
        → plan_value (merged_plan_of e infos inputs options) env
        (merged_plan_of e infos inputs options).out idx
        ≡ Some (meaning_of e infos elements e.out idx) }
{
    plan_law();
    array_law();
    value_law();
    live_law();
    keeping_law();
}

/// Different stored arrays that operations of such a plan make have different names. The live
/// inputs come first, and are the only arrays that no operation makes. With the option `--fusion 2`
/// arrays are made where they are read exactly where the rule of `inline_arrays` chooses them, and
/// there is one plan of that rule (`inlining_law`).
pub fn merged_arrays_law()
    ensures names { (e : Expression) (infos : List NodeInfo) (inputs : List InputInfo)
        (options : Options) → IsLowerable e infos inputs options
        → HasOwnNames (merged_plan_of e infos inputs options).arrays }
    ensures first { (e : Expression) (infos : List NodeInfo) (inputs : List InputInfo)
        (options : Options) → IsLowerable e infos inputs options
        → HasInputsFirst (merged_plan_of e infos inputs options) (length (input_names e)) }
    ensures inlined { (e : Expression) (infos : List NodeInfo) (inputs : List InputInfo)
        (options : Options) → options.fusion ≡ 2
        → IsInlinedOf (copies_joined (fused_loading_once (plan_of e infos inputs options)))
        (merged_plan_of e infos inputs options) }
{
    plan_law();
    array_law();
    keeping_law();
}

/// Each chunk of an array that a sound plan makes where it is read is read for exactly one region
/// of one operation, and no region's list names a chunk twice. So tasks that run once each make no
/// chunk of it twice.
pub fn one_reader_law()
    ensures some { (p : PlanView) (a : ℕ) (coord : List ℕ) → Sound p → a < length p.arrays
        → is_inlined p.arrays a ≡ true → IsCoordinate (grid_at p.arrays a) coord
        → (k : ℕ) × (region : ℕ) × ReadsChunk p k region (cell a coord) }
    ensures only { (p : PlanView) (k region l other a : ℕ) (coord : List ℕ) → Sound p
        → is_inlined p.arrays a ≡ true → ReadsChunk p k region (cell a coord)
        → ReadsChunk p l other (cell a coord) → (k ≡ l) × (region ≡ other) }
    ensures once { (p : PlanView) (k region : ℕ) → Sound p → k < length p.ops
        → region < regions_of p.arrays (op_of p k)
        → EachOnce (read_chunks p.arrays (op_of p k) region) }
{
    input_cells_law();
    input_law();
    task_law();
}
