//! Laws of the plan of an expression: calls that do nothing and whose clauses are the laws.

ghost use Rattle.std.specs.Prelude.{◌≡◌, ◌<◌, ℕ, ℤ, List, None, Some, true, length};
ghost use Rattle.cu_shape.specs.Index.{IsInside};
ghost use Rattle.cu_op.specs.Arrays.{array_at, maker_at, AllStored};
ghost use Rattle.cu_op.specs.PlanView.{operation_at};
ghost use Rattle.cu_op.specs.Sound.{Sound};
ghost use Rattle.cu_op.specs.Elements.{Elements};
ghost use Rattle.cu_op.specs.Value.{plan_value};
ghost use Rattle.cu_run_law.specs.Names.{HasPlanNames};
ghost use Rattle.cu_form.specs.Expression.{Expression};
ghost use Rattle.cu_form.specs.declared.expr.Node.{Node};
ghost use Rattle.cu_node.specs.declared.info.NodeInfo.{NodeInfo};
ghost use Rattle.cu_semantics.specs.Argument.{NodeElements, shape_of_node};
ghost use Rattle.cu_semantics.specs.Meaning.{meaning_of};
ghost use Rattle.cu_expr.specs.declared.inputs.InputInfo.{InputInfo};
ghost use Rattle.cu_need.specs.Counts.{plan_counts};
ghost use Rattle.cu_need.specs.Live.{is_live};
ghost use Rattle.cu_lower.specs.Inputs.{input_array, input_place};
ghost use Rattle.cu_copy.specs.Copies.{max_mem};
ghost use Rattle.cu_lower.specs.Plan.{lowered, array_of_node, plan_of};
ghost use Rattle.cu_lower.specs.Premises.{IsLowerable, IsLiveInput, OutputDiffers, AreThere, HasArraysInOrder, HaveElements, HasCounts, IsComputedNode, IsOfNode, IsOutput, NeedsAsMuch, expression_run};
ghost use Rattle.cu_lower.specs.declared.options.Options.{Options};

use cu_lower_reduce::{
    cumulative_law, grouped_law, operands_law, product_law, rechunk_law, reduction_law, search_law,
};
use cu_lower_view::pull_law;
use cu_need::live_law;
use cu_op::range_law;

/// The plan of an expression that can be lowered is sound, and each of its arrays is stored. Each of its operations belongs to a live node and needs at most what is
/// allowed. A copy belongs to a node that has copies; any other operation needs at most what the node does besides them, and one of the
/// node's needs as much: so that need of a live node that is neither a rechunk nor an input is the greatest of its operations but the
/// copies. The tasks of the plan and the
/// chunks of its made arrays are as many as are counted of the expression. Where no input has the output's name, the plan's names are
/// those of a plan with a name.
pub fn plan_law()
    ensures sound { (e : Expression) (infos : List NodeInfo) (inputs : List InputInfo) (options : Options) → IsLowerable e infos inputs options → Sound (plan_of e infos inputs options) }
    ensures stored { (e : Expression) (infos : List NodeInfo) (inputs : List InputInfo) (options : Options) → IsLowerable e infos inputs options
        → AllStored (plan_of e infos inputs options).arrays }
    ensures needs { (e : Expression) (infos : List NodeInfo) (inputs : List InputInfo) (options : Options) (j : ℕ) → IsLowerable e infos inputs options
        → j < length (plan_of e infos inputs options).ops → IsOfNode e infos options (operation_at (plan_of e infos inputs options).ops j) }
    ensures counts { (e : Expression) (infos : List NodeInfo) (inputs : List InputInfo) (options : Options) → IsLowerable e infos inputs options
        → HasCounts (plan_of e infos inputs options) (plan_counts (max_mem options.allowed options.reserved) options.split_every e infos) }
    ensures names { (e : Expression) (infos : List NodeInfo) (inputs : List InputInfo) (options : Options) (recorded metadata : List ℕ) → IsLowerable e infos inputs options
        → OutputDiffers e → HasPlanNames (expression_run e (plan_of e infos inputs options) recorded metadata) e.store_as recorded metadata }
    ensures attained { (e : Expression) (infos : List NodeInfo) (inputs : List InputInfo) (options : Options) (k : ℕ) (node : Node) → IsLowerable e infos inputs options
        → IsComputedNode e k node → NeedsAsMuch infos options (plan_of e infos inputs options).ops k node }
{
    live_law();
    pull_law();
    reduction_law();
    search_law();
    product_law();
    cumulative_law();
    grouped_law();
    rechunk_law();
    operands_law();
}

/// The array of the stored node is the output's, the array at the place of a live input node's name is the input with that name, and each
/// array that no operation makes is one of these. None of them stands twice. They come first. The arrays behind them have the encoding
/// "default" with "/"; the last is the output's, and the others have the names `_cubed/NAME/K`, where K counts them from 0.
pub fn array_law()
    ensures output { (e : Expression) (infos : List NodeInfo) (inputs : List InputInfo) (options : Options) → IsLowerable e infos inputs options
        → IsOutput e infos (array_at (plan_of e infos inputs options).arrays (plan_of e infos inputs options).out) }
    ensures inputs { (e : Expression) (infos : List NodeInfo) (inputs : List InputInfo) (options : Options) (k : ℕ) (name : List ℕ) → IsLowerable e infos inputs options
        → IsLiveInput e k name → array_at (plan_of e infos inputs options).arrays (input_place e name) ≡ input_array inputs name }
    ensures only { (e : Expression) (infos : List NodeInfo) (inputs : List InputInfo) (options : Options) (a : ℕ) → IsLowerable e infos inputs options
        → a < length (plan_of e infos inputs options).arrays → maker_at (plan_of e infos inputs options).arrays a ≡ None
        → (k : ℕ) × (name : List ℕ) × IsLiveInput e k name × (array_at (plan_of e infos inputs options).arrays a ≡ input_array inputs name) }
    ensures once { (e : Expression) (infos : List NodeInfo) (inputs : List InputInfo) (options : Options) (a b : ℕ) → IsLowerable e infos inputs options
        → a < length (plan_of e infos inputs options).arrays → b < length (plan_of e infos inputs options).arrays
        → maker_at (plan_of e infos inputs options).arrays a ≡ None → maker_at (plan_of e infos inputs options).arrays b ≡ None
        → (array_at (plan_of e infos inputs options).arrays a).prefix ≡ (array_at (plan_of e infos inputs options).arrays b).prefix → a ≡ b }
    ensures order { (e : Expression) (infos : List NodeInfo) (inputs : List InputInfo) (options : Options) → IsLowerable e infos inputs options
        → HasArraysInOrder e (plan_of e infos inputs options) }
{
    live_law();
    pull_law();
    reduction_law();
    search_law();
    product_law();
    cumulative_law();
    grouped_law();
    rechunk_law();
    operands_law();
}

/// The value of a live node's array is the meaning of the node wherever it is defined, and it is defined everywhere in the node's
/// shape where the arrays of the live inputs have their elements. So it is of the plan's result.
pub fn value_law()
    ensures equal { (e : Expression) (infos : List NodeInfo) (inputs : List InputInfo) (options : Options) (env : Elements) (elements : NodeElements) (k : ℕ) (idx : List ℕ) (x : ℤ)
        → HaveElements e infos inputs options env elements → is_live e k ≡ true → IsInside (shape_of_node infos k) idx
        → plan_value (plan_of e infos inputs options) env (array_of_node (lowered e infos inputs options) k) idx ≡ Some x → x ≡ meaning_of e infos elements k idx }
    ensures defined { (e : Expression) (infos : List NodeInfo) (inputs : List InputInfo) (options : Options) (env : Elements) (elements : NodeElements) (k : ℕ) (idx : List ℕ)
        → HaveElements e infos inputs options env elements → AreThere e infos env → is_live e k ≡ true → IsInside (shape_of_node infos k) idx
        → plan_value (plan_of e infos inputs options) env (array_of_node (lowered e infos inputs options) k) idx ≡ Some (meaning_of e infos elements k idx) }
    ensures result { (e : Expression) (infos : List NodeInfo) (inputs : List InputInfo) (options : Options) (env : Elements) (elements : NodeElements) (idx : List ℕ)
        → HaveElements e infos inputs options env elements → AreThere e infos env → IsInside (shape_of_node infos e.out) idx
        → plan_value (plan_of e infos inputs options) env (plan_of e infos inputs options).out idx ≡ Some (meaning_of e infos elements e.out idx) }
{
    live_law();
    pull_law();
    reduction_law();
    search_law();
    product_law();
    cumulative_law();
    grouped_law();
    rechunk_law();
    operands_law();
    range_law();
}
