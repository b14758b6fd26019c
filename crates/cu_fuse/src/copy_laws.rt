//! Laws of plans whose copies are joined: calls that do nothing and whose clauses are the laws.

ghost use Rattle.std.specs.Prelude.{◌≡◌, ◌≢◌, ◌↔◌, ◌<◌, ◌≤◌, ◌^◌, ◌⊎◌, ℕ, List, None, true, length};
ghost use Rattle.cu_name.specs.Keys.{made_prefix_of};
ghost use Rattle.cu_op.specs.Arrays.{array_at, grid_at, maker_at, AllStored};
ghost use Rattle.cu_op.specs.Elements.{Elements};
ghost use Rattle.cu_op.specs.Names.{HasOwnNames};
ghost use Rattle.cu_op.specs.PlanView.{PlanView, operation_at};
ghost use Rattle.cu_op.specs.Sound.{Sound};
ghost use Rattle.cu_op.specs.Value.{plan_value};
ghost use Rattle.cu_op.specs.declared.operation.Planned.{Planned};
ghost use Rattle.cu_shape.specs.Index.{IsInside};
ghost use Rattle.cu_fuse.specs.Close.{fused, fused_loading_once, HasInputsFirst, HasMadeNames};
ghost use Rattle.cu_fuse.specs.Copies.{copies_joined, may_join};
ghost use Rattle.cu_fuse.specs.CopyRule.{MayJoin};
ghost use Rattle.cu_fuse.specs.Fused.{SettingView};
ghost use Rattle.cu_fuse.specs.Least.{common_multiple};
ghost use Rattle.cu_fuse.specs.LeastRule.{IsLeastCommon};

/// The tests of a joint copy say what its rule says; and the common multiple of two sizes is the
/// least one.
pub fn joining_law()
    ensures rule { (s : SettingView) (maker reader : Planned) (behind : List Planned) (a : ℕ)
        → (may_join s maker reader behind a ≡ true) ↔ MayJoin s maker reader behind a }
    ensures multiple { (s t : ℕ) → 0 < s → 0 < t → IsLeastCommon s t (common_multiple s t) }
{}

/// A sound plan of stored arrays, with the names of made arrays, is sound after its copies are
/// joined, has such names, and its arrays are stored; each of its operations needs at most what is
/// allowed, where each of the plan's does. Where the plan's inputs come first, they are its inputs
/// under the same numbers, and its result has the values of the plan's result over the same
/// environment. The result has the name and the layout that it had, and is made where it was.
pub fn copies_joined_law()
    ensures stored { (p : PlanView) → AllStored p.arrays → AllStored (copies_joined p).arrays }
    ensures sound { (p : PlanView) → Sound p → AllStored p.arrays → HasMadeNames p
        → p.allowed < 2 ^ 64 → Sound (copies_joined p) }
    ensures fewer { (p : PlanView) → length (copies_joined p).ops ≤ length p.ops }
    ensures needs { (p : PlanView) (k : ℕ) → ((j : ℕ) → j < length p.ops
        → (operation_at p.ops j).projected ≤ p.allowed)
        → k < length (copies_joined p).ops
        → (operation_at (copies_joined p).ops k).projected ≤ p.allowed }
    ensures inputs { (p : PlanView) (n a : ℕ) → Sound p → HasMadeNames p → HasInputsFirst p n
        → a < n
        → array_at (copies_joined p).arrays a ≡ array_at p.arrays a }
    ensures first { (p : PlanView) (n : ℕ) → Sound p → HasMadeNames p → HasInputsFirst p n
        → HasInputsFirst (copies_joined p) n }
    ensures value { (p : PlanView) (n : ℕ) (env : Elements) (idx : List ℕ) → Sound p
        → AllStored p.arrays → HasMadeNames p → p.allowed < 2 ^ 64 → HasInputsFirst p n
        → IsInside (grid_at p.arrays p.out).shape idx
        → plan_value (copies_joined p) env (copies_joined p).out idx ≡ plan_value p env p.out idx }
    ensures names { (p : PlanView) → Sound p → HasMadeNames p → HasOwnNames p.arrays
        → HasOwnNames (copies_joined p).arrays }
    ensures name { (p : PlanView) → Sound p → HasMadeNames p
        → (array_at (copies_joined p).arrays (copies_joined p).out).prefix
        ≡ (array_at p.arrays p.out).prefix }
    ensures layout { (p : PlanView) → Sound p → HasMadeNames p
        → (array_at (copies_joined p).arrays (copies_joined p).out).layout
        ≡ (array_at p.arrays p.out).layout }
    ensures output { (p : PlanView) → Sound p → HasMadeNames p → maker_at p.arrays p.out ≢ None
        → maker_at (copies_joined p).arrays (copies_joined p).out ≢ None }
    ensures made { (p : PlanView) (b : ℕ) → Sound p → HasMadeNames p
        → b < length (copies_joined p).arrays → maker_at (copies_joined p).arrays b ≢ None
        → ((array_at (copies_joined p).arrays b).prefix ≡ (array_at p.arrays p.out).prefix)
        ⊎ ((k : ℕ) × (k < 2 ^ 64)
        × ((array_at (copies_joined p).arrays b).prefix
        ≡ made_prefix_of (array_at p.arrays p.out).prefix k)) }
    ensures made_names { (p : PlanView) → Sound p → HasMadeNames p
        → HasMadeNames (copies_joined p) }
{}

/// The names of made arrays are kept by the merges of maps too, so that copies can be joined behind
/// them.
pub fn made_names_law()
    ensures fused { (p : PlanView) → Sound p → HasMadeNames p → p.allowed < 2 ^ 64
        → HasMadeNames (fused p) }
    ensures loading_once { (p : PlanView) → Sound p → HasMadeNames p → p.allowed < 2 ^ 64
        → HasMadeNames (fused_loading_once p) }
{}
