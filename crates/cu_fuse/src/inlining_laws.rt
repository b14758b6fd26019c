//! Laws of plans in which arrays are made where they are read.
ghost use Rattle.std.specs.Prelude.{◌≡◌, ◌≢◌, ◌⊎◌, ℕ, ◌^◌, ◌<◌, ◌≤◌, false, List, length, None};
ghost use Rattle.cu_fuse.specs.Close.{HasInputsFirst, HasMadeNames};
ghost use Rattle.cu_fuse.specs.Inlining.{IsInlinedOf};
ghost use Rattle.cu_name.specs.Keys.{made_prefix_of};
ghost use Rattle.cu_op.specs.Arrays.{array_at, is_inlined, maker_at, AllStored};
ghost use Rattle.cu_op.specs.Elements.{Elements};
ghost use Rattle.cu_op.specs.Names.{HasOwnNames};
ghost use Rattle.cu_op.specs.PlanView.{PlanView, op_of, operation_at};
ghost use Rattle.cu_op.specs.Sound.{Sound};
ghost use Rattle.cu_op.specs.Value.{plan_value};

/// There is one plan in which the arrays of a plan are inlined by the rule. It is sound where the
/// plan is and has the names of made arrays, and each of its operations needs at most what is
/// allowed, where each of the plan's does. Operations and arrays keep their numbers and, but for
/// their names, what they were; each array has the values that it had. The output stays stored,
/// and keeps its name. The other stored made arrays have made names that close up.
pub fn inlining_law()
    ensures sound { (p q : PlanView) → Sound p → HasMadeNames p → AllStored p.arrays
        → p.allowed < 2 ^ 64 → IsInlinedOf p q → Sound q }
    ensures needs { (p q : PlanView) (k : ℕ) → Sound p → AllStored p.arrays → ((j : ℕ)
        → j < length p.ops → (operation_at p.ops j).projected ≤ p.allowed)
        → IsInlinedOf p q → k < length q.ops → (operation_at q.ops k).projected ≤ p.allowed }
    ensures only { (p q r : PlanView) → IsInlinedOf p q → IsInlinedOf p r → q ≡ r }
    ensures counts { (p q : PlanView) → IsInlinedOf p q
        → (length q.arrays ≡ length p.arrays) × (length q.ops ≡ length p.ops) }
    ensures numbers { (p q : PlanView) → IsInlinedOf p q
        → (q.out ≡ p.out) × (q.allowed ≡ p.allowed) × (q.reserved ≡ p.reserved) }
    ensures ops { (p q : PlanView) (k : ℕ) → IsInlinedOf p q
        → (op_of q k ≡ op_of p k) × ((operation_at q.ops k).node ≡ (operation_at p.ops k).node) }
    ensures layout { (p q : PlanView) (a : ℕ) → IsInlinedOf p q
        → (array_at q.arrays a).layout ≡ (array_at p.arrays a).layout }
    ensures maker { (p q : PlanView) (a : ℕ) → IsInlinedOf p q
        → maker_at q.arrays a ≡ maker_at p.arrays a }
    ensures inputs { (p q : PlanView) (a : ℕ) → AllStored p.arrays → IsInlinedOf p q
        → maker_at p.arrays a ≡ None → array_at q.arrays a ≡ array_at p.arrays a }
    ensures first { (p q : PlanView) (n : ℕ) → IsInlinedOf p q → HasInputsFirst p n
        → HasInputsFirst q n }
    ensures output { (p q : PlanView) → Sound p → IsInlinedOf p q
        → (is_inlined q.arrays q.out ≡ false)
        × ((array_at q.arrays q.out).prefix ≡ (array_at p.arrays p.out).prefix) }
    ensures value { (p q : PlanView) (env : Elements) (a : ℕ) (idx : List ℕ) → IsInlinedOf p q
        → plan_value q env a idx ≡ plan_value p env a idx }
    ensures names { (p q : PlanView) → Sound p → AllStored p.arrays → IsInlinedOf p q
        → HasOwnNames p.arrays → HasOwnNames q.arrays }
    ensures made { (p q : PlanView) (a : ℕ) → Sound p → IsInlinedOf p q → a < length q.arrays
        → maker_at q.arrays a ≢ None → is_inlined q.arrays a ≡ false
        → ((array_at q.arrays a).prefix ≡ (array_at p.arrays p.out).prefix)
        ⊎ ((k : ℕ) × (k < 2 ^ 64)
        × ((array_at q.arrays a).prefix ≡ made_prefix_of (array_at p.arrays p.out).prefix k)) }
{}
