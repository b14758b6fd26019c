//! Laws of merged plans: calls that do nothing and whose clauses are the laws.

ghost use Rattle.std.specs.Prelude.{All, Contains, ◌≡◌, ◌≢◌, ◌<◌, ◌≤◌, ◌+◌, ◌++◌, [], ℕ, ℤ, List};
ghost use Rattle.std.specs.Prelude.{Option, Some, length, ◌⊎◌, None, ◌^◌, ◌↔◌, false, true};
ghost use Rattle.std.specs.List.{slice_get};
ghost use Rattle.cu_op.specs.Numbers.{stands_in};
ghost use Rattle.cu_op.specs.Operation.{renumbered, reads_of, writes_of, Fits};
ghost use Rattle.cu_op.specs.Arrays.{AllStored, HasLayoutOf, grid_at, array_at, maker_at};
ghost use Rattle.cu_fuse.specs.Close.{fused, fused_loading_once, HasMadeNames, HasInputsFirst};
ghost use Rattle.cu_fuse.specs.Fused.{SettingView, is_map, may_merge};
ghost use Rattle.cu_fuse.specs.Merge.{Around, apart_ops, joined_ops, Joins, IsMerged};
ghost use Rattle.cu_fuse.specs.Once.{distinct, loading_once, one_load};
ghost use Rattle.cu_fuse.specs.Rule.{MayMerge};
ghost use Rattle.cu_fuse.specs.Runs.{CanRun, AreMade};
ghost use Rattle.cu_fuse.specs.Splice.{spliced, put_in, input_behind};
ghost use Rattle.cu_name.specs.Keys.{made_prefix_of};
ghost use Rattle.cu_num.specs.declared.types.Dtype.{Dtype};
ghost use Rattle.cu_op.specs.Kernel.{kernel_value};
ghost use Rattle.cu_op.specs.KernelTypes.{KernelFits};
ghost use Rattle.cu_op.specs.Names.{HasOwnNames};
ghost use Rattle.cu_op.specs.PlanView.{PlanView, operation_at};
ghost use Rattle.cu_op.specs.Projection.{instruction_count, own_projection};
ghost use Rattle.cu_op.specs.Sound.{Sound};
ghost use Rattle.cu_op.specs.Elements.{Elements};
ghost use Rattle.cu_op.specs.Value.{rule, plan_value};
ghost use Rattle.cu_op.specs.declared.kernel.Instr.{Instr};
ghost use Rattle.cu_op.specs.declared.kernel.Instr.TheVariants.{Load};
ghost use Rattle.cu_op.specs.declared.layout.ArrayInfo.{ArrayInfo};
ghost use Rattle.cu_op.specs.declared.operation.Op.{Op};
ghost use Rattle.cu_op.specs.declared.operation.Planned.{Planned};
ghost use Rattle.cu_shape.specs.Index.{IsInside};

/// A kernel in which another stands in place of what it loads of input number `j` has the same
/// value, where that input's element is the other kernel's value; and it fits.
pub fn splice_law()
    ensures value { (outer inner : List Instr) (outer_types inner_types : List Dtype) (t m : Dtype)
        (j : ℕ) (load old : ℕ → Option ℤ) → KernelFits outer outer_types [] t
        → KernelFits inner inner_types [] m
        → ((k : ℕ) → k ≢ j → old k ≡ load (input_behind j (length inner_types) k))
        → old j ≡ kernel_value inner (λ k. load (j + k))
        → kernel_value (spliced j (length inner_types) inner outer) load ≡ kernel_value outer old }
    ensures fits { (outer inner : List Instr) (outer_types inner_types : List Dtype) (t m : Dtype)
        (j : ℕ) → KernelFits outer outer_types [] t → KernelFits inner inner_types [] m
        → slice_get outer_types j ≡ Some m
        → KernelFits (spliced j (length inner_types) inner outer) (put_in j inner_types outer_types)
        [] t }
{}

/// The tests of a merge say what its rule says.
pub fn rule_law()
    ensures { (s : SettingView) (maker reader : Planned) (behind : List Planned) (a : ℕ)
        → (may_merge s maker reader behind a ≡ true) ↔ MayMerge s maker reader behind a }
{}

/// One merge: where operations can run one after another, they can with a maker merged into its
/// reader; and elements that are what each operation makes of them are so afterwards.
pub fn merge_law()
    ensures runs { (arrays : List ArrayInfo) (reserved : ℕ) (front : List Planned) (r : Around)
        (both : Planned) (array j : ℕ) → Joins arrays r array j
        → IsMerged arrays reserved r.maker r.reader both j
        → CanRun arrays reserved [] (front ++ apart_ops r)
        → CanRun arrays reserved [] (front ++ joined_ops r both) }
    ensures made { (arrays : List ArrayInfo) (reserved : ℕ) (front : List Planned) (r : Around)
        (both : Planned) (array j : ℕ) (at : Elements) → Joins arrays r array j
        → IsMerged arrays reserved r.maker r.reader both j
        → CanRun arrays reserved [] (front ++ apart_ops r)
        → AreMade arrays at (front ++ apart_ops r)
        → AreMade arrays at (front ++ joined_ops r both) }
{}

/// An operation whose arrays have other numbers has the same rule over the same elements, and fits,
/// where each of its arrays keeps its layout and no two of them get one number.
pub fn closing_law()
    ensures rule { (f : ℕ → ℕ) (old new : List ArrayInfo) (numbers : List ℕ) (at other : Elements)
        (op : Op) (array : ℕ) (idx : List ℕ)
        → ((a : ℕ) → Contains numbers a → HasLayoutOf f old new a)
        → ((a b : ℕ) → Contains numbers a → Contains numbers b → f a ≡ f b → a ≡ b)
        → ((a : ℕ) → Contains numbers a → other (f a) ≡ at a) → All (Contains numbers) (reads_of op)
        → All (Contains numbers) (writes_of op) → Contains (writes_of op) array
        → rule (renumbered f op) new other (f array) idx ≡ rule op old at array idx }
    ensures fits { (f : ℕ → ℕ) (old new : List ArrayInfo) (numbers : List ℕ) (op : Op)
        → ((a : ℕ) → Contains numbers a → HasLayoutOf f old new a)
        → ((a b : ℕ) → Contains numbers a → Contains numbers b → f a ≡ f b → a ≡ b)
        → All (Contains numbers) (reads_of op) → All (Contains numbers) (writes_of op) → Fits old op
        → Fits new (renumbered f op) }
{}

/// An operation with one load of each array: a map has the same value at each index over the same
/// elements, fits, and reads the same arrays, each of them once. No two of its instructions load
/// one input, but for a load that ends the kernel. It has no more inputs and instructions, and
/// needs no more memory. No other operation changes.
pub fn one_load_law()
    ensures value { (arrays : List ArrayInfo) (op : Op) (at : Elements) (array : ℕ) (idx : List ℕ)
        → Fits arrays op → rule (one_load op) arrays at array idx ≡ rule op arrays at array idx }
    ensures fits { (arrays : List ArrayInfo) (op : Op) → Fits arrays op
        → Fits arrays (one_load op) }
    ensures writes { (op : Op) → writes_of (one_load op) ≡ writes_of op }
    ensures reads { (op : Op) (a : ℕ)
        → stands_in (reads_of (one_load op)) a ≡ stands_in (reads_of op) a }
    ensures inputs { (ins : List ℕ) (j k a : ℕ) → slice_get (distinct ins) j ≡ Some a
        → slice_get (distinct ins) k ≡ Some a → j ≡ k }
    ensures loads { (code : List Instr) (j k input : ℕ) → j < k → k + 1 < length (loading_once code)
        → slice_get (loading_once code) j ≡ Some (Load input)
        → slice_get (loading_once code) k ≡ Some (Load input) → ⊥ }
    ensures fewer { (op : Op) → (length (reads_of (one_load op)) ≤ length (reads_of op))
        × (instruction_count (one_load op) ≤ instruction_count op) }
    ensures needs { (arrays : List ArrayInfo) (reserved : ℕ) (op : Op)
        → own_projection arrays reserved (one_load op) ≤ own_projection arrays reserved op }
    ensures other { (op : Op) → is_map op ≡ false → one_load op ≡ op }
{}

/// A sound plan of stored arrays, with the names of made arrays, is sound after the merges of its
/// maps, and its arrays are stored; each of its operations needs at most what is allowed, where
/// each of the plan's does. Where the plan's inputs come first, they are its inputs under the same
/// numbers, and its result has the values of the plan's result over the same environment. The
/// result has the name and the layout that it had, and is made where it was.
pub fn fused_law()
    ensures stored { (p : PlanView) → AllStored p.arrays → AllStored (fused p).arrays }
    ensures sound { (p : PlanView) → Sound p → AllStored p.arrays → HasMadeNames p
        → p.allowed < 2 ^ 64 → Sound (fused p) }
    ensures fewer { (p : PlanView) → p.allowed < 2 ^ 64 → length (fused p).ops ≤ length p.ops }
    ensures needs { (p : PlanView) (k : ℕ) → p.allowed < 2 ^ 64
        → ((j : ℕ) → j < length p.ops → (operation_at p.ops j).projected ≤ p.allowed)
        → k < length (fused p).ops → (operation_at (fused p).ops k).projected ≤ p.allowed }
    ensures inputs { (p : PlanView) (n a : ℕ) → Sound p → HasMadeNames p → p.allowed < 2 ^ 64
        → HasInputsFirst p n → a < n → array_at (fused p).arrays a ≡ array_at p.arrays a }
    ensures first { (p : PlanView) (n : ℕ) → Sound p → HasMadeNames p → p.allowed < 2 ^ 64
        → HasInputsFirst p n → HasInputsFirst (fused p) n }
    ensures value { (p : PlanView) (n : ℕ) (env : Elements) (idx : List ℕ) → Sound p
        → AllStored p.arrays → HasMadeNames p → p.allowed < 2 ^ 64 → HasInputsFirst p n
        → IsInside (grid_at p.arrays p.out).shape idx
        → plan_value (fused p) env (fused p).out idx ≡ plan_value p env p.out idx }
    ensures names { (p : PlanView) → Sound p → HasMadeNames p → p.allowed < 2 ^ 64
        → HasOwnNames p.arrays → HasOwnNames (fused p).arrays }
    ensures name { (p : PlanView) → Sound p → HasMadeNames p → p.allowed < 2 ^ 64
        → (array_at (fused p).arrays (fused p).out).prefix ≡ (array_at p.arrays p.out).prefix }
    ensures layout { (p : PlanView) → Sound p → HasMadeNames p → p.allowed < 2 ^ 64
        → (array_at (fused p).arrays (fused p).out).layout ≡ (array_at p.arrays p.out).layout }
    ensures output { (p : PlanView) → Sound p → HasMadeNames p → p.allowed < 2 ^ 64
        → maker_at p.arrays p.out ≢ None → maker_at (fused p).arrays (fused p).out ≢ None }
    ensures made { (p : PlanView) (b : ℕ) → Sound p → HasMadeNames p → p.allowed < 2 ^ 64
        → b < length (fused p).arrays → maker_at (fused p).arrays b ≢ None
        → ((array_at (fused p).arrays b).prefix ≡ (array_at p.arrays p.out).prefix)
        ⊎ ((k : ℕ) × (k < 2 ^ 64)
        × ((array_at (fused p).arrays b).prefix
        ≡ made_prefix_of (array_at p.arrays p.out).prefix k)) }
{}

/// The same holds of the plan in which each map loads an array once.
pub fn fused_loading_once_law()
    ensures stored { (p : PlanView) → AllStored p.arrays → AllStored (fused_loading_once p).arrays }
    ensures sound { (p : PlanView) → Sound p → AllStored p.arrays → HasMadeNames p
        → p.allowed < 2 ^ 64 → Sound (fused_loading_once p) }
    ensures fewer { (p : PlanView) → p.allowed < 2 ^ 64
        → length (fused_loading_once p).ops ≤ length p.ops }
    ensures needs { (p : PlanView) (k : ℕ) → Sound p → AllStored p.arrays → p.allowed < 2 ^ 64
        → ((j : ℕ) → j < length p.ops → (operation_at p.ops j).projected ≤ p.allowed)
        → k < length (fused_loading_once p).ops
        → (operation_at (fused_loading_once p).ops k).projected ≤ p.allowed }
    ensures inputs { (p : PlanView) (n a : ℕ) → Sound p → HasMadeNames p → p.allowed < 2 ^ 64
        → HasInputsFirst p n → a < n
        → array_at (fused_loading_once p).arrays a ≡ array_at p.arrays a }
    ensures first { (p : PlanView) (n : ℕ) → Sound p → HasMadeNames p → p.allowed < 2 ^ 64
        → HasInputsFirst p n → HasInputsFirst (fused_loading_once p) n }
    ensures value { (p : PlanView) (n : ℕ) (env : Elements) (idx : List ℕ) → Sound p
        → AllStored p.arrays → HasMadeNames p → p.allowed < 2 ^ 64 → HasInputsFirst p n
        → IsInside (grid_at p.arrays p.out).shape idx
        → plan_value (fused_loading_once p) env (fused_loading_once p).out idx
        ≡ plan_value p env p.out idx }
    ensures names { (p : PlanView) → Sound p → HasMadeNames p → p.allowed < 2 ^ 64
        → HasOwnNames p.arrays → HasOwnNames (fused_loading_once p).arrays }
    ensures name { (p : PlanView) → Sound p → HasMadeNames p → p.allowed < 2 ^ 64
        → (array_at (fused_loading_once p).arrays (fused_loading_once p).out).prefix
        ≡ (array_at p.arrays p.out).prefix }
    ensures layout { (p : PlanView) → Sound p → HasMadeNames p → p.allowed < 2 ^ 64
        → (array_at (fused_loading_once p).arrays (fused_loading_once p).out).layout
        ≡ (array_at p.arrays p.out).layout }
    ensures output { (p : PlanView) → Sound p → HasMadeNames p → p.allowed < 2 ^ 64
        → maker_at p.arrays p.out ≢ None
        → maker_at (fused_loading_once p).arrays (fused_loading_once p).out ≢ None }
    ensures made { (p : PlanView) (b : ℕ) → Sound p → HasMadeNames p → p.allowed < 2 ^ 64
        → b < length (fused_loading_once p).arrays → maker_at (fused_loading_once p).arrays b ≢ None
        → ((array_at (fused_loading_once p).arrays b).prefix ≡ (array_at p.arrays p.out).prefix)
        ⊎ ((k : ℕ) × (k < 2 ^ 64)
        × ((array_at (fused_loading_once p).arrays b).prefix
        ≡ made_prefix_of (array_at p.arrays p.out).prefix k)) }
{}
