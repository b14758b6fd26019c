//! Laws of plans: calls that do nothing and whose clauses are the laws.

ghost use Rattle.std.specs.Prelude.{◌≡◌, ◌↔◌, ◌<◌, ◌≤◌, ◌^◌, ◌∷◌, ◌++◌, [], ℕ, ℤ, true, false};
ghost use Rattle.std.specs.Prelude.{List, All, Contains, Option, Some, length};
ghost use Rattle.cu_num.specs.Dtype.{InRange};
ghost use Rattle.cu_num.specs.declared.types.Dtype.{Dtype};
ghost use Rattle.cu_shape.specs.Index.{IsInside, quotients};
ghost use Rattle.cu_grid.specs.Grid.{RegularGrid, IsGrid, IsCoordinate, IsInChunk};
ghost use Rattle.cu_op.specs.declared.kernel.Instr.{Instr};
ghost use Rattle.cu_op.specs.declared.layout.ArrayInfo.{ArrayInfo};
ghost use Rattle.cu_op.specs.declared.operation.Op.{Op};
ghost use Rattle.cu_op.specs.declared.operation.Planned.{Planned};
ghost use Rattle.cu_op.specs.declared.cells.Cell.{Cell};
ghost use Rattle.cu_op.specs.declared.walks.Walk.{Walk};
ghost use Rattle.cu_op.specs.Arrays.{grid_at, is_inlined, maker_at, type_at, AllStored};
ghost use Rattle.cu_op.specs.Chunks.{cell, IsOneChunk};
ghost use Rattle.cu_op.specs.Cells.{regions_of, tasks_of, IsChunk};
ghost use Rattle.cu_op.specs.InputCells.{input_cells, own_cells};
ghost use Rattle.cu_op.specs.Kernel.{kernel_value};
ghost use Rattle.cu_op.specs.KernelTypes.{KernelFits, LoadsTypes};
ghost use Rattle.cu_op.specs.Layout.{IsArray, layout_view};
ghost use Rattle.cu_op.specs.Names.{HasOwnNames};
ghost use Rattle.cu_op.specs.Needs.{IsOrdered};
ghost use Rattle.cu_op.specs.OneMap.{OneMap, AddsAlike, addition_of};
ghost use Rattle.cu_op.specs.Operation.{reads_of, target_of, IsReadable};
ghost use Rattle.cu_op.specs.Aligned.{IsAligned};
ghost use Rattle.cu_op.specs.PlanView.{PlanView};
ghost use Rattle.cu_op.specs.Projection.{own_projection, projection, instruction_count};
ghost use Rattle.cu_op.specs.Projection.{HasSmallRegions};
ghost use Rattle.cu_op.specs.Schedule.{op_of, task_at, MakesChunk, WritesCell, IsReady};
ghost use Rattle.cu_op.specs.Sound.{Sound, IsCell, ChunkKeysDiffer};
ghost use Rattle.cu_op.specs.Elements.{Elements};
ghost use Rattle.cu_op.specs.TaskView.{IsInnerRegion};
ghost use Rattle.cu_op.specs.Value.{rule, plan_value, stored_inputs, ReadsAt, HasTypes, Solves};
ghost use Rattle.cu_op.specs.Walks.{input_walks, walk_cells, written_chunks, read_chunks, EachOnce};
ghost use Rattle.cu_op.specs.Within.{fetched_chunks, listed_number, ops_within, with_inlined};
ghost use Rattle.cu_zarr.specs.Spelling.{spelled};

use cu_num::promotion_law;

/// The value of a sound plan solves its equations, and a rule depends on the elements that it reads alone.
pub fn value_law()
    ensures solves { (p : PlanView) (env : Elements) → Sound p → Solves p env (plan_value p env) }
    ensures reads { (op : Op) (arrays : List ArrayInfo) (at other : Elements) (array : ℕ) (idx : List ℕ)
        → ((a : ℕ) (i : List ℕ) → ReadsAt op arrays idx a i → at a i ≡ other a i) → rule op arrays at array idx ≡ rule op arrays other array idx }
{}

/// Each value of a sound plan at an index inside its array is a number of the array's type, where the inputs' are; what a store
/// holds of an input is, and what a kernel that fits gives.
pub fn range_law()
    ensures values { (p : PlanView) (env : Elements) (a : ℕ) (idx : List ℕ) (x : ℤ) → Sound p → HasTypes p.arrays env
        → a < length p.arrays → IsInside (grid_at p.arrays a).shape idx → plan_value p env a idx ≡ Some x → InRange (type_at p.arrays a) x }
    ensures stored { (arrays : List ArrayInfo) (held : List ℕ → Option (List ℕ)) → All IsArray arrays → HasTypes arrays (stored_inputs arrays held) }
    ensures kernel { (code : List Instr) (types : List Dtype) (t : Dtype) (load : ℕ → Option ℤ) (x : ℤ) → KernelFits code types [] t
        → LoadsTypes types load → kernel_value code load ≡ Some x → InRange t x }
{}

/// Each chunk of each stored made array of a sound plan is written by exactly one task, which is of
/// the operation that is the array's maker, and whose number is that of the region in which the
/// chunk begins. A task's lists name each chunk once.
pub fn task_law()
    ensures some { (p : PlanView) (a : ℕ) (coord : List ℕ) → Sound p → IsCell p.arrays a coord → (k : ℕ) × (task : ℕ) × WritesCell p k task a coord }
    ensures only { (p : PlanView) (k task l other a : ℕ) (coord : List ℕ) → Sound p → WritesCell p k task a coord → WritesCell p l other a coord
        → (k ≡ l) × (task ≡ other) }
    ensures cell { (p : PlanView) (k task a : ℕ) (coord : List ℕ) → Sound p → WritesCell p k task a coord → IsCell p.arrays a coord }
    ensures maker { (p : PlanView) (k task a : ℕ) (coord : List ℕ) → Sound p → WritesCell p k task a coord → maker_at p.arrays a ≡ Some k }
    ensures number { (p : PlanView) (k task a : ℕ) (coord : List ℕ) → Sound p → WritesCell p k task a coord
        → task ≡ task_at p.arrays (op_of p k) (cell a coord) }
    ensures at { (p : PlanView) (k a : ℕ) (coord : List ℕ) → Sound p → IsCell p.arrays a coord → maker_at p.arrays a ≡ Some k
        → WritesCell p k (task_at p.arrays (op_of p k) (cell a coord)) a coord }
    ensures outputs { (p : PlanView) (k task : ℕ) → Sound p → k < length p.ops
        → task < regions_of p.arrays (op_of p k)
        → EachOnce (written_chunks p.arrays (op_of p k) task) }
    ensures inputs { (p : PlanView) (k task : ℕ) → Sound p → k < length p.ops
        → task < regions_of p.arrays (op_of p k)
        → EachOnce (read_chunks p.arrays (op_of p k) task) }
{}

/// Each chunk of each made array, stored or made where it is read, is of exactly one region that
/// the tasks of its maker go over; the regions of an operation that has tasks of its own are
/// theirs.
pub fn region_law()
    ensures at { (p : PlanView) (k a : ℕ) (coord : List ℕ) → Sound p → a < length p.arrays
        → IsCoordinate (grid_at p.arrays a) coord → maker_at p.arrays a ≡ Some k
        → MakesChunk p k (task_at p.arrays (op_of p k) (cell a coord)) a coord }
    ensures only { (p : PlanView) (k region a : ℕ) (coord : List ℕ) → Sound p
        → MakesChunk p k region a coord
        → (maker_at p.arrays a ≡ Some k) × (region ≡ task_at p.arrays (op_of p k) (cell a coord)) }
    ensures task { (arrays : List ArrayInfo) (op : Op) (task : ℕ) → task < tasks_of arrays op
        → task < regions_of arrays op }
    ensures writes { (p : PlanView) (k task a : ℕ) (coord : List ℕ) → WritesCell p k task a coord
        → MakesChunk p k task a coord }
    ensures stored { (p : PlanView) (k region a : ℕ) (coord : List ℕ) → Sound p
        → MakesChunk p k region a coord → is_inlined p.arrays a ≡ false
        → WritesCell p k region a coord }
{}

/// The elements that an operation's rule reads for a region lie inside their arrays, in the chunks
/// that are read for it; and each of those is a chunk of an array that the operation reads.
pub fn input_law()
    ensures reads { (p : PlanView) (k task array a : ℕ) (coord idx i : List ℕ) → Sound p
        → MakesChunk p k task array coord → IsInChunk (grid_at p.arrays array) coord idx
        → ReadsAt (op_of p k) p.arrays idx a i
        → IsInside (grid_at p.arrays a).shape i
        × Contains (read_chunks p.arrays (op_of p k) task)
        (cell a (quotients i (grid_at p.arrays a).chunk)) }
    ensures arrays { (p : PlanView) (k task : ℕ) (c : Cell) → Sound p → k < length p.ops
        → task < regions_of p.arrays (op_of p k)
        → Contains (read_chunks p.arrays (op_of p k) task) c
        → Contains (reads_of (op_of p k)) c.array × IsChunk p.arrays c }
{}

/// A task fetches exactly its input cells, which are chunks of stored arrays that are given or made
/// before its operation.
pub fn input_cells_law()
    ensures cells { (p : PlanView) (k task : ℕ) (c : Cell) → Sound p → k < length p.ops
        → task < regions_of p.arrays (op_of p k)
        → (Contains (fetched_chunks p k task) c) ↔ (Contains (input_cells p k task) c) }
    ensures stored { (p : PlanView) (k task : ℕ) (c : Cell) → Sound p → k < length p.ops
        → task < regions_of p.arrays (op_of p k) → Contains (fetched_chunks p k task) c
        → IsChunk p.arrays c × (is_inlined p.arrays c.array ≡ false) }
    ensures before { (p : PlanView) (k task : ℕ) (c : Cell) → Sound p → k < length p.ops
        → task < regions_of p.arrays (op_of p k) → Contains (fetched_chunks p k task) c
        → IsReadable p.arrays k c.array }
    ensures own { (p : PlanView) (k task : ℕ) (c : Cell) → Sound p → k < length p.ops
        → task < regions_of p.arrays (op_of p k)
        → (Contains (read_chunks p.arrays (op_of p k) task) c)
        ↔ (Contains (own_cells p.arrays (op_of p k) task) c) }
{}

/// What is made where it is read is what the rule of its maker makes of the elements that are
/// stored. What a task reads so depends on the chunks that it fetches alone, and where these hold
/// their values the task is ready.
pub fn inlined_law()
    ensures stored { (p : PlanView) (at : Elements) (a : ℕ) (idx : List ℕ) → Sound p
        → is_inlined p.arrays a ≡ false → with_inlined p at a idx ≡ at a idx }
    ensures made { (p : PlanView) (at : Elements) (a k : ℕ) (idx : List ℕ) → Sound p
        → a < length p.arrays → is_inlined p.arrays a ≡ true → maker_at p.arrays a ≡ Some k
        → with_inlined p at a idx ≡ rule (op_of p k) p.arrays (with_inlined p at) a idx }
    ensures values { (p : PlanView) (env : Elements) (a : ℕ) (idx : List ℕ) → Sound p
        → with_inlined p (plan_value p env) a idx ≡ plan_value p env a idx }
    ensures alike { (p : PlanView) (k task array a : ℕ) (coord idx i : List ℕ) (at other : Elements)
        → Sound p → MakesChunk p k task array coord → IsInChunk (grid_at p.arrays array) coord idx
        → ReadsAt (op_of p k) p.arrays idx a i
        → ((c : Cell) (j : List ℕ) → Contains (fetched_chunks p k task) c
        → IsInChunk (grid_at p.arrays c.array) c.coord j → at c.array j ≡ other c.array j)
        → with_inlined p at a i ≡ with_inlined p other a i }
    ensures ready { (p : PlanView) (k task : ℕ) (env : Elements) (held : List ℕ → Option (List ℕ))
        → Sound p → k < length p.ops → task < regions_of p.arrays (op_of p k)
        → ((c : Cell) (j : List ℕ) → Contains (fetched_chunks p k task) c
        → IsInChunk (grid_at p.arrays c.array) c.coord j
        → stored_inputs p.arrays held c.array j ≡ plan_value p env c.array j)
        → IsReady p k task env held }
{}

/// What a task reads of an array that is made where it is read is one chunk of it, and what is
/// fetched to make that is fetched for the task.
pub fn inner_law()
    ensures chunk { (p : PlanView) (k task : ℕ) (w : Walk) → Sound p → k < length p.ops
        → task < regions_of p.arrays (op_of p k)
        → Contains (input_walks p.arrays (op_of p k) task) w → is_inlined p.arrays w.array ≡ true
        → IsOneChunk (grid_at p.arrays w.array) w.region }
    ensures fetched { (p : PlanView) (k task j region : ℕ) (w : Walk) (c : Cell) → Sound p
        → k < length p.ops → task < regions_of p.arrays (op_of p k)
        → Contains (input_walks p.arrays (op_of p k) task) w → is_inlined p.arrays w.array ≡ true
        → IsInnerRegion p w j region → Contains (fetched_chunks p j region) c
        → Contains (fetched_chunks p k task) c }
    ensures read { (p : PlanView) (k task : ℕ) (w : Walk) (c : Cell) → Sound p → k < length p.ops
        → task < regions_of p.arrays (op_of p k)
        → Contains (input_walks p.arrays (op_of p k) task) w → is_inlined p.arrays w.array ≡ false
        → Contains (walk_cells p.arrays w) c → Contains (fetched_chunks p k task) c }
{}

/// Where each array is stored, nothing stands inside the tasks of an operation.
pub fn all_stored_law()
    ensures elements { (p : PlanView) (at : Elements) → AllStored p.arrays
        → with_inlined p at ≡ at }
    ensures fetched { (p : PlanView) (k task : ℕ) → AllStored p.arrays
        → fetched_chunks p k task ≡ read_chunks p.arrays (op_of p k) task }
    ensures cells { (p : PlanView) (k task : ℕ) → AllStored p.arrays
        → input_cells p k task ≡ own_cells p.arrays (op_of p k) task }
    ensures within { (p : PlanView) (k : ℕ) → AllStored p.arrays → ops_within p k ≡ op_of p k ∷ [] }
    ensures room { (p : PlanView) (k : ℕ) → AllStored p.arrays
        → projection p k ≡ own_projection p.arrays p.reserved (op_of p k) }
    ensures tasks { (arrays : List ArrayInfo) (op : Op) → AllStored arrays
        → tasks_of arrays op ≡ regions_of arrays op }
    ensures listed { (p : PlanView) (k : ℕ) → AllStored p.arrays → listed_number p k ≡ k }
{}

/// A projection depends on the arrays, the operations and what is reserved alone. What stands inside
/// an operation needs no more than that operation, and in a sound plan each operation stands behind
/// those that make what it reads.
pub fn projection_law()
    ensures alike { (p q : PlanView) (k : ℕ) → p.arrays ≡ q.arrays
        → ((j : ℕ) → op_of p j ≡ op_of q j) → p.reserved ≡ q.reserved
        → projection p k ≡ projection q k }
    ensures inner { (p : PlanView) (j k a : ℕ) → Sound p → k < length p.ops
        → Contains (reads_of (op_of p k)) a → is_inlined p.arrays a ≡ true
        → maker_at p.arrays a ≡ Some j → projection p j ≤ projection p k }
    ensures ordered { (p : PlanView) → Sound p → IsOrdered p.arrays p.ops }
{}

/// A chunk that has a spelling has an element at each of its indices, and arrays that agree at these spell it alike.
pub fn chunk_law()
    ensures defined { (a : ArrayInfo) (f : List ℕ → Option ℤ) (coord idx bytes : List ℕ) → IsArray a → IsCoordinate a.layout.grid coord
        → spelled (layout_view a.layout) f coord ≡ Some bytes → IsInChunk a.layout.grid coord idx → (x : ℤ) × (f idx ≡ Some x) }
    ensures alike { (a : ArrayInfo) (f g : List ℕ → Option ℤ) (coord : List ℕ) → IsArray a → IsCoordinate a.layout.grid coord
        → ((idx : List ℕ) → IsInChunk a.layout.grid coord idx → f idx ≡ g idx) → spelled (layout_view a.layout) f coord ≡ spelled (layout_view a.layout) g coord }
{}

/// Where a task is ready, its operation's rule over what is held, and what is made of it, gives
/// each chunk that it makes its array's values.
pub fn ready_law()
    ensures { (p : PlanView) (k task array : ℕ) (env : Elements)
        (held : List ℕ → Option (List ℕ)) (coord idx : List ℕ) → Sound p
        → IsReady p k task env held → MakesChunk p k task array coord
        → IsInChunk (grid_at p.arrays array) coord idx
        → rule (op_of p k) p.arrays (with_inlined p (stored_inputs p.arrays held)) array idx
        ≡ plan_value p env array idx }
{}

/// The coordinates of the chunks of a sound plan are below 1,048,576. Where different stored made
/// arrays have different prefixes, and all the encoding "default" with "/", no key stands twice
/// among their chunks.
pub fn key_law()
    ensures small { (p : PlanView) (a : ℕ) (coord : List ℕ) → Sound p → a < length p.arrays → IsCoordinate (grid_at p.arrays a) coord
        → All (λ i. i < 1048576) coord }
    ensures differ { (arrays : List ArrayInfo) → All IsArray arrays → HasOwnNames arrays → ChunkKeysDiffer arrays }
{}

/// A plan of one map is sound where its parts fit, as those of the sum of two arrays of one grid and one integer type do;
/// and a projection fits 64 bits.
pub fn one_map_law()
    ensures sound { (inputs : List ArrayInfo) (made : ArrayInfo) (o : Planned) (allowed reserved : ℕ) → OneMap inputs made o.op
        → o.projected ≡ own_projection (inputs ++ made ∷ []) reserved o.op → o.projected < 2 ^ 64
        → Sound (record { arrays = inputs ++ made ∷ []; ops = o ∷ []; out = length inputs; allowed = allowed; reserved = reserved }) }
    ensures addition { (inputs : List ArrayInfo) (made : ArrayInfo) (g : RegularGrid) (t : Dtype) (i j : ℕ) → AddsAlike inputs made g t i j
        → OneMap inputs made (addition_of t i j (length inputs)) }
    ensures aligned { (g : RegularGrid) → IsGrid g → IsAligned g g }
    ensures room { (op : Op) (arrays : List ArrayInfo) (reserved : ℕ) → All IsArray arrays → All (λ a. a < length arrays) (reads_of op)
        → target_of op < length arrays → length (reads_of op) ≤ 8 → instruction_count op ≤ 32 → HasSmallRegions op → reserved ≤ 2 ^ 40
        → own_projection arrays reserved op < 2 ^ 64 }
{
    promotion_law();
}
