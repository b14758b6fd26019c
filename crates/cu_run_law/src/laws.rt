ghost use Rattle.cu_name.specs.Name.{IsArrayName};
ghost use Rattle.std.specs.Prelude.{◌≡◌, ◌≢◌, ◌+◌, ◌++◌, ◌∷◌, ◌<◌, ℕ, false, List, Contains, Some, None, length};
ghost use Rattle.cu_shape.specs.Index.{IsInside};
ghost use Rattle.cu_store.specs.Held.{Contents};
ghost use Rattle.cu_store.specs.Steps.{Shown, Steps};
ghost use Rattle.cu_op.specs.declared.cells.Cell.{Cell};
ghost use Rattle.cu_op.specs.Arrays.{array_at, grid_at, is_inlined, maker_at};
ghost use Rattle.cu_op.specs.Cells.{tasks_of, IsChunk};
ghost use Rattle.cu_op.specs.PlanView.{PlanView};
ghost use Rattle.cu_op.specs.Schedule.{op_of, cell_value, IsReady};
ghost use Rattle.cu_op.specs.Sound.{Sound};
ghost use Rattle.cu_op.specs.Elements.{Elements};
ghost use Rattle.cu_op.specs.Value.{plan_value, stored_inputs};
ghost use Rattle.cu_op.specs.Within.{fetched_chunks, with_inlined};
ghost use Rattle.cu_run_law.specs.Left.{IsQuiet, IsLeft, AgreeOnInputs, Begun, RunChange, AreDone};
ghost use Rattle.cu_run_law.specs.Names.{HasPlanNames};
ghost use Rattle.cu_zarr.specs.Key.{metadata_key_of};
ghost use Rattle.cu_run_law.specs.Pieces.{PlanRun, chunks_alone, Piece, Chunk, Text, IsPiece, piece_key, KeysApart, InputsApart, HoldsPiece, IsComplete};

use cu_op::range_law;

/// What a run finds: where no piece is held, and what is late carries the values of the pieces and changes no input, the store is
/// left so, with the elements of the inputs that are stored.
pub fn left_law()
    ensures { (r : PlanRun) (shown : Shown) (held : Contents) → Sound r.plan → KeysApart r → shown.held ≡ Some held
        → ((q : Piece) → IsPiece r q → held (piece_key r q) ≡ None) → IsQuiet r (stored_inputs r.plan.arrays held) held shown.late
        → IsLeft r (stored_inputs r.plan.arrays held) shown }
{
    range_law();
}

/// What a run keeps. A put of a value of a piece keeps the store left so, and each piece that is held; and such puts compose. Puts
/// under the keys of pieces whose bytes are the values where the store was left so at first are such puts where it was. All this
/// holds of the chunks alone, without the texts.
pub fn begun_law()
    ensures kept { (r : PlanRun) (env : Elements) (l m : ℕ) (old new : Shown) → IsLeft r env old → Begun r env l m old new → IsLeft r env new }
    ensures stays { (r : PlanRun) (env : Elements) (l m : ℕ) (old new : Shown) (q : Piece) → IsLeft r env old → Begun r env l m old new → IsPiece r q
        → HoldsPiece r env q old → HoldsPiece r env q new }
    ensures together { (r : PlanRun) (env : Elements) (l m n k : ℕ) (a b c : Shown) → Begun r env l m a b → Begun r env n k b c → Begun r env (l + n) (m + k) a c }
    ensures since { (r : PlanRun) (env : Elements) (l m : ℕ) (old new : Shown) → IsLeft r env old → Steps (RunChange r old) l m old new → Begun r env l m old new }
    ensures alone { (r : PlanRun) (env : Elements) (shown : Shown) → IsLeft r env shown → IsLeft (chunks_alone r.plan) env shown }
    ensures wider { (r : PlanRun) (first : Shown) (l m : ℕ) (old new : Shown) → Steps (RunChange (chunks_alone r.plan) first) l m old new
        → Steps (RunChange r first) l m old new }
{}

/// A task is ready where each made chunk among those that it fetches is held; so it is where the tasks of the operations before its own
/// are done.
pub fn task_law()
    ensures ready { (r : PlanRun) (env : Elements) (shown : Shown) (k task : ℕ) (left : IsLeft r env shown) → k < length r.plan.ops
        → task < tasks_of r.plan.arrays (op_of r.plan k)
        → ((c : Cell) → Contains (fetched_chunks r.plan k task) c → maker_at r.plan.arrays c.array ≢ None → HoldsPiece r env (Chunk c) shown)
        → IsReady r.plan k task env left.held }
    ensures after { (r : PlanRun) (env : Elements) (shown : Shown) (k task before : ℕ) (left : IsLeft r env shown) → k < length r.plan.ops
        → task < tasks_of r.plan.arrays (op_of r.plan k) → AreDone r env k before shown → IsReady r.plan k task env left.held }
{
    range_law();
}

/// Where the texts are held and all tasks are done each piece is held; and then the stored elements of a made array that is stored are its
/// values, and what is made of them where it is read is the values too. The array that a plan is made for is stored.
pub fn complete_law()
    ensures done { (r : PlanRun) (env : Elements) (shown : Shown) → Sound r.plan → ((n : ℕ) → n < length r.texts → HoldsPiece r env (Text n) shown)
        → AreDone r env (length r.plan.ops) 0 shown → IsComplete r env shown }
    ensures elements { (r : PlanRun) (env : Elements) (shown : Shown) (a : ℕ) (idx : List ℕ) (left : IsLeft r env shown) → IsComplete r env shown
        → a < length r.plan.arrays → maker_at r.plan.arrays a ≢ None → is_inlined r.plan.arrays a ≡ false → IsInside (grid_at r.plan.arrays a).shape idx
        → stored_inputs r.plan.arrays left.held a idx ≡ plan_value r.plan env a idx }
    ensures made { (r : PlanRun) (env : Elements) (shown : Shown) (a : ℕ) (idx : List ℕ) (left : IsLeft r env shown) → IsComplete r env shown
        → a < length r.plan.arrays → maker_at r.plan.arrays a ≢ None → IsInside (grid_at r.plan.arrays a).shape idx
        → with_inlined r.plan (stored_inputs r.plan.arrays left.held) a idx ≡ plan_value r.plan env a idx }
    ensures out { (p : PlanView) → Sound p → is_inlined p.arrays p.out ≡ false }
{
    range_law();
}

/// The keys of a plan with a name, of its record, its metadata and its chunks, are apart among themselves, and from the metadata and
/// the chunks of its inputs. The keys of the chunks of its inputs are apart too.
pub fn names_law()
    ensures apart { (r : PlanRun) (name recorded metadata : List ℕ) → Sound r.plan → HasPlanNames r name recorded metadata → KeysApart r }
    ensures inputs { (r : PlanRun) (name recorded metadata : List ℕ) → Sound r.plan → HasPlanNames r name recorded metadata → InputsApart r }
    ensures metadata { (r : PlanRun) (name recorded metadata : List ℕ) (q : Piece) (a : ℕ) → Sound r.plan → HasPlanNames r name recorded metadata → IsPiece r q
        → a < length r.plan.arrays → maker_at r.plan.arrays a ≡ None → piece_key r q ≢ metadata_key_of (array_at r.plan.arrays a).prefix }
    ensures others { (r : PlanRun) (name recorded metadata : List ℕ) (q : Piece) (other rest : List ℕ) → Sound r.plan → HasPlanNames r name recorded metadata → IsPiece r q
        → IsArrayName other → other ≢ name → piece_key r q ≢ other ++ 47 ∷ rest }
{}

/// The values of a plan are those that the elements inside its inputs make: where two environments agree there, each array has the same
/// values, and each chunk one value.
pub fn alike_law()
    ensures values { (p : PlanView) (env other : Elements) (a : ℕ) (idx : List ℕ) → Sound p → AgreeOnInputs p env other → a < length p.arrays
        → IsInside (grid_at p.arrays a).shape idx → plan_value p env a idx ≡ plan_value p other a idx }
    ensures chunks { (p : PlanView) (env other : Elements) (c : Cell) → Sound p → AgreeOnInputs p env other → IsChunk p.arrays c
        → cell_value p env c ≡ cell_value p other c }
{}
