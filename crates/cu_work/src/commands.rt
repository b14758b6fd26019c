//! Laws of the commands of one plan, in any order, and of a run that goes on: calls that do nothing and whose clauses are the laws.
ghost use Rattle.std.specs.Prelude.{◌≡◌, ◌↔◌, ℕ, Bool, IsTrue, List, All, Contains, Some};
ghost use Rattle.cu_store.specs.Held.{Contents};
ghost use Rattle.cu_store.specs.Share.{Lent, IsShared};
ghost use Rattle.cu_store.specs.Steps.{Shown, Steps};
ghost use Rattle.cu_store.specs.Yard.{Served, Known, is_made};
ghost use Rattle.cu_history.specs.declared.entry.Entry.{Entry};
ghost use Rattle.cu_history.specs.History.{is_start, count_of_task};
ghost use Rattle.cu_op.specs.declared.cells.Cell.{Cell};
ghost use Rattle.cu_op.specs.PlanView.{PlanView};
ghost use Rattle.cu_op.specs.Schedule.{key_of};
ghost use Rattle.cu_op.specs.Sound.{Sound, IsCell};
ghost use Rattle.cu_op.specs.Elements.{Elements};
ghost use Rattle.cu_run_law.specs.Left.{IsLeft, RunChange};
ghost use Rattle.cu_run_law.specs.Pieces.{PlanRun, Piece, IsPiece, piece_key, HoldsTask};
ghost use Rattle.cu_table.specs.Machine.{Machine, IsDone, opening};
ghost use Rattle.cu_table.specs.Numbers.{IsTask};
ghost use Rattle.cu_table.specs.Step.{Settings, Replays};
ghost use Rattle.cu_work.specs.declared.run.Texts.{Texts};
ghost use Rattle.cu_work.specs.Alone.{HasSeenDone};
ghost use Rattle.cu_work.specs.Commands.{CommandChange, AreCommands};
ghost use Rattle.cu_work.specs.Part.{IsPartOf, PartPut};
ghost use Rattle.cu_work.specs.declared.part.Part.{Part};
ghost use Rattle.cu_work.specs.Removal.{RemovalIn, removed_keys};
ghost use Rattle.cu_work.specs.Run.{run_of};
ghost use Rattle.cu_work.specs.Search.{NamesTask, NamesStored};
ghost use Rattle.cu_work.specs.World.{IsFound, IsStored};

use cu_table::done_law;

/// What commands of one plan keep. A store that is left so, each piece absent or with its value, is left so after any list of runs,
/// of runs that are begun, of parts, of runs that go on and of removals, wherever each of them ended. (What `store_texts` puts, which
/// begins a run, is put for the run.) The keys that `remove_plan` removes are those of the pieces.
pub fn commands_law()
    ensures kept { (r : PlanRun) (env : Elements) (least most : ℕ) (old new : Shown) → IsLeft r env old → Steps (CommandChange r old) least most old new → IsLeft r env new }
    ensures all { (r : PlanRun) (env : Elements) (old : Shown) (moments : List Shown) → IsLeft r env old → AreCommands r old moments → All (IsLeft r env) moments }
    ensures runs { (r : PlanRun) (least most : ℕ) (old new : Shown) → Steps (RunChange r old) least most old new → Steps (CommandChange r old) least most old new }
    ensures parts { (p : PlanView) (t : Texts) (q : Part) (least most : ℕ) (old new : Shown) → Sound p → IsPartOf p q → Steps (PartPut p q old) least most old new
        → Steps (CommandChange (run_of p t) old) least most old new }
    ensures drops { (p : PlanView) (t : Texts) (least most : ℕ) (old new : Shown) → Sound p → Steps (RemovalIn (removed_keys p t.record_key t.metadata_key)) least most old new
        → Steps (CommandChange (run_of p t) old) least most old new }
    ensures keys { (p : PlanView) (t : Texts) (q : Piece) → Sound p → IsPiece (run_of p t) q → Contains (removed_keys p t.record_key t.metadata_key) (piece_key (run_of p t) q) }
{}

/// What a run that goes on rests on. Where the tasks were found whose chunks are all held, they still are after puts of a run; where the
/// store is left so, each of these chunks holds its value; a table that is opened with the list has just these tasks done; and a pass of
/// a yard in which the chunks are shared has seen them. No task whose chunks were all held is started.
pub fn resume_law()
    ensures stays { (p : PlanView) (r : PlanRun) (first old new : Shown) (least most : ℕ) (held now : Contents) (done : List Bool) → Steps (RunChange r first) least most old new
        → old.held ≡ Some held → new.held ≡ Some now → IsFound p held done → IsFound p now done }
    ensures done { (r : PlanRun) (env : Elements) (shown : Shown) (held : Contents) (done : List Bool) (op task : ℕ) → IsLeft r env shown → shown.held ≡ Some held
        → IsFound r.plan held done → IsTask r.plan op task → NamesTask r.plan done op task → HoldsTask r env op task shown }
    ensures opened { (p : PlanView) (done : List Bool) (op task : ℕ) → (IsDone p (opening done) op task) ↔ (NamesTask p done op task) }
    ensures seen { (p : PlanView) (l : Lent) (wants : Bool) (shown : Shown) (yard : Served) (pass : Known) (done : List Bool) → Sound p → IsShared l wants shown yard pass
        → ((c : Cell) → IsCell p.arrays c.array c.coord → IsTrue (is_made l.specs (key_of p.arrays c)))
        → ((held : Contents) → shown.held ≡ Some held → IsFound p held done) → HasSeenDone p (opening done) pass.seen }
    ensures unstarted { (s : Settings) (done : List Bool) (history : List Entry) (m : Machine) (held : Contents) (op task : ℕ) → Replays s done history m → NamesStored s.plan held done
        → IsTask s.plan op task → IsStored s.plan held op task → count_of_task is_start op task history ≡ 0 }
{
    done_law();
}
