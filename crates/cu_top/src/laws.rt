//! Laws of the commands: calls that do nothing and whose clauses are the laws.
ghost use Rattle.std.specs.Prelude.{◌≡◌, ◌≢◌, ◌<◌, ◌∷◌, [], ℕ, Bool, true, List, All, Some, Ok, codes, length};
ghost use Rattle.cu_store.specs.Steps.{Shown};
ghost use Rattle.cu_op.specs.Arrays.{is_inlined};
ghost use Rattle.cu_op.specs.Elements.{Elements};
ghost use Rattle.cu_op.specs.PlanView.{PlanView};
ghost use Rattle.cu_op.specs.Within.{is_listed, listed_number};
ghost use Rattle.cu_run_law.specs.Left.{IsLeft};
ghost use Rattle.cu_run_law.specs.Pieces.{PlanRun};
ghost use Rattle.cu_work.specs.Commands.{AreCommands, IsCommand};
ghost use Rattle.cu_command.specs.Job.{IsJob};
ghost use Rattle.cu_command.specs.declared.job.Job.{Job};
ghost use Rattle.cu_command.specs.declared.status.Status.{Status};
ghost use Rattle.cu_lower.specs.declared.options.Options.{Options};
ghost use Rattle.cu_region.specs.Steady.{IsSteady};
ghost use Rattle.cu_check.specs.Arrays.{IsReadChunk};
ghost use Rattle.cu_load.specs.Load.{IsArrayCalm};
ghost use Rattle.cu_print.specs.Print.{IsArrayMetadata, IsChunkAt};
ghost use Rattle.cu_work.specs.declared.part.Part.{Part};
ghost use Rattle.cu_top.specs.Begin.{WasBegun};
ghost use Rattle.cu_top.specs.Complete.{HasPartReady, HasWholeInputs, IsBeginnable, IsPlannable, IsResumable, IsServable};
ghost use Rattle.cu_top.specs.Demo.{IsDemoAtRest, IsDemoCalm};
ghost use Rattle.cu_top.specs.Drop.{Dropped};
ghost use Rattle.cu_top.specs.Held.{TextsDifferAt};
ghost use Rattle.cu_top.specs.Laws.{IsOfPlan};
ghost use Rattle.cu_top.specs.Parts.{WasParted, inner_number};
ghost use Rattle.cu_top.specs.Prepare.{job_plan};
ghost use Rattle.cu_top.specs.Record.{before_version, record_text, record_version};
ghost use Rattle.cu_top.specs.Resume.{WasResumed};
ghost use Rattle.cu_top.specs.Run.{RunCase, IsSpared, Ran};
ghost use Rattle.cu_top.specs.Sample.{demo_options, empty_held, empty_shown, left_held, left_shown};
ghost use Rattle.cu_top.specs.Sample.{fused_options, fused_run, fused_text};
ghost use Rattle.cu_top.specs.Sample.{sample_array, sample_begin, sample_part, sample_resume, sample_tasks};
ghost use Rattle.cu_top.specs.Sample.{sample_held, sample_input, sample_late, sample_layout, sample_options, sample_plan, sample_run, sample_shown, sample_text};
ghost use Rattle.cu_top.specs.Words.{command_of, begin, part, plan, resume, run};

use cu_plan::merged_plan_law;
use cu_run_law::left_law;
use cu_work::commands_law;

/// Whatever `run`, `begin`, `part`, `resume` and `drop` answer, each is a command of the plan of the
/// text's job, or it has changed nothing, which is a command of any plan. So after any list of them,
/// wherever each ended and whenever late puts land, the contents are what the plan left, if they were
/// so at first.
pub fn list_law()
    ensures runs { (lack : Bool) (c : RunCase) (status : Status) → Ran lack c status → IsOfPlan c }
    ensures begins { (c : RunCase) (status : Status) → WasBegun c status → IsOfPlan c }
    ensures parts { (c : RunCase) (q : Part) (status : Status) → WasParted c q status → IsOfPlan c }
    ensures resumes { (lack : Bool) (c : RunCase) (status : Status) → WasResumed lack c status → IsOfPlan c }
    ensures drops { (c : RunCase) (status : Status) → Dropped c status → IsOfPlan c }
    ensures spares { (r : PlanRun) (c : RunCase) → IsSpared c → IsCommand r c.old.depot c.new.depot }
    ensures all { (r : PlanRun) (env : Elements) (old : Shown) (moments : List Shown) → IsLeft r env old
        → AreCommands r old moments → All (IsLeft r env) moments }
{
    commands_law();
}

/// An operation whose result is stored is called by its number among those operations. That number leads
/// to it, and each number that leads to an operation is the number of one whose result is stored.
pub fn numbers_law()
    ensures inner { (p : PlanView) (k : ℕ) → k < length p.ops → is_listed p k ≡ true
        → inner_number p (listed_number p k) ≡ k }
    ensures listed { (p : PlanView) (op : ℕ) → inner_number p op < length p.ops
        → (listed_number p (inner_number p op) ≡ op) × (is_listed p (inner_number p op) ≡ true) }
{}

/// Two records, of plans whose tasks may need the same memory, differ first at the byte of their
/// version, where they have different ones. Texts differ first at one byte alone. So `part`, `resume`
/// and `drop` refuse a record of the other version at this byte, whatever it is the record of.
pub fn record_law()
    ensures version { (o other : Options) (a b : Job) → o.allowed ≡ other.allowed
        → record_version o ≢ record_version other
        → TextsDifferAt (record_text o a) (record_text other b) (length (before_version o)) }
    ensures once { (a b : List ℕ) (place other : ℕ) → TextsDifferAt a b place → TextsDifferAt a b other
        → place ≡ other }
{}

/// The premises of the commands are met by a small store, which holds the metadata and one chunk of an array, and where a put of this
/// chunk is late: `run` is served there, and so are `plan` and, where the record is held too, `resume`; what is late carries what `load`
/// stores; and what `print` and `check` say of keys that no late put changes holds. So is `begin` where `run` is, and `part`, of the
/// first task of the plan, where `resume` is. With `--fusion 2` a run is served whose plan makes an array where it is read. A
/// demonstration is served over an empty store.
pub fn premises_law()
    ensures run_words { command_of sample_run ≡ Ok (run sample_options) }
    ensures run { IsServable sample_options sample_text sample_held sample_shown }
    ensures fused_words { command_of fused_run ≡ Ok (run fused_options) }
    ensures fused { IsServable fused_options fused_text sample_held sample_shown }
    ensures fused_inlined { (job : Job) → IsJob sample_shown fused_text job → is_inlined (job_plan fused_options job).arrays 1 ≡ true }
    ensures begin_words { command_of sample_begin ≡ Ok (begin sample_options) }
    ensures begin { IsBeginnable sample_options sample_text sample_held sample_shown }
    ensures plan_words { command_of sample_plan ≡ Ok (plan sample_options) }
    ensures plan { IsPlannable sample_options sample_text sample_shown }
    ensures resume_words { command_of sample_resume ≡ Ok (resume sample_options) }
    ensures resume { IsResumable sample_options sample_text left_held left_shown }
    ensures resume_whole { HasWholeInputs sample_options sample_text left_held left_shown }
    ensures part_words { command_of sample_part ≡ Ok (part sample_options sample_tasks) }
    ensures part_ready { HasPartReady sample_options sample_tasks sample_text left_held left_shown }
    ensures load { IsArrayCalm sample_array sample_late }
    ensures demo { IsDemoAtRest demo_options 2 empty_held empty_shown }
    ensures demo_quiet { IsDemoCalm demo_options 2 empty_shown }
    ensures print_metadata { IsSteady (IsArrayMetadata (codes "x")) (Some sample_held) sample_late }
    ensures print_chunks { (place : ℕ) → IsSteady (IsChunkAt (codes "x") sample_layout place) (Some sample_held) sample_late }
    ensures check { IsSteady (IsReadChunk (sample_input ∷ [])) (Some sample_held) sample_late }
{
    merged_plan_law();
    left_law();
}
