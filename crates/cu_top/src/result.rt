//! What a result means: calls that do nothing, and whose clauses are the laws.
ghost use Rattle.std.specs.Prelude.{◌≡◌, ℕ, Bool, List, Some};
ghost use Rattle.cu_lower.specs.declared.options.Options.{Options};
ghost use Rattle.cu_store.specs.Held.{Contents};
ghost use Rattle.cu_store.specs.Steps.{Shown};
ghost use Rattle.cu_command.specs.declared.job.Job.{Job};
ghost use Rattle.cu_command.specs.declared.status.Status.{Status};
ghost use Rattle.cu_command.specs.declared.status.Status.TheVariants.{Done};
ghost use Rattle.cu_work.specs.declared.part.Part.{Part};
ghost use Rattle.cu_top.specs.Answered.{BeginAnswered, CheckAnswered, DropAnswered};
ghost use Rattle.cu_top.specs.Answered.{PartAnswered, ResumeAnswered, RunAnswered};
ghost use Rattle.cu_top.specs.Kept.{AreInputsSettled, IsInputKeyOf, LeavesInputs};
ghost use Rattle.cu_top.specs.PlanOf.{IsPlanOf};
ghost use Rattle.cu_top.specs.Prepare.{HasPlan, job_plan};
ghost use Rattle.cu_top.specs.Result.{HoldsResult, StartsFrom};
ghost use Rattle.cu_top.specs.Run.{Scene};

use cu_meta::meta_law;
use cu_plan::merged_plan_law;
use cu_read::form_law;
use cu_run_law::names_law;
use cu_v2::v2_law;

/// Where no put is late when a command begins, the answer 0 of `run`, and of `resume`, says that at
/// the end the contents have what the text's expression means, over the elements that its inputs had
/// at the beginning. The answer 0 of `check` says that they had it at the beginning.
pub fn result_law()
    ensures run { (lack : Bool) (o : Options) (old new : Scene) (text : List ℕ)
        (entry now : Contents) → RunAnswered lack o old new Done
        → StartsFrom old.source.told old.depot text entry → new.depot.held ≡ Some now
        → HoldsResult text entry now }
    ensures resume { (lack : Bool) (o : Options) (old new : Scene) (text : List ℕ)
        (entry now : Contents) → ResumeAnswered lack o old new Done
        → StartsFrom old.source.told old.depot text entry → new.depot.held ≡ Some now
        → HoldsResult text entry now }
    ensures check { (retries : ℕ) (old new : Scene) (text : List ℕ) (entry : Contents)
        → CheckAnswered retries old new Done → StartsFrom old.source.told old.depot text entry
        → HoldsResult text entry entry }
{
    form_law();
    meta_law();
    v2_law();
}

/// No answer of `run`, `begin`, `part`, `resume` or `drop` changes what is held under a key of an input
/// of its text, late puts aside, nor leaves a new one late there; and so it is of several, one after
/// another. So where nothing was late under these keys when the first began, the answer 0 of a
/// `resume` behind them says what the text's expression means over the elements that its inputs had
/// then.
pub fn inputs_law()
    ensures runs { (lack : Bool) (o : Options) (old new : Scene) (text : List ℕ) (status : Status)
        → RunAnswered lack o old new status → old.source.told ≡ Some text
        → LeavesInputs text old.depot new.depot }
    ensures begins { (o : Options) (old new : Scene) (text : List ℕ) (status : Status)
        → BeginAnswered o old new status → old.source.told ≡ Some text
        → LeavesInputs text old.depot new.depot }
    ensures parts { (o : Options) (q : Part) (old new : Scene) (text : List ℕ) (status : Status)
        → PartAnswered o q old new status → old.source.told ≡ Some text
        → LeavesInputs text old.depot new.depot }
    ensures resumes { (lack : Bool) (o : Options) (old new : Scene) (text : List ℕ)
        (status : Status) → ResumeAnswered lack o old new status → old.source.told ≡ Some text
        → LeavesInputs text old.depot new.depot }
    ensures drops { (o : Options) (old new : Scene) (text : List ℕ) (status : Status)
        → DropAnswered o old new status → old.source.told ≡ Some text
        → LeavesInputs text old.depot new.depot }
    ensures together { (text : List ℕ) (a b c : Shown) → LeavesInputs text a b
        → LeavesInputs text b c → LeavesInputs text a c }
    ensures held { (text key : List ℕ) (a b : Shown) (entry now : Contents) → LeavesInputs text a b
        → AreInputsSettled text a → a.held ≡ Some entry → b.held ≡ Some now
        → IsInputKeyOf text key → now key ≡ entry key }
    ensures settled { (text : List ℕ) (a b : Shown) → LeavesInputs text a b
        → AreInputsSettled text a → AreInputsSettled text b }
    ensures resumed { (lack : Bool) (o : Options) (old new : Scene) (text : List ℕ) (first : Shown)
        (entry now : Contents) → LeavesInputs text first old.depot → AreInputsSettled text first
        → first.held ≡ Some entry → old.source.told ≡ Some text → new.depot.held ≡ Some now
        → ResumeAnswered lack o old new Done → HoldsResult text entry now }
{
    form_law();
    meta_law();
    v2_law();
    merged_plan_law();
    names_law();
}

/// The plan of a job is one of those on which a user may rely. So the name `job_plan` may stay
/// closed in all that is said of a command, but for what `plan` and `begin` print.
pub fn plan_of_law()
    ensures { (options : Options) (job : Job) → HasPlan options job
        → IsPlanOf options job (job_plan options job) }
{
    merged_plan_law();
}
