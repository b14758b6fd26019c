//! A law of inputs of either version: a call that does nothing, and whose clauses are the law.
ghost use Rattle.std.specs.Prelude.{◌≡◌, ℕ, List};
ghost use Rattle.cu_expr.specs.declared.inputs.InputInfo.{InputInfo};
ghost use Rattle.cu_lower.specs.declared.options.Options.{Options};
ghost use Rattle.cu_store.specs.Held.{Contents};
ghost use Rattle.cu_store.specs.Steps.{Shown};
ghost use Rattle.cu_command.specs.Job.{IsJob};
ghost use Rattle.cu_command.specs.declared.job.Job.{Job};
ghost use Rattle.cu_top.specs.Quiet.{run_of_job};
ghost use Rattle.cu_top.specs.Versions.{StoresInputs, HoldSameChunks};
ghost use Rattle.cu_check.specs.Elements.{elements_of};

/// Where two depots have metadata of the same layouts for the names of a text, be it of version 3 or of version 2, a job of the text over
/// one and a job over the other have the same plan, record and metadata. Where the same chunks are held, their inputs have the same
/// elements, and so the same output.
pub fn versions_law()
    ensures run { (options : Options) (text : List ℕ) (a b : Shown) (inputs : List InputInfo) (one other : Job) → StoresInputs a text inputs → StoresInputs b text inputs
        → IsJob a text one → IsJob b text other → run_of_job options one ≡ run_of_job options other }
    ensures elements { (text : List ℕ) (a b : Shown) (inputs : List InputInfo) (one other : Job) → StoresInputs a text inputs → StoresInputs b text inputs
        → IsJob a text one → IsJob b text other → (held now : Contents) → HoldSameChunks one held now
        → (k : ℕ) (idx : List ℕ) → elements_of one held k idx ≡ elements_of other now k idx }
{}
