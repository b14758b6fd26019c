//! What is checked before anything is stored: the text, the inputs' metadata, the types, the plan, and the keys in the way.
ghost use Rattle.std.specs.Prelude.{◌≡◌, ◌+◌, Bool, IfErr, IfOk, length};
ghost use Rattle.cu_op.specs.Sound.{Sound};
ghost use Rattle.cu_store.specs.Steps.{NoChange, OnceEach};
ghost use Rattle.cu_command.specs.Job.{IsJob};
ghost use Rattle.cu_command.specs.Seen.{Stepped, Stream, WithinCalls};
ghost use Rattle.cu_top.specs.Begin.{BeginWithin, WasBegun};
ghost use Rattle.cu_top.specs.Calls.{RunWithin, run_limits};
ghost use Rattle.cu_top.specs.Planned.{IsPlanRefused, plan_calls};
ghost use Rattle.cu_top.specs.Prepare.{asked_keys, job_plan, unplanned_status, HasPlan};
ghost use Rattle.cu_top.specs.Run.{scene, case, Ran, IsCleared};
ghost use Rattle.cu_top.specs.Words.{IsInRange};

use crate::ask::{answer_of, ask_plan};
use cu_command::{Job, Status, read_job};
use cu_lower::Options;
use cu_op::Plan;
use cu_plan::{PlanFault, plan};
use cu_store::PutStore;
use std::alloc::Global;

/// A job that has a plan, and its plan.
pub struct Prepared {
    pub job: Job,
    pub plan: Plan,
}

// By hand, so that a function that owns one has one call in place of the drops of all that is in it.
impl Drop for Prepared {
    fn drop(self) {
        let Prepared { job: _, plan: _ } = self;
    }
}

impl Prepared {
    /// The job and the plan.
    pub fn parts(self) -> (Job, Plan)
        ensures { result ≡ (self.job, self.plan) }
    {
        let Prepared { job, plan } = self;
        (job, plan)
    }
}

/// What a command answers where the plan was refused.
pub fn unplanned_status(fault: PlanFault) -> Status
    ensures { result ≡ unplanned_status fault }
{
    match fault {
        PlanFault::OverMemory {
            node,
            need,
            allowed,
        } => Status::OverMemory {
            node,
            need,
            allowed,
        },
        PlanFault::OverLimit { which, count } => Status::OverLimit { which, count },
        PlanFault::NoMemory => Status::NoMemory,
    }
}

/// Makes the plan of a text's expression: the text, the inputs' metadata, the types and the plan are refused in this order.
pub fn plan_job<D: PutStore>(
    alloc: Global,
    options: &Options,
    text: &[u8],
    depot: &mut D,
) -> Result<Prepared, Status>
    requires options { IsInRange options.now }
    ensures job { IfOk result (λ p. IsJob (D.shown depot.old) text.now p.job) }
    ensures planned { IfOk result (λ p. HasPlan options.now p.job) }
    ensures plan { IfOk result (λ p. p.plan ≡ job_plan options.now p.job) }
    ensures sound { IfOk result (λ p. Sound p.plan) }
    ensures step { Stepped NoChange (D.shown depot.old) (D.shown depot.new) }
    ensures refused { (source next sink after : Stream)
        → IfErr result (IsPlanRefused (case options.now text.now (scene source sink (D.shown depot.old)) (scene next after (D.shown depot.new)))) }
    ensures calls { WithinCalls (plan_calls (options.now.retries + 1) text.now) (D.shown depot.old) (D.shown depot.new) }
    ensures once { OnceEach (plan_calls 1 text.now) (D.shown depot.old) (D.shown depot.new) }
{
    let job = match read_job(alloc, depot, text, options.retries) {
        Ok(job) => job,
        Err(fault) => return Err(Status::from(fault)),
    };
    match plan(alloc, &job.expr, &job.types, &job.inputs, options) {
        Ok(plan) => Ok(Prepared { job, plan }),
        Err(fault) => Err(unplanned_status(fault)),
    }
}

/// Checks what can be refused before anything is stored: the text, the inputs' metadata and the types, then the plan, and then the keys
/// in the way, in this order.
pub fn prepare<D: PutStore>(
    alloc: Global,
    options: &Options,
    text: &[u8],
    depot: &mut D,
) -> Result<Prepared, Status>
    requires options { IsInRange options.now }
    ensures cleared { IfOk result (λ p. IsCleared options.now text.now (D.shown depot.old) (D.shown depot.new) p.job) }
    ensures plan { IfOk result (λ p. p.plan ≡ job_plan options.now p.job) }
    ensures sound { IfOk result (λ p. Sound p.plan) }
    ensures refused { (source next sink after : Stream) (lack : Bool)
        → IfErr result (Ran lack (case options.now text.now (scene source sink (D.shown depot.old)) (scene next after (D.shown depot.new)))) }
    ensures calls { IfOk result (λ p. WithinCalls (run_limits options.now text.now p.job).asked (D.shown depot.old) (D.shown depot.new)) }
    ensures once { IfOk result (λ p. OnceEach (plan_calls 1 text.now + length (asked_keys options.now p.job)) (D.shown depot.old) (D.shown depot.new)) }
    ensures refused_calls { (source next sink after : Stream)
        → IfErr result (RunWithin (case options.now text.now (scene source sink (D.shown depot.old)) (scene next after (D.shown depot.new)))) }
    // a run that is only begun is refused so too
    ensures unbegun { (source next sink after : Stream)
        → IfErr result (WasBegun (case options.now text.now (scene source sink (D.shown depot.old)) (scene next after (D.shown depot.new)))) }
    ensures unbegun_calls { (source next sink after : Stream)
        → IfErr result (BeginWithin (case options.now text.now (scene source sink (D.shown depot.old)) (scene next after (D.shown depot.new)))) }
{
    let prepared = match plan_job(alloc, options, text, depot) {
        Ok(prepared) => prepared,
        Err(status) => return Err(status),
    };
    match ask_plan(depot, &prepared.job, &prepared.plan, options.retries) {
        Ok(()) => Ok(prepared),
        Err(fault) => Err(answer_of(fault)),
    }
}
