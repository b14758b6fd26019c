//! The tasks of a plan by their numbers.
ghost use Rattle.std.specs.Prelude.{◌≡◌, ◌<◌, ◌≤◌, ◌+◌, ◌++◌, IfOk};
ghost use Rattle.cu_op.specs.PlanView.{PlanView};
ghost use Rattle.cu_op.specs.Sound.{Sound};
ghost use Rattle.cu_table.specs.Numbers.{IsTask, task_count, task_number};
ghost use Rattle.cu_table.specs.Queue.{task_ids};

use crate::state::TaskId;
use cu_op::{Plan, tasks};
use cu_store::NoMemory;
use std::alloc::Global;
use std::marker::Model;

/// A plan whose tasks are numbered, those of operation 0 first. Contracts see the plan.
#[derive(Drop)]
pub(crate) struct Tasks {
    plan: Plan,
    first: Vec<usize>,
    ids: Vec<TaskId>,
}

impl Model for Tasks {
    ghost use Rattle.cu_op.specs.PlanView.{PlanView};
    ghost use Rattle.cu_table.specs.Queue.{HasNumbers};

    ghost Value = { PlanView };

    ghost view = { λ t. t.plan };

    ghost invariant = { λ t. HasNumbers t.plan t.first.items t.ids.items };
}

/// Appends the tasks of an operation.
fn push_tasks(ids: &mut Vec<TaskId>, op: u32, count: u32) -> Result<(), NoMemory>
    ensures { IfOk result (λ _. ids.new.items ≡ ids.old.items ++ task_ids op count) }
{
    for task in 0..count {
        if ids.push(TaskId { op, task }).is_err() {
            return Err(NoMemory);
        }
    }
    Ok(())
}

impl Tasks {
    /// Numbers the tasks of a plan.
    pub(crate) fn make(alloc: Global, plan: Plan) -> Result<Tasks, NoMemory>
        ensures { IfOk result (λ t. t ≡ plan) }
    {
        let mut first = Vec::new(alloc);
        let mut ids = Vec::new(alloc);
        for op in 0..plan.ops().len() as u32 {
            if first.push(ids.len()).is_err() {
                return Err(NoMemory);
            }
            push_tasks(&mut ids, op, tasks(&plan, op))?;
        }
        Ok(Tasks { plan, first, ids })
    }

    /// The plan.
    pub(crate) fn plan(&self) -> &Plan
        ensures plan { result.now ≡ self.now }
        ensures sound { Sound self.now }
    {
        let _sound = self.plan.ops();
        &self.plan
    }

    /// How many tasks there are.
    pub(crate) fn count(&self) -> usize
        ensures count { result ≡ task_count self.now }
        ensures few { result ≤ 65536 }
        ensures sound { Sound self.now }
    {
        let _sound = self.plan.ops();
        self.ids.len()
    }

    /// The number of a task.
    pub(crate) fn number(&self, op: u32, task: u32) -> usize
        requires { IsTask self.now op task }
        ensures number { result ≡ task_number self.now op task }
        ensures within { result < task_count self.now }
        ensures few { result < 65536 }
        ensures sound { Sound self.now }
    {
        let _sound = self.plan.ops();
        self.first[op as usize] + task as usize
    }

    /// The task of this number.
    pub(crate) fn id(&self, number: usize) -> TaskId
        requires { number < task_count self.now }
        ensures task { IsTask self.now result.op result.task }
        ensures number { task_number self.now result.op result.task ≡ number }
    {
        self.ids[number]
    }
}
