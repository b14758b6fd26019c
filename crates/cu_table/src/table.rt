//! The task table.
ghost use Rattle.std.specs.Prelude.{◌≡◌, ◌↔◌, [], length, IsTrue, IfOk};
ghost use Rattle.cu_op.specs.Sound.{Sound};
ghost use Rattle.cu_table.specs.Numbers.{task_count};
ghost use Rattle.cu_table.specs.Machine.{RunsNothing, Runs, opening};
ghost use Rattle.cu_table.specs.Step.{Replays};
ghost use Rattle.cu_table.specs.Table.{TableView, IsClaim, IsIdle, claim_of, IsReported, end_of};
ghost use Rattle.cu_table.specs.Table.{report_kind, is_late};

use crate::claim::Claim;
use crate::end::end_copy;
use crate::line::{Undone, line_up};
use crate::next::{next_task, none_next, start};
use crate::open::{first_queue, first_records, first_undone};
use crate::queue::Queue;
use crate::records::Records;
use crate::state::{Ending, TaskId};
use crate::tasks::Tasks;
use cu_history::Entry;
use cu_op::Plan;
use cu_store::{NoMemory, TaskFault};
use std::alloc::Global;
use std::marker::Model;

/// Which tasks of a plan wait, run and are done, and the history of what happened.
#[derive(Drop)]
pub struct Table {
    tasks: Tasks,
    retries: u32,
    backups: bool,
    done: Vec<bool>,
    records: Records,
    undone: Undone,
    queue: Queue,
}

impl Model for Table {
    ghost use Rattle.std.specs.Prelude.{vec_capacity};
    ghost use Rattle.cu_table.specs.Table.{TableView};
    ghost use Rattle.cu_table.specs.Queue.{IsTable, HasRoom};

    ghost Value = { TableView };

    ghost view = { λ t. record {
      settings = record { plan = t.tasks; retries = t.retries; backups = t.backups };
      done = t.done.items;
      history = t.records.history.items;
      state = record {
        tasks = t.records.tasks.items;
        copies = t.records.copies.items;
        ended = t.records.ended;
      };
    } };

    ghost invariant = { λ t. IsTable (record {
      settings = record { plan = t.tasks; retries = t.retries; backups = t.backups };
      done = t.done.items;
      history = t.records.history.items;
      state = record {
        tasks = t.records.tasks.items;
        copies = t.records.copies.items;
        ended = t.records.ended;
      };
    }) t.undone t.queue
        × HasRoom t.tasks t.retries (vec_capacity t.records.history)
        (vec_capacity t.records.copies) };
}

/// What a claim answers once the machine has ended.
fn ended_claim(ending: Ending) -> Claim
    ensures { result ≡ claim_of ending }
{
    match ending {
        Ending::Broken { op, task } => Claim::Broken { op, task },
        Ending::Halted(fault) => Claim::Halted(fault),
    }
}

impl Table {
    /// A table for a plan, of which these tasks are done, those of all operations in order. A task
    /// that the store fails is tried again `retries` times. With `backups` an idle worker may run a
    /// second copy of a task that runs. All memory is taken here: room for `2 * (retries + 2)`
    /// entries a task. The plan is copied.
    pub fn begin(
        alloc: Global,
        plan: &Plan,
        retries: u32,
        backups: bool,
        done: &[bool],
    ) -> Result<Table, NoMemory>
        requires { length done.now ≡ task_count plan.now }
        ensures table { IfOk result (λ t. t ≡ record {
          settings = record { plan = plan.now; retries = retries; backups = backups };
          done = done.now;
          history = [];
          state = opening done.now;
        }) }
        ensures legal { IfOk result (λ t. Replays t.settings t.done t.history t.state) }
        ensures sound { IfOk result (λ t. Sound t.settings.plan) }
    {
        let tasks = Tasks::make(alloc, plan.copy(alloc)?)?;
        let Ok(kept) = Vec::from_slice(alloc, done) else {
            return Err(NoMemory);
        };
        let records = first_records(alloc, &tasks, retries, done)?;
        let undone = first_undone(alloc, &tasks, &records.tasks)?;
        let queue = first_queue(alloc, &tasks, &records.tasks, &undone)?;
        Ok(Table {
            tasks,
            retries,
            backups,
            done: kept,
            records,
            undone,
            queue,
        })
    }

    /// What happened, the oldest first.
    pub fn history(&self) -> &[Entry]
        ensures history { result.now ≡ self.now.history }
        ensures legal { Replays self.now.settings self.now.done self.now.history self.now.state }
        ensures sound { Sound self.now.settings.plan }
    {
        &self.records.history
    }

    /// Whether a claim would answer Idle, by any worker.
    pub fn is_idle(&self) -> bool
        ensures { IsTrue result ↔ IsIdle self.now }
    {
        if self.records.ended.is_some() {
            return false;
        }
        if self.undone.left == 0 {
            return false;
        }
        none_next(
            &self.tasks,
            &self.records.tasks,
            &self.records.copies,
            self.backups,
            &self.queue,
        )
    }

    /// Gives the worker, which runs nothing, a task.
    pub fn claim(&mut self, worker: u32) -> Claim
        requires { RunsNothing self.old.state worker }
        ensures answer { IsClaim self.old worker result self.new }
        ensures legal { Replays self.new.settings self.new.done self.new.history self.new.state }
        ensures sound { Sound self.old.settings.plan }
    {
        if let Some(ending) = self.records.ended {
            return ended_claim(ending);
        }
        if self.undone.left == 0 {
            return Claim::Finished;
        }
        let next = next_task(
            &self.tasks,
            &self.records.tasks,
            &self.records.copies,
            self.backups,
            &mut self.queue,
        );
        match next {
            None => Claim::Idle,
            Some(id) => Claim::Run {
                op: id.op,
                task: id.task,
                copy: start(&self.tasks, &mut self.records, worker, id),
            },
        }
    }

    /// Takes how the worker's copy of a task ended.
    pub fn report(&mut self, worker: u32, op: u32, task: u32, ended: Result<(), TaskFault>)
        requires { Runs self.old.state worker op task }
        ensures reported { IsReported self.old
            (end_of (report_kind (is_late self.old.settings.plan self.old.state op task) ended)
            worker op task) ended self.new }
        ensures legal { Replays self.new.settings self.new.done self.new.history self.new.state }
        ensures sound { Sound self.old.settings.plan }
    {
        let id = TaskId { op, task };
        let number = self.tasks.number(op, task);
        let was = self.records.tasks[number];
        let end = end_copy(self.retries, id, was, self.records.ended, ended);
        self.records.end(
            number,
            end.state,
            end.ended,
            Entry {
                kind: end.kind,
                worker,
                op,
                task,
                room: 0,
            },
        );
        line_up(
            &self.tasks,
            &self.records.tasks,
            &mut self.undone,
            &mut self.queue,
            id,
            &end,
        );
    }
}
