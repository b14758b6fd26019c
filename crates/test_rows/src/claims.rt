//! Workers that take turns at a task table: none waits for another, and each does what the table
//! can take.
ghost use Rattle.std.specs.Prelude.{◌≡◌, length};
ghost use Rattle.cu_table.specs.Numbers.{task_count};
ghost use Rattle.cu_table.specs.Own.{running_of};
ghost use Rattle.test_rows.specs.Turns.{task_pair};

use anyhow::{Result, bail};
use cu_op::Plan;
use cu_store::TaskFault;
use cu_table::{Claim, Entry, Table, TaskId};
use std::alloc::Global;
use std::marker::Model;

/// A task table, and the task that each worker runs.
#[derive(Drop)]
pub struct Turns {
    table: Table,
    running: Vec<Option<TaskId>>,
}

impl Model for Turns {
    ghost use Rattle.cu_table.specs.Table.{TableView};
    ghost use Rattle.test_rows.specs.Turns.{IsTurns};

    ghost Value = { TableView };

    ghost view = { λ t. t.table };

    ghost invariant = { λ t. IsTurns t.table t.running.items };
}

impl Turns {
    /// So many workers that run nothing, at a new table of a plan of which these tasks are done.
    pub fn make(
        alloc: Global,
        plan: &Plan,
        retries: u32,
        backups: bool,
        done: &[bool],
        workers: u32,
    ) -> Result<Turns>
        requires { length done.now ≡ task_count plan.now }
    {
        let running = vec![in alloc; None; workers as usize]?;
        let Ok(table) = Table::begin(alloc, plan, retries, backups, done) else {
            bail!("no memory");
        };
        Ok(Turns { table, running })
    }

    /// What happened, the oldest first.
    pub fn history(&self) -> &[Entry] {
        self.table.history()
    }

    /// The task of each worker, by its number.
    pub fn running(&self) -> &[Option<TaskId>] {
        &self.running
    }

    /// The task that the worker runs.
    fn task_of(&self, worker: u32) -> Option<TaskId>
        ensures { running_of self.now.state.copies worker ≡ task_pair result }
    {
        let place = worker as usize;
        if place < self.running.len() {
            self.running[place]
        } else {
            None
        }
    }

    /// What the table answers the worker. A worker that runs a task, or isn't there, asks for none.
    pub fn claim(&mut self, worker: u32) -> Option<Claim> {
        let place = worker as usize;
        if place >= self.running.len() {
            return None;
        }
        let None = self.task_of(worker) else {
            return None;
        };
        let claim = self.table.claim(worker);
        if let Claim::Run { op, task, copy: _ } = claim {
            self.running[place] = Some(TaskId { op, task });
        }
        Some(claim)
    }

    /// Tells the table how the worker's task ended. Where it runs none this is false, and nothing
    /// is told.
    pub fn report(&mut self, worker: u32, ended: Result<(), TaskFault>) -> bool {
        let place = worker as usize;
        if place >= self.running.len() {
            return false;
        }
        let Some(id) = self.task_of(worker) else {
            return false;
        };
        self.table.report(worker, id.op, id.task, ended);
        self.running[place] = None;
        true
    }
}
