//! The lists in which waiting tasks stand: the ready ones, and those that watch a thing.
ghost use Rattle.std.specs.Prelude.{◌≡◌, ◌<◌, ◌≤◌, ◌++◌, ◌∷◌, [], ℕ, ◌↔◌, IsTrue, length, sum_by};
ghost use Rattle.std.specs.Prelude.{IfOk, MatchOption};
ghost use Rattle.cu_table.specs.Queue.{Lined, times_in, watchers_of, pushed, watched};

use crate::watch::Watchers;
use cu_store::NoMemory;
use std::alloc::Global;
use std::marker::Model;

/// The ready waiting tasks by their numbers, the next to start last, and the tasks that watch each
/// thing.
#[derive(Drop)]
pub(crate) struct Queue {
    waiting: Vec<u32>,
    watchers: Watchers,
}

impl Model for Queue {
    ghost use Rattle.std.specs.Prelude.{◌≤◌, vec_capacity};
    ghost use Rattle.cu_table.specs.Queue.{Lined};

    ghost Value = { Lined };

    ghost view = { λ q. record {
      size = q.watchers.size;
      waiting = q.waiting.items;
      watching = q.watchers.lists;
    } };

    ghost invariant = { λ q. q.watchers.size ≤ vec_capacity q.waiting };
}

impl Queue {
    /// Empty lists for so many things and tasks.
    pub(crate) fn make(alloc: Global, things: usize, tasks: usize) -> Result<Queue, NoMemory>
        ensures size { IfOk result (λ q. q.size ≡ tasks) }
        ensures waiting { IfOk result (λ q. q.waiting ≡ []) }
        ensures things { IfOk result (λ q. length q.watching ≡ things) }
        ensures watching { IfOk result (λ q. (x : ℕ) → watchers_of q x ≡ []) }
    {
        let Ok(waiting) = Vec::with_capacity(alloc, tasks) else {
            return Err(NoMemory);
        };
        let watchers = Watchers::make(alloc, things, tasks)?;
        Ok(Queue { waiting, watchers })
    }

    /// Adds a ready task.
    pub(crate) fn push(&mut self, task: u32)
        requires { length self.old.waiting < self.old.size }
        ensures { self.new ≡ pushed self.old task }
    {
        match self.waiting.push(task) {
            Ok(()) => {}
            Err(_) => unreachable!(),
        }
    }

    /// Whether no ready task waits.
    pub(crate) fn is_empty(&self) -> bool
        ensures { IsTrue result ↔ (self.now.waiting ≡ []) }
    {
        self.waiting.is_empty()
    }

    /// Takes the next ready task.
    pub(crate) fn take(&mut self) -> Option<u32>
        ensures task { MatchOption result ((self.old.waiting ≡ []) × (self.new ≡ self.old))
            (λ t. self.old.waiting ≡ self.new.waiting ++ t ∷ []) }
        ensures watching { self.new.watching ≡ self.old.watching }
        ensures size { self.new.size ≡ self.old.size }
    {
        self.waiting.pop()
    }

    /// Adds a task that watches a thing.
    pub(crate) fn watch(&mut self, thing: usize, task: u32)
        requires thing { thing < length self.old.watching }
        requires task { task < self.old.size }
        requires apart { sum_by (times_in task) self.old.watching ≡ 0 }
        requires few { length (watchers_of self.old thing) ≤ 65536 }
        ensures { self.new ≡ watched self.old thing (task ∷ watchers_of self.old thing) }
    {
        self.watchers.add(thing, task);
    }

    /// Takes a task that watches a thing.
    pub(crate) fn unwatch(&mut self, thing: usize) -> Option<u32>
        requires { thing < length self.old.watching }
        ensures task { MatchOption result
            ((watchers_of self.old thing ≡ []) × (self.new ≡ self.old))
            (λ t. (watchers_of self.old thing ≡ t ∷ watchers_of self.new thing)
            × (t < self.old.size)) }
        ensures lists { self.new ≡ watched self.old thing (watchers_of self.new thing) }
    {
        self.watchers.take(thing)
    }
}
