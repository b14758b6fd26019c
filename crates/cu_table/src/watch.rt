//! Lists of tasks, one for each thing that tasks wait for. A task stands in one of them at most, so
//! one array of numbers links them all, and no call but `make` takes memory.
ghost use Rattle.std.specs.Prelude.{◌≡◌, ◌<◌, ◌≤◌, ◌∷◌, [], length, set, sum_by, All, IfOk};
ghost use Rattle.std.specs.Prelude.{MatchOption, slice_index_or};
ghost use Rattle.cu_table.specs.Queue.{Lists, times_in};

use cu_store::NoMemory;
use std::alloc::Global;
use std::marker::Model;

/// The first task of a list and how many there are.
#[derive(Clone, Copy)]
pub(crate) struct ListHead {
    first: u32,
    count: u32,
}

/// Lists of tasks by their numbers.
#[derive(Drop)]
pub(crate) struct Watchers {
    heads: Vec<ListHead>,
    nexts: Vec<u32>,
}

impl Model for Watchers {
    ghost use Rattle.std.specs.Prelude.{◌<◌, length, map, All};
    ghost use Rattle.cu_table.specs.Queue.{Lists, chain_of};

    ghost Value = { Lists };

    ghost view = { λ w. record {
      size = length w.nexts.items;
      lists = map (chain_of w.nexts.items) w.heads.items;
    } };

    ghost invariant = { λ w. All
        (λ h. All (λ i. i < length w.nexts.items) (chain_of w.nexts.items h)) w.heads.items };
}

impl Watchers {
    /// So many empty lists of tasks.
    pub(crate) fn make(alloc: Global, things: usize, tasks: usize) -> Result<Watchers, NoMemory>
        ensures size { IfOk result (λ w. w.size ≡ tasks) }
        ensures things { IfOk result (λ w. length w.lists ≡ things) }
        ensures empty { IfOk result (λ w. All (λ l. l ≡ []) w.lists) }
    {
        let Ok(heads) = vec![in alloc; ListHead { first: 0, count: 0 }; things] else {
            return Err(NoMemory);
        };
        let Ok(nexts) = vec![in alloc; 0u32; tasks] else {
            return Err(NoMemory);
        };
        Ok(Watchers { heads, nexts })
    }

    /// Puts a task that stands in no list in front of one.
    pub(crate) fn add(&mut self, thing: usize, task: u32)
        requires thing { thing < length self.old.lists }
        requires task { task < self.old.size }
        requires apart { sum_by (times_in task) self.old.lists ≡ 0 }
        requires few { length (slice_index_or self.old.lists thing []) ≤ 65536 }
        ensures size { self.new.size ≡ self.old.size }
        ensures lists { self.new.lists
            ≡ set self.old.lists thing (task ∷ slice_index_or self.old.lists thing []) }
    {
        let head = self.heads[thing];
        self.nexts[task as usize] = head.first;
        self.heads[thing] = ListHead {
            first: task,
            count: head.count + 1,
        };
    }

    /// Takes the first task out of a list.
    pub(crate) fn take(&mut self, thing: usize) -> Option<u32>
        requires { thing < length self.old.lists }
        ensures size { self.new.size ≡ self.old.size }
        ensures task { MatchOption result (slice_index_or self.old.lists thing [] ≡ [])
            (λ t. slice_index_or self.old.lists thing []
            ≡ t ∷ slice_index_or self.new.lists thing []) }
        ensures lists { self.new.lists
            ≡ set self.old.lists thing (slice_index_or self.new.lists thing []) }
        ensures within { MatchOption result (self.new ≡ self.old) (λ t. t < self.old.size) }
    {
        let head = self.heads[thing];
        if head.count == 0 {
            return None;
        }
        self.heads[thing] = ListHead {
            first: self.nexts[head.first as usize],
            count: head.count - 1,
        };
        Some(head.first)
    }
}
