//! Laws of the task machine: calls that do nothing and whose clauses are the laws.
ghost use Rattle.std.specs.Prelude.{◌≡◌, ◌⊎◌, ◌↔◌, ℕ, ◌+◌, ◌*◌, ◌≤◌, ◌++◌, ◌∷◌, [], Bool, true};
ghost use Rattle.std.specs.Prelude.{false, List, length, All, Some, None};
ghost use Rattle.cu_store.specs.declared.faults.TaskFault.{TaskFault};
ghost use Rattle.cu_history.specs.declared.entry.Entry.{Entry};
ghost use Rattle.cu_history.specs.declared.entry.EventKind.TheVariants.{Start, Done};
ghost use Rattle.cu_history.specs.History.{is_start, is_done, is_failed, count_kind, count_of_task};
ghost use Rattle.cu_history.specs.History.{has_halt, own};
ghost use Rattle.cu_op.specs.Sound.{Sound};
ghost use Rattle.cu_table.specs.declared.claim.Claim.{Claim};
ghost use Rattle.cu_table.specs.declared.claim.Claim.TheVariants as claim;
ghost use Rattle.cu_table.specs.declared.state.Ending.{Ending};
ghost use Rattle.cu_table.specs.declared.state.Ending.TheVariants.{Broken, Halted};
ghost use Rattle.cu_table.specs.Numbers.{IsTask, task_count};
ghost use Rattle.cu_table.specs.Machine.{Machine, state_at, NoneWaits, IsDone, AllDone};
ghost use Rattle.cu_table.specs.Machine.{AreInputsDone, RunsNothing, Runs, opening};
ghost use Rattle.cu_table.specs.Own.{left_running, running_of, is_end};
ghost use Rattle.cu_table.specs.Step.{Settings, CanStart, Step, Halts, Run, Replays, Legal};
ghost use Rattle.cu_table.specs.Table.{TableView, IsClaim, NoneStarts, undone_weight, undone_among};

/// A history has at most `2 * (retries + 2)` entries for each task. One step more of a legal
/// history is legal, and so is each front of one.
pub fn history_law()
    ensures few { (s : Settings) (done : List Bool) (history : List Entry) → Legal s done history
        → length history ≤ 2 * (s.retries + 2) * task_count s.plan }
    ensures more { (s : Settings) (done : List Bool) (history : List Entry) (m new : Machine)
        (e : Entry)
        → Replays s done history m → Step s m e new → Replays s done (history ++ e ∷ []) new }
    ensures front { (s : Settings) (done : List Bool) (front rest : List Entry) (new : Machine)
        → Replays s done (front ++ rest) new
        → (m : Machine) × Replays s done front m × Run s m rest new }
{}

/// A machine in which no copy runs and no ready task waits has done all tasks.
pub fn alone_law()
    ensures { (s : Settings) (done : List Bool) (history : List Entry) (m : Machine) → Sound s.plan
        → Replays s done history m
        → m.copies ≡ [] → NoneWaits s.plan m → AllDone s.plan m }
{}

/// When each answer of a claim comes, for each state of a table: exactly then.
pub fn claim_law()
    ensures run { (old : TableView) (worker : ℕ) (c : Claim) (new : TableView)
        → Replays old.settings old.done old.history old.state → IsClaim old worker c new
        → ((op : ℕ) × (task : ℕ) × (copy : ℕ) × (c ≡ claim.Run op task copy))
        ↔ (old.state.ended ≡ None)
        × ((op : ℕ) × (task : ℕ) × IsTask old.settings.plan op task
        × CanStart old.settings old.state op task) }
    ensures idle { (old : TableView) (worker : ℕ) (c : Claim) (new : TableView)
        → Replays old.settings old.done old.history old.state → IsClaim old worker c new
        → (c ≡ claim.Idle)
        ↔ (old.state.ended ≡ None) × (AllDone old.settings.plan old.state → ⊥)
        × NoneStarts old.settings old.state }
    ensures finished { (old : TableView) (worker : ℕ) (c : Claim) (new : TableView)
        → Replays old.settings old.done old.history old.state → IsClaim old worker c new
        → (c ≡ claim.Finished) ↔ AllDone old.settings.plan old.state }
    ensures broken { (old : TableView) (worker : ℕ) (c : Claim) (new : TableView) (op task : ℕ)
        → Replays old.settings old.done old.history old.state → IsClaim old worker c new
        → (c ≡ claim.Broken op task) ↔ (old.state.ended ≡ Some (Broken op task)) }
    ensures halted { (old : TableView) (worker : ℕ) (c : Claim) (new : TableView)
        (fault : TaskFault) → Replays old.settings old.done old.history old.state
        → IsClaim old worker c new
        → (c ≡ claim.Halted fault) ↔ (old.state.ended ≡ Some (Halted fault)) }
{}

/// What a worker's own entries leave running is its copy in the state that the history leaves.
pub fn own_law()
    ensures running { (s : Settings) (done : List Bool) (history : List Entry) (m : Machine)
        (worker : ℕ) → Replays s done history m
        → running_of m.copies worker ≡ left_running None (own worker history) }
    ensures rests { (s : Settings) (done : List Bool) (history : List Entry) (m : Machine)
        (worker : ℕ) → Replays s done history m
        → left_running None (own worker history) ≡ None → RunsNothing m worker }
    ensures runs { (s : Settings) (done : List Bool) (history : List Entry) (m : Machine)
        (worker op task : ℕ) → Replays s done history m
        → left_running None (own worker history) ≡ Some (op, task) → Runs m worker op task }
{}

/// What a step changes. It makes a task done exactly where it is that task's entry Done; a task
/// starts only once each task that makes one of its input cells is done; and only the entry's own
/// worker runs something else than before.
pub fn step_law()
    ensures done { (s : Settings) (done : List Bool) (history : List Entry) (old new : Machine)
        (e : Entry) (op task : ℕ)
        → Replays s done history old → Step s old e new → IsTask s.plan op task
        → IsDone s.plan new op task
        ↔ (IsDone s.plan old op task ⊎ (e.kind ≡ Done) × (e.op ≡ op) × (e.task ≡ task)) }
    ensures ready { (s : Settings) (done : List Bool) (history : List Entry) (old new : Machine)
        (e : Entry)
        → Replays s done history old → Step s old e new → e.kind ≡ Start
        → AreInputsDone s.plan old e.op e.task }
    ensures running { (s : Settings) (done : List Bool) (history : List Entry) (old new : Machine)
        (e : Entry) (worker : ℕ)
        → Replays s done history old → Step s old e new
        → running_of new.copies worker
        ≡ left_running (running_of old.copies worker) (own worker (e ∷ [])) }
{}

/// A task that is done stays done, and isn't started again: so no history starts a task that was
/// done at first. At most one copy of it still runs; without second copies none runs once all tasks
/// are done.
pub fn done_law()
    ensures stays { (s : Settings) (old : Machine) (rest : List Entry) (new : Machine) (op task : ℕ)
        → Run s old rest new
        → IsDone s.plan old op task → IsDone s.plan new op task }
    ensures never_again { (s : Settings) (old : Machine) (rest : List Entry) (new : Machine)
        (op task : ℕ) → Run s old rest new
        → IsDone s.plan old op task → count_of_task is_start op task rest ≡ 0 }
    ensures one { (s : Settings) (done : List Bool) (history : List Entry) (m : Machine)
        (op task v w : ℕ) → Replays s done history m
        → IsDone s.plan m op task → Runs m v op task → Runs m w op task → v ≡ w }
    ensures none { (s : Settings) (done : List Bool) (history : List Entry) (m : Machine)
        → Replays s done history m
        → s.backups ≡ false → AllDone s.plan m → m.copies ≡ [] }
{}

/// The entries of one task are counted: each start has an end or its copy still runs; each failure
/// counts; and it is done by one entry Done, unless it was done at first.
pub fn task_law()
    ensures starts { (s : Settings) (done : List Bool) (history : List Entry) (m : Machine)
        (op task : ℕ) → Replays s done history m → IsTask s.plan op task
        → count_of_task is_start op task history
        ≡ count_of_task is_end op task history + (state_at s.plan m op task).copies }
    ensures failures { (s : Settings) (done : List Bool) (history : List Entry) (m : Machine)
        (op task : ℕ) → Replays s done history m → IsTask s.plan op task
        → (state_at s.plan m op task).failures ≡ count_of_task is_failed op task history }
    ensures done { (s : Settings) (done : List Bool) (history : List Entry) (m : Machine)
        (op task : ℕ) → Replays s done history m → IsTask s.plan op task
        → count_of_task is_done op task history + undone_weight (state_at s.plan m op task)
        ≡ undone_weight (state_at s.plan (opening done) op task) }
{}

/// A task ended the machine exactly where it failed once more than a failed task is tried again; it
/// is one of the plan's, and was done neither at first nor later.
pub fn broken_law()
    ensures exactly { (s : Settings) (done : List Bool) (history : List Entry) (m : Machine)
        (op task : ℕ) → Replays s done history m → IsTask s.plan op task
        → (m.ended ≡ Some (Broken op task))
        ↔ (count_of_task is_failed op task history ≡ s.retries + 1) }
    ensures task { (s : Settings) (done : List Bool) (history : List Entry) (m : Machine)
        (op task : ℕ) → Replays s done history m
        → m.ended ≡ Some (Broken op task) → IsTask s.plan op task }
    ensures undone { (s : Settings) (done : List Bool) (history : List Entry) (m : Machine)
        (op task : ℕ) → Replays s done history m
        → m.ended ≡ Some (Broken op task)
        → (count_of_task is_done op task history ≡ 0) × (IsDone s.plan m op task → ⊥) }
{}

/// An ended machine stays as it ended; it ended with a fault that isn't tried again exactly where
/// its history has a Halt; and where it has ended, some task isn't done. The fault isn't one of the
/// store.
pub fn ended_law()
    ensures stays { (s : Settings) (old : Machine) (rest : List Entry) (new : Machine)
        (ending : Ending) → Run s old rest new
        → old.ended ≡ Some ending → new.ended ≡ Some ending }
    ensures halt { (s : Settings) (done : List Bool) (history : List Entry) (m : Machine)
        → Replays s done history m
        → (has_halt history ≡ true) ↔ ((fault : TaskFault) × (m.ended ≡ Some (Halted fault))) }
    ensures undone { (s : Settings) (done : List Bool) (history : List Entry) (m : Machine)
        (ending : Ending) → Replays s done history m
        → m.ended ≡ Some ending → AllDone s.plan m → ⊥ }
    ensures fault { (s : Settings) (done : List Bool) (history : List Entry) (m : Machine)
        (fault : TaskFault) → Replays s done history m
        → m.ended ≡ Some (Halted fault) → Halts fault }
{}

/// The entries of a history are counted: each start has an end or its copy still runs; each entry
/// Done is a task that wasn't done before. Without second copies and while the machine goes on each
/// start ended in Done or Failed or its copy runs. The starts that didn't fail are at least the
/// tasks that became done, and without second copies at most those that weren't done at first: so
/// as many as these once all tasks are done.
pub fn count_law()
    ensures starts { (s : Settings) (done : List Bool) (history : List Entry) (m : Machine)
        → Replays s done history m
        → count_kind is_start history ≡ count_kind is_end history + length m.copies }
    ensures done { (s : Settings) (done : List Bool) (history : List Entry) (m : Machine)
        → Replays s done history m
        → count_kind is_done history + undone_among m.tasks ≡ undone_among (opening done).tasks }
    ensures alone { (s : Settings) (done : List Bool) (history : List Entry) (m : Machine)
        → Replays s done history m
        → s.backups ≡ false → m.ended ≡ None
        → count_kind is_start history + undone_among m.tasks
        ≡ count_kind is_failed history + undone_among (opening done).tasks + length m.copies }
    ensures least { (s : Settings) (done : List Bool) (history : List Entry) (m : Machine)
        → Replays s done history m
        → count_kind is_failed history + undone_among (opening done).tasks
        ≤ count_kind is_start history + undone_among m.tasks }
    ensures most { (s : Settings) (done : List Bool) (history : List Entry) (m : Machine)
        → Replays s done history m
        → s.backups ≡ false
        → count_kind is_start history
        ≤ count_kind is_failed history + undone_among (opening done).tasks }
    ensures none { (s : Settings) (done : List Bool) (history : List Entry) (m : Machine)
        → Replays s done history m
        → AllDone s.plan m → undone_among m.tasks ≡ 0 }
    ensures fresh { (done : List Bool) → All (λ d. d ≡ false) done
        → undone_among (opening done).tasks ≡ length done }
    ensures whole { (s : Settings) (done : List Bool) (history : List Entry) (m : Machine)
        → Replays s done history m
        → s.backups ≡ false → AllDone s.plan m
        → count_kind is_start history
        ≡ count_kind is_failed history + undone_among (opening done).tasks }
{}
