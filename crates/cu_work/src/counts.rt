//! Counts of a history's entries.
ghost use Rattle.std.specs.Prelude.{◌≡◌, ◌≤◌, if◌then◌else◌, length};
ghost use Rattle.cu_history.specs.History.{is_start, is_failed, count_kind};

use cu_history::{Entry, EventKind};

/// Whether a copy of a task began.
fn is_start(kind: EventKind) -> bool
    ensures { result ≡ is_start kind }
{
    match kind {
        EventKind::Start => true,
        EventKind::Done | EventKind::Failed | EventKind::Halt | EventKind::Late => false,
    }
}

/// Whether one failed.
fn is_failed(kind: EventKind) -> bool
    ensures { result ≡ is_failed kind }
{
    match kind {
        EventKind::Failed => true,
        EventKind::Start | EventKind::Done | EventKind::Halt | EventKind::Late => false,
    }
}

/// What an entry adds to a count.
fn one(is_counted: bool) -> usize
    ensures { result ≡ (if is_counted then 1 else 0) }
{
    if is_counted { 1 } else { 0 }
}

/// How often a task was started.
pub fn starts(history: &[Entry]) -> usize
    ensures count { result ≡ count_kind is_start history.now }
    ensures few { result ≤ length history.now }
{
    let mut count = 0;
    for entry in history {
        count += one(is_start(entry.kind));
    }
    count
}

/// How often one failed.
pub fn failures(history: &[Entry]) -> usize
    ensures count { result ≡ count_kind is_failed history.now }
    ensures few { result ≤ length history.now }
{
    let mut count = 0;
    for entry in history {
        count += one(is_failed(entry.kind));
    }
    count
}
