//! The calls that were made, written down in their order.
ghost use Rattle.std.specs.Prelude.{◌≡◌, [], Some};
ghost use Rattle.std.specs.Option.{option_copied};
ghost use Rattle.test_depots.specs.Log.{NotesCall, NotesAll};

use cu_cells::CallKind;
use cu_store::Key;
use std::alloc::Global;
use std::marker::Model;

/// A call of a depot or of a yard.
#[derive(Clone, Copy)]
pub struct LoggedCall {
    pub kind: CallKind,
    pub key: Key,
}

/// The calls that were made, in their order.
#[derive(Drop)]
pub(crate) struct Log {
    calls: Vec<LoggedCall>,
    /// Whether there was no memory to write one down.
    is_short: bool,
}

impl Model for Log {
    ghost use Rattle.std.specs.Prelude.{List, Option, Some, None, if◌then◌else◌};
    ghost use Rattle.test_depots.specs.declared.log.LoggedCall.{LoggedCall};

    ghost Value = { Option (List LoggedCall) };

    ghost view = { λ l. if l.is_short then None else Some l.calls.items };
}

impl Log {
    /// No call.
    pub(crate) fn new(alloc: Global) -> Log
        ensures { result ≡ Some [] }
    {
        Log {
            calls: Vec::new(alloc),
            is_short: false,
        }
    }

    /// Writes down a call.
    pub(crate) fn note(&mut self, kind: CallKind, key: &Key)
        ensures { NotesCall kind key.now self.old self.new }
    {
        if self.calls.push(LoggedCall { kind, key: *key }).is_err() {
            self.is_short = true;
        }
    }

    /// Writes down the calls of another log.
    pub(crate) fn append(&mut self, other: &Log)
        ensures { NotesAll other.now self.old self.new }
    {
        if other.is_short || self.calls.extend_from_slice(&other.calls).is_err() {
            self.is_short = true;
        }
    }

    /// The calls in their order, or `None` where there was no memory to write one down.
    pub(crate) fn calls(&self) -> Option<&[LoggedCall]>
        ensures { option_copied result ≡ self.now }
    {
        if self.is_short {
            None
        } else {
            Some(&self.calls)
        }
    }

    /// Forgets the calls.
    pub(crate) fn clear(&mut self)
        ensures { self.new ≡ Some [] }
    {
        self.calls.clear();
        self.is_short = false;
    }
}
