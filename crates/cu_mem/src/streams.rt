//! A source and a sink in memory.
ghost use Rattle.std.specs.Prelude.{◌≡◌, ◌⊎◌, ◌↔◌, ◌-◌, ◌<◌, ◌≤◌, [], Some, IsTrue, IsErr, IfOk, OnErr, length, min, take};
ghost use Rattle.cu_store.specs.Faults.{Rose, MadeOne};
ghost use Rattle.cu_store.specs.Streams.{Takes, Appends};
ghost use Rattle.cu_mem.specs.Streams.{FailsAt, RaisesOne};

use cu_store::{Failed, NoMemory, Sink, Source};
use std::alloc::Global;
use std::marker::Model;

/// Bytes to be read. From the call `fail_at` on, counted from 0, each read fails.
#[derive(Drop)]
pub struct MemSource {
    bytes: Vec<u8>,
    at: usize,
    fail_at: Option<u64>,
    calls: u64,
    faults: u64,
}

impl Model for MemSource {
    ghost use Rattle.std.specs.Prelude.{◌≤◌, drop, length};
    ghost use Rattle.cu_mem.specs.Streams.{SourceState};

    ghost Value = { SourceState };

    ghost view = { λ s. record { left = drop s.at s.bytes.items; fail_at = s.fail_at; calls = s.calls; faults = s.faults } };

    ghost invariant = { λ s. s.at ≤ length s.bytes.items };
}

impl MemSource {
    /// A source that gives these bytes.
    pub fn make(bytes: Vec<u8>, fail_at: Option<u64>) -> MemSource
        ensures { result ≡ record { left = bytes.items; fail_at = fail_at; calls = 0; faults = 0 } }
    {
        MemSource {
            bytes,
            at: 0,
            fail_at,
            calls: 0,
            faults: 0,
        }
    }
}

impl Source for MemSource {
    ghost left = { λ s. Some s.left };

    ghost faults = { λ s. s.faults };

    /// Takes as many bytes as are left and as `buf` has room for. It fails exactly from the call
    /// `fail_at` on.
    fn read(&mut self, buf: &mut [u8]) -> Result<usize, Failed>
        requires { 0 < length buf.old }
        ensures taken { Takes (Some self.old.left) (Some self.new.left) buf.new result }
        ensures bound { IfOk result (λ n. n ≤ length buf.old) }
        ensures cause { OnErr result (Rose 1 self.old.faults self.new.faults) }
        ensures count { self.old.faults ≤ self.new.faults }

        ensures failed { IsErr result ↔ FailsAt self.old.fail_at self.old.calls }
        ensures raised { RaisesOne result self.old.faults self.new.faults }
        ensures all { IfOk result (λ n. n ≡ min (length buf.old) (length self.old.left)) }
        ensures calls { MadeOne self.old.calls self.new.calls }
        ensures fail_at { self.new.fail_at ≡ self.old.fail_at }
    {
        let fails = fails_at(self.fail_at, self.calls);
        self.calls = self.calls.saturating_add(1);
        if fails {
            self.faults = self.faults.saturating_add(1);
            return Err(Failed);
        }
        let n = take_front(&self.bytes[self.at..], buf);
        self.at += n;
        Ok(n)
    }
}

/// Room for text. From the call `fail_at` on, counted from 0, each write fails, and so does each
/// where the room is full.
#[derive(Drop)]
pub struct MemSink {
    text: Vec<u8>,
    room: usize,
    fail_at: Option<u64>,
    calls: u64,
    faults: u64,
}

impl Model for MemSink {
    ghost use Rattle.std.specs.Prelude.{◌≤◌, vec_len};
    ghost use Rattle.std.specs.Vec.{vec_capacity};
    ghost use Rattle.cu_mem.specs.Streams.{SinkState};

    ghost Value = { SinkState };

    ghost view = { λ s. record { text = s.text.items; room = s.room; fail_at = s.fail_at; calls = s.calls; faults = s.faults } };

    ghost invariant = { λ s. (vec_len s.text ≤ s.room) × (s.room ≤ vec_capacity s.text) };
}

impl MemSink {
    /// A sink for at most `room` bytes, which takes its memory now.
    pub fn make(alloc: Global, room: u64, fail_at: Option<u64>) -> Result<MemSink, NoMemory>
        ensures { IfOk result (λ s. s ≡ record { text = []; room = room; fail_at = fail_at; calls = 0; faults = 0 }) }
    {
        match Vec::with_capacity(alloc, room as usize) {
            Ok(text) => Ok(MemSink {
                text,
                room: room as usize,
                fail_at,
                calls: 0,
                faults: 0,
            }),
            Err(_) => Err(NoMemory),
        }
    }

    /// The bytes written so far.
    pub fn text(&self) -> &[u8]
        ensures { result.now ≡ self.now.text }
    {
        &self.text
    }
}

impl Sink for MemSink {
    ghost written = { λ s. Some s.text };

    ghost faults = { λ s. s.faults };

    /// Takes as many bytes as there is room for. It fails exactly where the room is full, and from
    /// the call `fail_at` on.
    fn write(&mut self, piece: &[u8]) -> Result<usize, Failed>
        requires { 0 < length piece.now }
        ensures appended { Appends (Some self.old.text) (Some self.new.text) piece.now result }
        ensures some { IfOk result (λ n. 0 < n) }
        ensures bound { IfOk result (λ n. n ≤ length piece.now) }
        ensures cause { OnErr result (Rose 1 self.old.faults self.new.faults) }
        ensures count { self.old.faults ≤ self.new.faults }

        ensures failed { IsErr result ↔ (FailsAt self.old.fail_at self.old.calls ⊎ (self.old.room ≤ length self.old.text)) }
        ensures raised { RaisesOne result self.old.faults self.new.faults }
        ensures all { IfOk result (λ n. n ≡ min (length piece.now) (self.old.room - length self.old.text)) }
        ensures calls { MadeOne self.old.calls self.new.calls }
        ensures fail_at { self.new.fail_at ≡ self.old.fail_at }
        ensures room { self.new.room ≡ self.old.room }
    {
        let fails = fails_at(self.fail_at, self.calls);
        self.calls = self.calls.saturating_add(1);
        let n = piece.len().min(self.room - self.text.len());
        if fails || n == 0 {
            self.faults = self.faults.saturating_add(1);
            return Err(Failed);
        }
        match self.text.extend_from_slice(&piece[..n]) {
            Ok(()) => Ok(n),
            Err(_) => unreachable!(),
        }
    }
}

/// Whether the call of this number fails.
fn fails_at(fail_at: Option<u64>, call: u64) -> bool
    ensures { IsTrue result ↔ FailsAt fail_at call }
{
    match fail_at {
        None => false,
        Some(first) => first <= call,
    }
}

/// Copies as many bytes as there are and as there is room for, and says how many.
fn take_front(bytes: &[u8], buf: &mut [u8]) -> usize
    ensures all { result ≡ min (length buf.old) (length bytes.now) }
    ensures copied { take result buf.new ≡ take result bytes.now }
{
    let n = buf.len().min(bytes.len());
    buf[..n].copy_from_slice(&bytes[..n]);
    n
}
