//! Whole texts from a source and to a sink.
ghost use Rattle.std.specs.Prelude.{ℕ, ◌≤◌, length, IfOk, OnOk, OnErr};
ghost use Rattle.cu_store.specs.Faults.{Rose};
ghost use Rattle.cu_command.specs.Streams.{ReadsAll, WroteFront, IsCaused};

use cu_store::{Failed, Sink, Source};
use std::alloc::Global;

/// The most bytes that a text has. One more is read, to tell a longer text.
pub const TEXT_LIMIT: usize = 1_048_576;

const PIECE: usize = 4096;

/// Why a text couldn't be read.
#[derive(Clone, Copy, Debug, PartialEq, Eq)]
pub enum StreamRefused {
    /// The source failed.
    Fault,
    NoMemory,
}

/// Reads to the end of the input, or 1,048,577 bytes.
pub fn read_all<R: Source>(alloc: Global, src: &mut R) -> Result<Vec<u8>, StreamRefused>
    ensures text { IfOk result (λ text. ReadsAll (R.left src.old) (R.left src.new) text.items) }
    ensures bound { IfOk result (λ text. length text.items ≤ 1048577) }
    ensures cause { IsCaused (R.faults src.old) (R.faults src.new) result }
    ensures count { R.faults src.old ≤ R.faults src.new }
{
    let mut text = Vec::new(alloc);
    let mut piece = [0u8; PIECE];
    for _ in 0..TEXT_LIMIT + 1 {
        let room = (TEXT_LIMIT + 1 - text.len()).min(PIECE);
        if room == 0 {
            break;
        }
        let taken = match src.read(&mut piece[..room]) {
            Ok(taken) => taken,
            Err(_) => return Err(StreamRefused::Fault),
        };
        if taken == 0 {
            return Ok(text);
        }
        if text.extend_from_slice(&piece[..taken]).is_err() {
            return Err(StreamRefused::NoMemory);
        }
    }
    Ok(text)
}

/// Writes all of the bytes. Where the sink fails, it has the front of them.
pub fn write_all<W: Sink>(out: &mut W, bytes: &[u8]) -> Result<(), Failed>
    ensures all { OnOk result (WroteFront (W.written out.old) (W.written out.new) bytes.now (length bytes.now)) }
    ensures front { OnErr result ((n : ℕ) × (n ≤ length bytes.now) × WroteFront (W.written out.old) (W.written out.new) bytes.now n) }
    ensures cause { OnErr result (Rose 1 (W.faults out.old) (W.faults out.new)) }
    ensures count { W.faults out.old ≤ W.faults out.new }
{
    let mut done = 0usize;
    for _ in 0..bytes.len() {
        if done == bytes.len() {
            break;
        }
        match out.write(&bytes[done..]) {
            Ok(more) => done += more,
            Err(failed) => return Err(failed),
        }
    }
    Ok(())
}
