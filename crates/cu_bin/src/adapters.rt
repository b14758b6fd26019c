//! Standard input and output as a source and a sink. Which bytes pass is told by no clause.
ghost use Rattle.std.specs.Prelude.{◌≡◌, ◌≤◌, None, IfOk, length};

use cu_store::{Failed, Sink, Source};
use std::io;
use std::io::{ErrorKind, Input, Print, Read};

/// How often a call is made that a signal interrupts.
const TRIES: u32 = 100;

/// Takes the next bytes, and tries again where a signal has interrupted it.
fn read_on<R: Read>(reader: &mut R, buf: &mut [u8]) -> io::Result<usize>
    ensures { IfOk result (λ n. n ≤ length buf.old) }
{
    for _ in 1..TRIES {
        match reader.read(buf) {
            Err(error) if error.kind() == ErrorKind::Interrupted => {}
            answer => return answer,
        }
    }
    reader.read(buf)
}

/// Writes some of the bytes, and tries again where a signal has interrupted it.
fn write_on(rt: &impl Print, piece: &[u8]) -> io::Result<usize>
    ensures { IfOk result (λ n. n ≤ length piece.now) }
{
    for _ in 1..TRIES {
        match rt.write_some(piece) {
            Err(error) if error.kind() == ErrorKind::Interrupted => {}
            answer => return answer,
        }
    }
    rt.write_some(piece)
}

/// Standard input as a source. Each error of the system is a fault, but for an interrupted read, which is tried again.
#[derive(Drop)]
pub struct StdSource<H: Input> {
    reader: H::Reader,
    faults: u64,
}

impl<H: Input> StdSource<H> {
    /// The standard input of this runtime, with no fault counted.
    pub fn make(rt: &H) -> StdSource<H>
        ensures { result.faults ≡ 0 }
    {
        StdSource {
            reader: rt.reader(),
            faults: 0,
        }
    }
}

impl<H: Input> Source for StdSource<H> {
    ghost left = { λ _. None };

    ghost faults = { λ s. s.faults };

    fn read(&mut self, buf: &mut [u8]) -> Result<usize, Failed> {
        match read_on(&mut self.reader, buf) {
            Ok(count) => Ok(count),
            Err(_) => {
                self.faults = self.faults.saturating_add(1);
                Err(Failed)
            }
        }
    }
}

/// Standard output as a sink. Each error of the system is a fault, and so is a write that takes nothing. An interrupted write is
/// tried again.
#[derive(Drop)]
pub struct StdSink<H: Print + Drop> {
    rt: H,
    faults: u64,
}

impl<H: Print + Drop> StdSink<H> {
    /// The standard output of this runtime, with no fault counted.
    pub fn make(rt: H) -> StdSink<H>
        ensures { result.faults ≡ 0 }
    {
        StdSink { rt, faults: 0 }
    }
}

impl<H: Print + Drop> Sink for StdSink<H> {
    ghost written = { λ _. None };

    ghost faults = { λ s. s.faults };

    fn write(&mut self, piece: &[u8]) -> Result<usize, Failed> {
        match write_on(&self.rt, piece) {
            Ok(count) if count > 0 => Ok(count),
            _ => {
                self.faults = self.faults.saturating_add(1);
                Err(Failed)
            }
        }
    }
}
