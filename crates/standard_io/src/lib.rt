//! Standard input as a `Source` and standard output as a `Sink`: `StandardIn` around any reader of
//! std, `StandardOut` around any writer; and the words that a program was called with.
//!
//! Both meet the traits of `outside`. They pass on what std tells contracts of the content, and
//! count errors; a write that takes nothing of a piece is one. docs/THEOREMS.md says under "A run
//! in a shell" what std tells of the real standard input and output.
//!
//! Calls, for each `main`: `StandardIn::new`, `StandardOut::new`, `arguments`. It is all in this
//! file.
#![tactic(auto)]

ghost use Rattle.std.specs.Prelude.{◌≡◌};

use nop_types::NoMemory;
use outside::{Failed, Sink, Source, WriteError};
use std::io::{ErrorKind, Read, Write};
use std::rt::Env;

/// A reader of std, with a count of its errors.
#[derive(Drop)]
pub struct StandardIn<R: Read + Drop> {
    inner: R,
    faults: u64,
}

impl<R: Read + Drop> StandardIn<R> {
    /// No fault so far.
    pub fn new(inner: R) -> StandardIn<R>
        ensures { result ≡ record { inner = inner; faults = 0 } }
    {
        StandardIn { inner, faults: 0 }
    }
}

impl<R: Read + Drop> Source for StandardIn<R> {
    ghost left = { λ s. R.remaining s.inner };

    ghost fault_count = { λ s. s.faults };

    fn read(&mut self, buf: &mut [u8]) -> Result<usize, Failed> {
        match self.inner.read(buf) {
            Ok(count) => Ok(count),
            Err(_) => {
                self.faults = self.faults.saturating_add(1);
                Err(Failed)
            }
        }
    }

    fn faults(&self) -> u64 {
        self.faults
    }
}

/// A writer of std, with a count of its errors. A write that takes nothing of a piece is one.
#[derive(Drop)]
pub struct StandardOut<W: Write + Drop> {
    inner: W,
    faults: u64,
}

impl<W: Write + Drop> StandardOut<W> {
    /// No fault so far.
    pub fn new(inner: W) -> StandardOut<W>
        ensures { result ≡ record { inner = inner; faults = 0 } }
    {
        StandardOut { inner, faults: 0 }
    }
}

impl<W: Write + Drop> Sink for StandardOut<W> {
    ghost held = { λ s. W.contents s.inner };

    ghost fault_count = { λ s. s.faults };

    fn write(&mut self, piece: &[u8]) -> Result<usize, WriteError> {
        match self.inner.write(piece) {
            Ok(count) => {
                if count == 0 && !piece.is_empty() {
                    self.faults = self.faults.saturating_add(1);
                    return Err(WriteError::Failed);
                }
                Ok(count)
            }
            Err(_) => {
                self.faults = self.faults.saturating_add(1);
                Err(WriteError::Failed)
            }
        }
    }

    fn faults(&self) -> u64 {
        self.faults
    }
}

/// The words that the program was called with, its name first; none at all where one of them is no
/// text.
pub fn arguments<R: AllocGlobal + Env>(rt: &R) -> Result<Vec<String>, NoMemory> {
    match std::env::args(rt) {
        Ok(args) => Ok(args.collect(rt.alloc())?),
        Err(e) if e.kind() == ErrorKind::InvalidData => Ok(Vec::new(rt.alloc())),
        Err(_) => Err(NoMemory),
    }
}
