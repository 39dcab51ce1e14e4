ghost use Rattle.std.specs.Prelude.{◌≡◌, ◌<◌, ◌++◌, ◌∷◌, [], drop, length, option_map, slice_get, OnOk, OnErr};
ghost use Rattle.resending.specs.Names.{name_of};

use crate::names::{Name, name_of};
use nop_types::{Bytes, MAX_FRAGMENTS, NoMemory};
use std::alloc::Global;
use std::collections::VecDeque;
use std::marker::Model;

/// The most parts that wait: two messages of the most fragments.
pub const MOST_WAITING: usize = 2 * MAX_FRAGMENTS;

const _: () = prove!(MOST_WAITING == 8192);

/// A part, and the port that it is for.
#[derive(Drop)]
pub struct Part {
    pub port: u16,
    pub name: Name,
    pub bytes: Bytes,
}

/// The parts that wait for a port, in the order in which they came.
#[derive(Drop)]
pub struct Backlog {
    alloc: Global,
    waiting: VecDeque<Part>,
}

impl Model for Backlog {
    ghost use Rattle.std.specs.Prelude.{List, length, ◌≤◌};
    ghost use Rattle.resending.specs.declared.backlog.TheConstants.{MOST_WAITING};
    ghost use Rattle.resending.specs.declared.backlog.Part.{Part};

    ghost Value = { List Part };

    ghost view = { λ b. b.waiting.items };

    ghost invariant = { λ b. length b.waiting.items ≤ MOST_WAITING };
}

impl Backlog {
    /// Nothing waits.
    pub fn new(alloc: Global) -> Backlog
        ensures { result ≡ [] }
    {
        Backlog {
            alloc,
            waiting: VecDeque::new(alloc),
        }
    }

    /// How many wait.
    pub fn len(&self) -> usize
        ensures { result ≡ length self.now }
    {
        self.waiting.len()
    }

    /// One of them, by its place.
    pub fn get(&self, i: usize) -> Option<&Part>
        ensures { option_map (λ part. part.now) result ≡ slice_get self.now i }
    {
        self.waiting.get(i)
    }

    /// One more, at the end.
    pub fn push(&mut self, port: u16, bytes: &[u8]) -> Result<(), NoMemory>
        requires { length self.old < MOST_WAITING }
        ensures ok { OnOk result (self.new ≡ self.old
            ++ record { port = port; name = name_of bytes.now; bytes = bytes.now } ∷ []) }
        ensures err { OnErr result (self.new ≡ self.old) }
    {
        let name = name_of(bytes);
        let bytes = Bytes::new(self.alloc, bytes)?;
        self.waiting.push_back(Part { port, name, bytes })?;
        Ok(())
    }

    /// Takes the first one.
    pub fn pop(&mut self) -> Option<Part>
        ensures first { result ≡ slice_get self.old 0 }
        ensures rest { self.new ≡ drop 1 self.old }
    {
        self.waiting.pop_front()
    }

    /// Nothing waits any more.
    pub fn clear(&mut self)
        ensures { self.new ≡ [] }
    {
        self.waiting.clear();
    }
}
