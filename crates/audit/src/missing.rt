//! The outputs of a step that are still to come.

ghost use Rattle.std.specs.Prelude.{◌≡◌, ◌+◌, ◌<◌, ℕ, List, [], IfSome, IsSome, IsTrue, MatchOption};
ghost use Rattle.std.specs.List.{list_all};
ghost use Rattle.nop_types.specs.Lines.{Line};
ghost use Rattle.nop_types.specs.declared.output.Actor.{Actor};
ghost use Rattle.audit.specs.Steps.{AreMissing, ComesNext, NoneComes};
ghost use Rattle.audit_laws.specs.Audits.{is_none};
ghost use Rattle.network.specs.Network.{did_of, lines_by};
ghost use Rattle.world.specs.Untrimmed.{has_line};

use nop_types::{Out, Outbox};
use std::alloc::Global;

/// What an actor gave, None where it had crashed, and how many outputs of it came already.
#[derive(Drop)]
pub struct Missing {
    gave: Option<Outbox>,
    came: usize,
}

impl Missing {
    /// Nothing is missing.
    pub fn new(alloc: Global) -> Missing
        ensures { (a : Actor) → AreMissing a result [] }
    {
        Missing::of(Some(Outbox::new(alloc)))
    }

    /// All that a step gave.
    pub fn of(gave: Option<Outbox>) -> Missing
        requires { IfSome gave (λ os. IsTrue (list_all has_line os)) }
        ensures { (a : Actor) (count : ℕ) → AreMissing a result (lines_by a count (did_of gave)) }
    {
        Missing { gave, came: 0 }
    }

    pub fn is_none(&self) -> bool
        ensures { (a : Actor) (ls : List Line) → AreMissing a self.now ls
            → result ≡ is_none ls }
    {
        match &self.gave {
            Some(outs) => outs.as_slice().len() <= self.came,
            None => false,
        }
    }

    /// The next output. A crashed actor gives none, though its line is missing.
    pub fn next(&self) -> Option<&Out>
        ensures next { MatchOption result
            ((a : Actor) (ls : List Line) → AreMissing a self.now ls → NoneComes a ls)
            (λ out. (a : Actor) (ls : List Line) → AreMissing a self.now ls
            → ComesNext a self.now out.now ls) }
        ensures room { IsSome result → self.now.came < usize.MAX }
    {
        match &self.gave {
            Some(outs) => outs.as_slice().get(self.came),
            None => None,
        }
    }

    /// The next output came.
    pub fn pass(&mut self)
        requires { self.old.came < usize.MAX }
        ensures gave { self.new.gave ≡ self.old.gave }
        ensures came { self.new.came ≡ self.old.came + 1 }
    {
        self.came += 1;
    }
}
