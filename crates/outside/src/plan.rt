ghost use Rattle.std.specs.Prelude.{◌≡◌, ◌≤◌, ◌<◌, ℕ, Bool, Result, IfOk};
ghost use Rattle.outside.specs.Causes.{Rose, count_after_read};
ghost use Rattle.outside.specs.declared.errors.Failed.{Failed};

use crate::{Failed, Link, LinkMem, Ports, PortsMem, ReadMem, Sink, Source, WriteMem};
use nop_types::NoMemory;
use std::alloc::Global;
use std::marker::Model;

/// What the calls on a form in memory do: how many bytes each one moves, and which fail. Forms that never fail are of a type
/// of their own, so that each of their counts of faults is 0 whatever is called on them.
pub trait CallPlan: Drop {
    /// Whether calls may fail.
    ghost may_fail: { Bool };

    /// Each call moves all that it could, and none was made.
    ghost opening: { Self };

    /// How many calls failed so far.
    ghost fault_count: { Self → ℕ };

    /// What the next call answers, where this many bytes could be moved.
    ghost next_answer: { Self → ℕ → Result ℕ Failed };

    /// The plan after that call.
    ghost after_call: { Self → ℕ → Self };

    /// A plan by which each call moves all that it could.
    fn new_opening(alloc: Global) -> Result<Self, NoMemory>
        ensures plan { IfOk result (λ p. p ≡ opening) }
        ensures count { IfOk result (λ p. fault_count p ≡ 0) };

    /// What the next call answers, where `count` bytes could be moved.
    fn answer(&self, count: usize) -> Result<usize, Failed>
        ensures answer { result ≡ next_answer self.now count }
        ensures most { IfOk result (λ n. n ≤ count) }
        ensures some { IfOk result (λ n. 0 < count → 0 < n) };

    /// Counts that call as made.
    fn advance(&mut self, count: usize)
        ensures after { self.new ≡ after_call self.old count }
        ensures later { fault_count self.old ≤ fault_count self.new }
        ensures count { fault_count self.new
            ≡ count_after_read (next_answer self.old count) (fault_count self.old) };

    /// How many calls failed so far.
    fn faults(&self) -> u64
        ensures { result ≡ fault_count self.now };
}

/// Calls that never fail, and move at most `most` bytes each: at least 1.
#[derive(Clone, Copy, PartialEq, Eq)]
pub struct Unfailing {
    most: usize,
}

impl Model for Unfailing {
    ghost use Rattle.std.specs.Prelude.{ℕ, ◌≤◌};

    ghost Value = { ℕ };

    ghost view = { λ p. p.most };

    ghost invariant = { λ p. 1 ≤ p.most };

    ghost inverse = { λ n. record { most = n } };
}

impl Unfailing {
    pub(crate) fn new(most: usize) -> Unfailing
        requires { 1 ≤ most }
        ensures { result ≡ most }
    {
        Unfailing { most }
    }
}

impl CallPlan for Unfailing {
    ghost use Rattle.std.specs.Prelude.{◌^◌, ◌-◌, false, Ok, min};

    ghost may_fail = { false };

    ghost opening = { 2 ^ 64 - 1 };

    ghost fault_count = { λ _. 0 };

    ghost next_answer = { λ p count. Ok (min count p) };

    ghost after_call = { λ p _. p };

    fn new_opening(_alloc: Global) -> Result<Unfailing, NoMemory> {
        Ok(Unfailing::new(usize::MAX))
    }

    fn answer(&self, count: usize) -> Result<usize, Failed> {
        Ok(count.min(self.most))
    }

    fn advance(&mut self, _count: usize) {}

    fn faults(&self) -> u64 {
        0
    }
}

/// Calls that move at most `most` bytes each, and of which those with the numbers `failing` fail. Calls count from 1, up to
/// the greatest number of 64 bits, which all later ones have. Where a call may move no bytes, one that could move some
/// fails.
#[derive(Drop)]
pub struct Failing {
    most: usize,
    failing: Vec<u64>,
    made: u64,
    faults: u64,
}

impl Model for Failing {
    ghost use Rattle.outside.specs.Plans.{FailingPlan};

    ghost Value = { FailingPlan };

    ghost view = { λ p. record {
      most = p.most;
      failing = p.failing.items;
      made = p.made;
      faults = p.faults;
    } };
}

impl Failing {
    ghost use Rattle.outside.specs.Plans.{new_plan, fails};

    /// The numbers of the calls that fail come in any order.
    pub(crate) fn new(alloc: Global, most: usize, failing: &[u64]) -> Result<Failing, NoMemory>
        ensures { IfOk result (λ p. p ≡ new_plan most failing.now) }
    {
        Ok(Failing {
            most,
            failing: Vec::from_slice(alloc, failing)?,
            made: 0,
            faults: 0,
        })
    }

    fn fails(&self, count: usize) -> bool
        ensures { result ≡ fails self.now count }
    {
        let number = self.made.saturating_add(1);
        self.failing.contains(&number) || (self.most == 0 && count > 0)
    }
}

impl CallPlan for Failing {
    ghost use Rattle.std.specs.Prelude.{◌^◌, ◌-◌, true, []};
    ghost use Rattle.outside.specs.Plans.{new_plan, answer_of, plan_after};

    ghost may_fail = { true };

    ghost opening = { new_plan (2 ^ 64 - 1) [] };

    ghost fault_count = { λ p. p.faults };

    ghost next_answer = { answer_of };

    ghost after_call = { plan_after };

    fn new_opening(alloc: Global) -> Result<Failing, NoMemory> {
        Failing::new(alloc, usize::MAX, &[])
    }

    fn answer(&self, count: usize) -> Result<usize, Failed> {
        if self.fails(count) {
            return Err(Failed);
        }
        Ok(count.min(self.most))
    }

    fn advance(&mut self, count: usize) {
        if self.fails(count) {
            self.faults = self.faults.saturating_add(1);
        }
        self.made = self.made.saturating_add(1);
    }

    fn faults(&self) -> u64 {
        self.faults
    }
}

/// A form in memory that never fails has no faults, whatever was called on it. So no count of it ever rises.
pub fn unfailing_has_no_faults()
    ensures reads { (s : _) → ⟦<ReadMem as Source>⟧.fault_count s ≡ 0 }
    ensures writes { (s : _) → ⟦<WriteMem as Sink>⟧.fault_count s ≡ 0 }
    ensures polls { (l : _) → ⟦<LinkMem as Link>⟧.fault_count l ≡ 0 }
    ensures sends { (l : _) → ⟦<LinkMem as Link>⟧.loss_count l ≡ 0 }
    ensures attaches { (p : _) → ⟦<PortsMem as Ports>⟧.fault_count p ≡ 0 }
    ensures source { (a b : _) → ¬ Rose (⟦<ReadMem as Source>⟧.fault_count a)
        (⟦<ReadMem as Source>⟧.fault_count b) }
    ensures sink { (a b : _) → ¬ Rose (⟦<WriteMem as Sink>⟧.fault_count a)
        (⟦<WriteMem as Sink>⟧.fault_count b) }
    ensures ports { (a b : _) → ¬ Rose (⟦<PortsMem as Ports>⟧.fault_count a)
        (⟦<PortsMem as Ports>⟧.fault_count b) }
    ensures link { (l : _) → ¬ Rose 0 (⟦<LinkMem as Link>⟧.fault_count l) }
{}
