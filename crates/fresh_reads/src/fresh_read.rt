ghost use Rattle.std.specs.Prelude.{◌≡◌, [], false, IfOk, OnOk};
ghost use Rattle.std.specs.List.{list_any};
ghost use Rattle.nop_types.specs.Given.{given, Ticked};
ghost use Rattle.nop_types.specs.declared.input.Tick.TheVariants as ticks;
ghost use Rattle.fresh_reads.specs.FreshReads.{asks_again, is_fresh, next, opening, turned};

use client_quorum::Client;
use nop_types::{Config, Core, Input, Key, NoMemory, Out, Outbox, Tick, end_step};
use std::alloc::Global;
use std::marker::Model;

/// A client that asks an observer for a key, and asks again while the answers are behind a position.
pub struct FreshRead {
    alloc: Global,
    failed: bool,
    client: Client,
    observer: u8,
    key: Key,
    least: u32,
    reached: bool,
}

// By hand, so that a crate with one proves nothing on how its parts are dropped.
impl Drop for FreshRead {
    fn drop(self) {
        let FreshRead {
            alloc: _alloc,
            failed: _failed,
            client: _client,
            observer: _observer,
            key: _key,
            least: _least,
            reached: _reached,
        } = self;
    }
}

impl Model for FreshRead {
    ghost use Rattle.std.specs.Coded.{codes};
    ghost use Rattle.nop_types.specs.Machine.{Machine};
    ghost use Rattle.client_quorum.specs.Code.{reads_code};
    ghost use Rattle.fresh_reads.specs.Code.{requests_code};
    ghost use Rattle.fresh_reads.specs.FreshReads as fresh;

    ghost Value = { Machine fresh.FreshRead };

    ghost coded = { Prim.hlevel (codes, requests_code, reads_code) };

    ghost view = { λ c. record {
      failed = c.failed;
      state = record {
        client = c.client.state;
        observer = c.observer;
        key = c.key;
        least = c.least;
        reached = c.reached;
      };
    } };
}

/// What the client takes for an input: where it asks again, the key at the tick Retry.
fn turned<'a>(asks: bool, observer: u8, key: &'a Key, input: Input<'a>) -> Input<'a>
    ensures { given result ≡ turned asks observer key.now (given input.entry) }
{
    match input {
        Input::Tick(Tick::Retry) => retry(asks, observer, key),
        _ => input,
    }
}

fn retry(asks: bool, observer: u8, key: &Key) -> Input<'_>
    ensures { given result ≡ turned asks observer key.now (Ticked ticks.Retry) }
{
    if asks {
        return Input::Read(observer, key);
    }
    Input::Tick(Tick::Retry)
}

fn is_fresh(least: u32, out: &Out) -> bool
    ensures { result ≡ is_fresh least out.now }
{
    match out {
        Out::Answered { position, .. } => least <= *position,
        _ => false,
    }
}

fn has_fresh(least: u32, outs: &[Out]) -> bool
    ensures { result ≡ list_any (λ o. is_fresh least o) outs.now }
{
    outs.iter().any(|out| is_fresh(least, out))
}

impl FreshRead {
    /// A client without ops, which asks this observer for the key until an answer's position is not below `least`.
    pub fn new(
        alloc: Global,
        config: Config,
        number: u32,
        observer: u8,
        key: Key,
        least: u32,
    ) -> Result<FreshRead, NoMemory>
        ensures { IfOk result (λ c. c ≡ record {
          failed = false;
          state = opening config number observer key least;
        }) }
    {
        let client = Client::new(alloc, config, number, Vec::new(alloc))?;
        Ok(FreshRead {
            alloc,
            failed: false,
            client,
            observer,
            key,
            least,
            reached: false,
        })
    }

    fn asks_again(&self) -> bool
        ensures { result ≡ asks_again self.now.state }
    {
        self.client.done() && !self.reached
    }

    /// The client takes a step; where memory runs out, it may be anything.
    fn act(&mut self, input: Input<'_>, out: &mut Outbox) -> Result<(), NoMemory>
        requires { out.old ≡ [] }
        ensures state { OnOk result (self.new.state
            ≡ (next self.old.state (given input.entry)).0) }
        ensures out { OnOk result (out.new ≡ (next self.old.state (given input.entry)).1) }
        ensures well { self.new.failed ≡ self.old.failed }
    {
        let input = turned(self.asks_again(), self.observer, &self.key, input);
        self.client.step(input, out)?;
        self.reached = self.reached || has_fresh(self.least, out.as_slice());
        Ok(())
    }
}

impl Core for FreshRead {
    ghost use Rattle.fresh_reads.specs.FreshReads as fresh;
    ghost use Rattle.fresh_reads.specs.FreshReads.{next, timers, is_done};

    ghost State = { fresh.FreshRead };

    ghost state = { λ c. c.state };

    ghost has_failed = { λ c. c.failed };

    ghost next = { next };

    ghost timers = { timers };

    ghost is_done = { is_done };

    fn step(&mut self, input: Input<'_>, out: &mut Outbox) -> Result<(), NoMemory> {
        if self.failed {
            return Err(NoMemory);
        }
        let mut made = Outbox::new(self.alloc);
        let acted = self.act(input, &mut made);
        end_step(acted, made, out, &mut self.failed)
    }

    fn timer(&self, i: u8) -> Option<(Tick, u64)> {
        self.client.timer(i)
    }

    fn done(&self) -> bool {
        self.reached
    }
}
