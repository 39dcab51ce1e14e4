//! A watch of a cluster: the view and length that leaders tell, and what is shown of them.
ghost use Rattle.std.specs.Prelude.{◌≡◌, ◌≤◌, IfOk, OnErr, OnOk, Some};
ghost use Rattle.std.specs.Option.{is_some};
ghost use Rattle.watching.specs.Watching.{hear, opening, round, tick, told, warning_of};

use crate::lines::{Change, State, Warning, controller_of};
use crate::seen::{SECOND_MILLIS, Seen, change_by, is_news, seen_after};
use crate::telling::{Telling, told_by};
use fragments::Reassembly;
use nop_types::{Config, NoMemory};
use roll_call::Roll;
use std::alloc::Global;
use std::marker::Model;

/// A warning, where the controller that gave out the session in use is silent.
fn warning_of(seen: Option<Seen>, roll: &Roll) -> Option<Warning>
    ensures { result ≡ warning_of seen roll.now }
{
    let seen = seen?;
    let controller = controller_of(seen.known.view.session);
    match roll.silent_since(controller) {
        Some(since) => Some(Warning { controller, since }),
        None => None,
    }
}

/// What is seen of a cluster, and what was shown of it.
#[derive(Drop)]
pub struct Watch {
    alloc: Global,
    config: Config,
    redraws: bool,
    kept: Reassembly,
    seen: Option<Seen>,
    changed: Option<Change>,
    shown: Option<State>,
    roll: Roll,
    warned: Option<Warning>,
}

impl Model for Watch {
    ghost use Rattle.std.specs.Prelude.{◌≡◌, length};
    ghost use Rattle.watching.specs.Watching.{Watching};

    ghost Value = { Watching };

    ghost view = { λ w. record {
      replicas = w.config.replicas;
      redraws = w.redraws;
      kept = w.kept;
      seen = w.seen;
      changed = w.changed;
      shown = w.shown;
      roll = w.roll;
      warned = w.warned;
    } };

    ghost invariant = { λ w. length w.kept ≡ w.config.replicas };
}

impl Watch {
    /// Nothing is seen yet of a cluster of so many replicas. Lines are written over those before, or behind them. The nodes of the roll
    /// are to be asked.
    pub fn new(alloc: Global, config: Config, redraws: bool, roll: Roll) -> Result<Watch, NoMemory>
        ensures { IfOk result (λ w. w ≡ opening redraws config.replicas roll) }
    {
        let kept = Reassembly::new(alloc, config.replicas())?;
        Ok(Watch {
            alloc,
            config,
            redraws,
            kept,
            seen: None,
            changed: None,
            shown: None,
            roll,
            warned: None,
        })
    }

    /// How many replicas there are.
    pub fn replicas(&self) -> u8
        ensures count { result ≡ self.now.replicas }
        ensures some { 1 ≤ result }
    {
        self.config.replicas()
    }

    /// Whether lines are written over those before.
    pub fn redraws(&self) -> bool
        ensures { result ≡ self.now.redraws }
    {
        self.redraws
    }

    /// The change that was shown last.
    pub fn changed(&self) -> Option<Change>
        ensures { result ≡ self.now.changed }
    {
        self.changed
    }

    /// The state that was shown last.
    pub fn shown(&self) -> Option<State>
        ensures { result ≡ self.now.shown }
    {
        self.shown
    }

    /// The nodes that are asked.
    pub fn roll(&self) -> &Roll
        ensures { result.now ≡ self.now.roll }
    {
        &self.roll
    }

    /// The warning that was shown last.
    pub fn warned(&self) -> Option<Warning>
        ensures { result ≡ self.now.warned }
    {
        self.warned
    }

    /// Makes a round of questions, where it is time for one.
    pub fn round(&mut self, now: u64)
        ensures { self.new ≡ round self.old now }
    {
        if self.roll.is_due(now) {
            self.roll.turn(now);
            self.warned = warning_of(self.seen, &self.roll);
        }
    }

    /// Whether something was told.
    pub fn has_seen(&self) -> bool
        ensures { result ≡ is_some self.now.seen }
    {
        self.seen.is_some()
    }

    /// Whether a state was shown.
    pub fn has_shown(&self) -> bool
        ensures { result ≡ is_some self.now.shown }
    {
        self.shown.is_some()
    }

    fn take(&mut self, now: u64, telling: Telling) -> Option<Change>
        ensures watch { self.new ≡ (told self.old now (Some telling)).0 }
        ensures change { result ≡ (told self.old now (Some telling)).1 }
    {
        let change = change_by(self.seen, now, telling);
        self.seen = Some(seen_after(self.seen, now, telling));
        self.changed = change.or(self.changed);
        change
    }

    /// Takes a datagram that came at this time, in milliseconds. Gives the change of the view, where it rises. At an error what
    /// is seen and shown stays, and the message that the datagram is of may be lost.
    pub fn hear(&mut self, now: u64, bytes: &[u8]) -> Result<Option<Change>, NoMemory>
        ensures watch { OnOk result (self.new ≡ (hear self.old now bytes.now).0) }
        ensures change { IfOk result (λ r. r ≡ (hear self.old now bytes.now).1) }
        ensures err { OnErr result (self.new ≡ record self.old { kept = self.new.kept }) }
    {
        let told = told_by(self.alloc, self.config, &mut self.kept, bytes)?;
        self.roll.hear(now, bytes);
        match told {
            Some(telling) => Ok(self.take(now, telling)),
            None => Ok(None),
        }
    }

    /// It is so late. Gives the state where a second is over, and there is something to show.
    pub fn tick(&mut self, now: u64) -> Option<State>
        ensures watch { self.new ≡ (tick self.old now).0 }
        ensures state { result ≡ (tick self.old now).1 }
    {
        let seen = self.seen?;
        if now.saturating_sub(seen.since) < SECOND_MILLIS {
            return None;
        }
        let state = seen.state_at(now);
        self.seen = Some(seen.next_second(now));
        if !is_news(self.shown, state) {
            return None;
        }
        self.shown = Some(state);
        Some(state)
    }
}
