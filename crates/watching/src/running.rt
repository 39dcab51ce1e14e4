//! A watch over its devices.

ghost use Rattle.std.specs.Prelude.{◌≡◌, ◌+◌, length, option_map, Err};
ghost use Rattle.outside.specs.Causes.{CountsFor};
ghost use Rattle.outside.specs.Ports.{next_link};
ghost use Rattle.watching.specs.Turns.{WatchedBy};
ghost use Rattle.watching.specs.Watching.{opening};
ghost use Rattle.watching.specs.declared.running.WatchError.TheVariants as errors;

use crate::asked::Asked;
use crate::turns::{ends, take_turn};
use crate::watch::Watch;
use nop_types::{Config, NoMemory};
use outside::{AttachError, Clock, Link, Ports, Sink};
use roll_call::Roll;
use std::alloc::Global;

/// Why a watch ended before its turns were taken or its state was shown.
#[derive(Clone, Copy, PartialEq, Eq)]
pub enum WatchError {
    /// The port could not be opened.
    PortFault,
    /// A poll failed.
    LinkFault,
    /// A write failed.
    WriteFault,
    /// Memory ran out.
    NoMemory,
}

impl From<NoMemory> for WatchError {
    ghost from_gives = { λ _ e. e ≡ errors.NoMemory };

    fn from(_e: NoMemory) -> WatchError {
        WatchError::NoMemory
    }
}

/// Watches over a link.
fn watch_over<L: Link, C: Clock, W: Sink>(
    alloc: Global,
    config: Config,
    asked: Asked,
    roll: Roll,
    link: &mut L,
    clock: &mut C,
    sink: &mut W,
) -> Result<bool, WatchError>
    ensures watched { WatchedBy asked.once asked.turns
        (opening asked.redraws config.replicas roll) (L.answers link.old)
        (C.values clock.old) (W.held sink.old) (W.held sink.new) result }
    ensures attached { ¬ (result ≡ Err errors.PortFault) }
    ensures polls { CountsFor (L.fault_count link.old) (L.fault_count link.new)
        errors.LinkFault result }
    ensures writes { CountsFor (W.fault_count sink.old) (W.fault_count sink.new)
        errors.WriteFault result }
    ensures port { L.own_port link.new ≡ L.own_port link.old }
{
    let mut watch = Watch::new(alloc, config, asked.redraws, roll)?;
    let begun = clock.now();
    let mut now = begun;
    let mut taken = 0;
    while taken < asked.turns {
        let time = now.saturating_sub(begun);
        match take_turn(alloc, &mut watch, time, link, sink) {
            Ok(()) => {}
            Err(e) => return Err(e),
        }
        taken += 1;
        if ends(asked.once, &watch, time) {
            return Ok(watch.has_shown());
        }
        now = now.max(clock.now());
    }
    Ok(watch.has_shown())
}

/// Watches a cluster of so many replicas at a port, that of an observer, and writes lines of changes and states, as `specs/Watching`
/// says, over those before where `redraws` is asked for. Times are in milliseconds since it began. Where `once` is, it ends behind the
/// first line of a state, a second after something was told first, or after five seconds in which nothing is. It takes at most as many
/// turns as are asked for, of about a millisecond each over sockets. Says whether a state was shown. Nothing is sent but what the
/// nodes of the roll are asked each second.
pub fn watch_cluster<P: Ports, C: Clock, W: Sink>(
    alloc: Global,
    config: Config,
    port: u16,
    asked: Asked,
    roll: Roll,
    ports: &mut P,
    clock: &mut C,
    sink: &mut W,
) -> Result<bool, WatchError>
    ensures watched { WatchedBy asked.once asked.turns (opening asked.redraws config.replicas roll)
        (option_map next_link (P.to_come ports.old)) (C.values clock.old)
        (W.held sink.old) (W.held sink.new) result }
    ensures attaches { CountsFor (P.fault_count ports.old) (P.fault_count ports.new)
        errors.PortFault result }
    ensures writes { CountsFor (W.fault_count sink.old) (W.fault_count sink.new)
        errors.WriteFault result }
    ensures back { P.attached ports.new + length (P.detached ports.old)
        ≡ P.attached ports.old + length (P.detached ports.new) }
{
    match ports.attach(port) {
        Ok(link) => {
            let mut link = link;
            let shown = watch_over(alloc, config, asked, roll, &mut link, clock, sink);
            ports.detach(link);
            shown
        }
        Err(AttachError::Failed) => Err(WatchError::PortFault),
        Err(AttachError::NoMemory) => Err(WatchError::NoMemory),
    }
}
