//! The turns of a watch.

ghost use Rattle.std.specs.Prelude.{◌≡◌, ◌≤◌, ◌++◌, IfOk, OnErr, OnOk, option_map};
ghost use Rattle.outside.specs.Causes.{CountsFor, count_after};
ghost use Rattle.outside.specs.Links.{Polls};
ghost use Rattle.outside.specs.Observed.{Stays};
ghost use Rattle.watching.specs.Lines.{change_lines, is_warning, state_lines, warning_lines, warning_news};
ghost use Rattle.watching.specs.Turns.{after_turn, ends, news, round_news, turned, TurnEnds};
ghost use Rattle.watching.specs.Watching.{round};
ghost use Rattle.watching.specs.Screens.{clearing, drawn, last_lines};
ghost use Rattle.watching.specs.Turns as turns;
ghost use Rattle.watching.specs.declared.running.WatchError.TheVariants as errors;

use crate::lines::{Change, State, Warning, change_line, over_line, state_line, warning_line};
use crate::running::WatchError;
use crate::watch::Watch;
use nop_types::{Bytes, NoMemory};
use outside::{Link, LinkError, Sink, WriteError, write_all};
use roll_call::Roll;
use std::alloc::Global;

/// How long nothing may be told where one state is asked for, in milliseconds.
pub(crate) const WAIT_MILLIS: u64 = 5000;

const _: () = prove!(WAIT_MILLIS == 5000);

fn put_change(replicas: u8, change: Option<Change>, to: &mut Vec<u8>) -> Result<(), NoMemory>
    requires { 1 ≤ replicas }
    ensures { OnOk result (to.new.items ≡ to.old.items ++ change_lines replicas change) }
{
    match change {
        Some(change) => change_line(replicas, &change, to),
        None => Ok(()),
    }
}

fn put_state(replicas: u8, state: Option<State>, to: &mut Vec<u8>) -> Result<(), NoMemory>
    requires { 1 ≤ replicas }
    ensures { OnOk result (to.new.items ≡ to.old.items ++ state_lines replicas state) }
{
    match state {
        Some(state) => state_line(replicas, &state, to),
        None => Ok(()),
    }
}

fn is_warning(before: Option<Warning>, warning: Warning) -> bool
    ensures { result ≡ is_warning before warning }
{
    match before {
        Some(before) => before.controller == warning.controller && before.since == warning.since,
        None => false,
    }
}

/// What a round writes of the warning before it and the one behind it.
fn put_warning_news(
    now: u64,
    before: Option<Warning>,
    warning: Option<Warning>,
    to: &mut Vec<u8>,
) -> Result<(), NoMemory>
    ensures { OnOk result (to.new.items ≡ to.old.items ++ warning_news now before warning) }
{
    match warning {
        Some(warning) => {
            if is_warning(before, warning) {
                Ok(())
            } else {
                warning_line(&warning, to)
            }
        }
        None => match before {
            Some(_) => over_line(now, to),
            None => Ok(()),
        },
    }
}

fn put_warning(warning: Option<Warning>, to: &mut Vec<u8>) -> Result<(), NoMemory>
    ensures { OnOk result (to.new.items ≡ to.old.items ++ warning_lines warning) }
{
    match warning {
        Some(warning) => warning_line(&warning, to),
        None => Ok(()),
    }
}

/// A round, where it is time for one, and its lines.
fn put_round(watch: &mut Watch, now: u64, to: &mut Vec<u8>) -> Result<(), NoMemory>
    ensures watch { OnOk result (watch.new ≡ round watch.old now) }
    ensures lines { OnOk result (to.new.items ≡ to.old.items ++ round_news watch.old now) }
    ensures redraws { watch.new.redraws ≡ watch.old.redraws }
{
    if !watch.roll().is_due(now) {
        return Ok(());
    }
    let before = watch.warned();
    watch.roll().put_news(now, to)?;
    watch.round(now);
    put_warning_news(now, before, watch.warned(), to)
}

/// The cursor goes to the first place of a screen, and all that stands on it is erased.
const CLEARING: &[u8; 6] = b"\x1b[H\x1b[J";

/// Appends the lines of what was shown last: of the change, of how nodes stand, of the warning and
/// of the state, each where there is one.
pub fn put_last_lines(watch: &Watch, to: &mut Vec<u8>) -> Result<(), NoMemory>
    ensures { OnOk result (to.new.items ≡ to.old.items ++ last_lines watch.now) }
{
    let replicas = watch.replicas();
    put_change(replicas, watch.changed(), to)?;
    watch.roll().put_standings(to)?;
    put_warning(watch.warned(), to)?;
    put_state(replicas, watch.shown(), to)
}

/// The lines of what was shown last, on a screen from which all else is erased.
fn put_screen(watch: &Watch, to: &mut Vec<u8>) -> Result<(), NoMemory>
    ensures { OnOk result (to.new.items ≡ to.old.items ++ (clearing ++ last_lines watch.now)) }
{
    to.extend_from_slice(CLEARING)?;
    put_last_lines(watch, to)
}

/// What is written where these lines are to be shown.
fn drawn(alloc: Global, watch: &Watch, lines: Vec<u8>) -> Result<Vec<u8>, NoMemory>
    ensures { IfOk result (λ text. text.items ≡ drawn watch.now.redraws watch.now lines.items) }
{
    if !watch.redraws() || lines.is_empty() {
        return Ok(lines);
    }
    let mut screen = Vec::new(alloc);
    put_screen(watch, &mut screen)?;
    Ok(screen)
}

/// A datagram is heard, if one came.
fn hear(watch: &mut Watch, now: u64, datagram: Option<&Bytes>) -> Result<Option<Change>, NoMemory>
    ensures watch { OnOk result (watch.new
        ≡ (turns.heard watch.old now (option_map (λ d. d.now) datagram.entry)).0) }
    ensures change { IfOk result (λ r. r
        ≡ (turns.heard watch.old now (option_map (λ d. d.now) datagram.entry)).1) }
    ensures replicas { watch.new.replicas ≡ watch.old.replicas }
    ensures redraws { watch.new.redraws ≡ watch.old.redraws }
{
    match datagram {
        Some(bytes) => watch.hear(now, bytes.as_slice()),
        None => Ok(None),
    }
}

/// What is heard and shown in a turn, by its lines.
fn news_of(
    alloc: Global,
    watch: &mut Watch,
    now: u64,
    datagram: Option<&Bytes>,
) -> Result<Vec<u8>, NoMemory>
    ensures watch { OnOk result (watch.new ≡ turned watch.old
        (record { now = now; datagram = option_map (λ d. d.now) datagram.entry })) }
    ensures lines { IfOk result (λ lines. lines.items ≡ news watch.old
        (record { now = now; datagram = option_map (λ d. d.now) datagram.entry })) }
    ensures redraws { watch.new.redraws ≡ watch.old.redraws }
{
    let replicas = watch.replicas();
    let mut lines = Vec::new(alloc);
    let change = hear(watch, now, datagram)?;
    put_change(replicas, change, &mut lines)?;
    put_round(watch, now, &mut lines)?;
    let state = watch.tick(now);
    put_state(replicas, state, &mut lines)?;
    Ok(lines)
}

/// What a turn writes.
fn text_of(
    alloc: Global,
    watch: &mut Watch,
    now: u64,
    datagram: Option<Bytes>,
) -> Result<Vec<u8>, NoMemory>
    ensures watch { OnOk result (watch.new
        ≡ (after_turn watch.old (record { now = now; datagram = datagram })).0) }
    ensures text { IfOk result (λ text. text.items
        ≡ (after_turn watch.old (record { now = now; datagram = datagram })).1) }
{
    let lines = news_of(alloc, watch, now, datagram.as_ref())?;
    drawn(alloc, watch, lines)
}

/// Sends a node its question. One that is lost is not sent again before the next round.
fn ask_at<L: Link>(roll: &Roll, place: usize, link: &mut L)
    ensures answers { Stays (L.answers link.old) (L.answers link.new) }
    ensures faults { L.fault_count link.new ≡ L.fault_count link.old }
    ensures port { L.own_port link.new ≡ L.own_port link.old }
{
    if let Some(port) = roll.port_at(place) {
        let _lost = link.send(port, &roll.question(port).to_bytes());
    }
}

/// Sends each node its question.
fn ask_all<L: Link>(roll: &Roll, link: &mut L)
    ensures answers { Stays (L.answers link.old) (L.answers link.new) }
    ensures faults { L.fault_count link.new ≡ L.fault_count link.old }
    ensures port { L.own_port link.new ≡ L.own_port link.old }
{
    let count = roll.count();
    for place in 0..count {
        ask_at(roll, place, link);
    }
}

/// Sends each node of the roll its question, where it is time for a round.
pub fn ask<L: Link>(roll: &Roll, now: u64, link: &mut L)
    ensures answers { Stays (L.answers link.old) (L.answers link.new) }
    ensures faults { L.fault_count link.new ≡ L.fault_count link.old }
    ensures port { L.own_port link.new ≡ L.own_port link.old }
{
    if roll.is_due(now) {
        ask_all(roll, link);
    }
}

/// A poll, behind the questions of a round, where it is time for one.
#[tactic(auto, using(crate::proofs::Asking::polls_then))]
fn poll_asked<L: Link>(watch: &Watch, now: u64, link: &mut L) -> Result<Option<Bytes>, LinkError>
    ensures answer { Polls (L.answers link.old) (L.answers link.new) result }
    ensures later { L.fault_count link.old ≤ L.fault_count link.new }
    ensures count { L.fault_count link.new ≡ count_after result (L.fault_count link.old) }
    ensures port { L.own_port link.new ≡ L.own_port link.old }
{
    ask(watch.roll(), now, link);
    link.poll()
}

/// Takes a turn: a poll, and the lines that are to be shown then, in one write.
pub(crate) fn take_turn<L: Link, W: Sink>(
    alloc: Global,
    watch: &mut Watch,
    now: u64,
    link: &mut L,
    sink: &mut W,
) -> Result<(), WatchError>
    ensures turn { TurnEnds watch.old watch.new now (L.answers link.old) (L.answers link.new)
        (W.held sink.old) (W.held sink.new) result }
    ensures polls { CountsFor (L.fault_count link.old) (L.fault_count link.new)
        errors.LinkFault result }
    ensures writes { CountsFor (W.fault_count sink.old) (W.fault_count sink.new)
        errors.WriteFault result }
    ensures port { L.own_port link.new ≡ L.own_port link.old }
{
    let datagram = match poll_asked(watch, now, link) {
        Ok(datagram) => datagram,
        Err(LinkError::Failed) => return Err(WatchError::LinkFault),
        Err(LinkError::NoMemory) => return Err(WatchError::NoMemory),
    };
    let text = text_of(alloc, watch, now, datagram)?;
    match write_all(sink, &text) {
        Ok(()) => Ok(()),
        Err(WriteError::Failed) => Err(WatchError::WriteFault),
        Err(WriteError::NoMemory) => Err(WatchError::NoMemory),
    }
}

/// Whether one state was asked for, and it was shown, or nothing was told for as long as is waited.
pub(crate) fn ends(once: bool, watch: &Watch, now: u64) -> bool
    ensures { result ≡ ends once watch.now now }
{
    once && (watch.has_shown() || (!watch.has_seen() && now >= WAIT_MILLIS))
}
