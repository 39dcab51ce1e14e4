//! The schedule that is drawn from a number, and its run.

ghost use Rattle.std.specs.Prelude.{◌≡◌, ◌≤◌, ◌+◌, ◌++◌, ◌∷◌, [], IfOk, OnOk};
ghost use Rattle.outside.specs.Causes.{CountsFor};
ghost use Rattle.world.specs.Actors.{Happens};
ghost use Rattle.network.specs.LineCounts.{Shows};
ghost use Rattle.world.specs.WorldSteps.{opening, step};
ghost use Rattle.replay.specs.Generated.{
  drawn_config,
  drawn_events,
  drawn_summary,
  first_event,
  RunsFrom,
  WritesText,
};
ghost use Rattle.replay.specs.Generating.{IsTaken, MayDraw, LedAll, DrawsShown, BeginsShown, KeepsAll};

use crate::drawing::{event, generator, get_of};
use crate::error::GenError;
use crate::summary::put_summary;
use nop_types::{Config, Host, NoMemory};
use outside::{Sink, WriteError, write_all};
use rand_pcg::Lcg64Xsh32;
use schedule_text::Event;
use std::alloc::Global;
use world::{Lines, StepError, World};

/// The most events of a schedule that is drawn.
pub const MAX_DRAWN_EVENTS: u32 = 100_000;

// A number that both code and contracts name would be proved whatever it was; so here it stands once more.
const _: () = prove!(MAX_DRAWN_EVENTS == 100_000);

fn drawn_config() -> Config
    ensures { result ≡ drawn_config }
{
    match Config::new(5, 2, 4, 1, 0) {
        Some(config) => config,
        None => unreachable!(),
    }
}

/// An event that is not refused happens.
fn happen<H: Host>(world: &mut World<H>, event: &Event) -> Result<Lines, NoMemory>
    requires { IsTaken (step H.meaning world.old.state event.now) }
    ensures { IfOk result (Happens (step H.meaning world.old.state event.now) world.new.state) }
{
    match world.step(event) {
        Ok(lines) => Ok(lines),
        Err(StepError::NoMemory) => Err(NoMemory),
        Err(_) => unreachable!(),
    }
}

/// An event that happened, and its lines.
#[derive(Drop)]
struct Drawn {
    event: Event,
    lines: Lines,
}

/// The first event, which is the same for each number.
fn first_drawn<H: Host>(alloc: Global, world: &mut World<H>) -> Result<Drawn, NoMemory>
    requires { world.old.state ≡ opening drawn_config }
    ensures { IfOk result (λ d. BeginsShown H.meaning d.event world.new.state d.lines) }
{
    let event = Event::Submit(0, get_of(alloc, b'a')?);
    let lines = happen(world, &event)?;
    Ok(Drawn { event, lines })
}

/// The next event.
fn next_drawn<H: Host>(
    alloc: Global,
    words: &mut Lcg64Xsh32,
    world: &mut World<H>,
) -> Result<Drawn, NoMemory>
    requires { MayDraw H.meaning world.old.state }
    ensures { IfOk result (λ d. DrawsShown H.meaning world.old.state words.old d.event
        world.new.state words.new d.lines) }
{
    let event = event(alloc, words, world)?;
    let lines = happen(world, &event)?;
    Ok(Drawn { event, lines })
}

/// Keeps an event that was drawn.
fn keep(drawn: Drawn, events: &mut Vec<Event>) -> Result<(), NoMemory>
    ensures { OnOk result (events.new.items ≡ events.old.items ++ drawn.event ∷ []) }
{
    events.push(drawn.event)?;
    Ok(())
}

/// Draws all events of a number, one after the other, and keeps them.
fn keep_all<H: Host>(
    alloc: Global,
    number: u64,
    count: u32,
    world: &mut World<H>,
    events: &mut Vec<Event>,
) -> Result<(), NoMemory>
    requires least { 1 ≤ count }
    requires opening { world.old.state ≡ opening drawn_config }
    requires none { events.old.items ≡ [] }
    ensures { OnOk result (KeepsAll H.meaning number count events.new.items) }
{
    let mut words = generator(number);
    keep(first_drawn(alloc, world)?, events)?;
    for _done in 1..count {
        keep(next_drawn(alloc, &mut words, world)?, events)?;
    }
    Ok(())
}

/// All events of a number.
fn all_drawn<H: Host>(alloc: Global, number: u64, count: u32) -> Result<Vec<Event>, NoMemory>
    requires { 1 ≤ count }
    ensures { IfOk result (λ v. KeepsAll H.meaning number count v.items) }
{
    let mut world: World<H> = World::new(alloc, drawn_config())?;
    let mut events = Vec::new(alloc);
    keep_all(alloc, number, count, &mut world, &mut events)?;
    Ok(events)
}

/// How many lines of a run are sends and accepts.
#[derive(Clone, Copy)]
pub struct Counts {
    pub sends: u64,
    pub accepts: u64,
}

/// A sum past its type answers NoMemory, since no memory holds that many lines.
fn added(sum: u64, more: u32) -> Result<u64, NoMemory>
    ensures { IfOk result (λ n. n ≡ sum + more) }
{
    match sum.checked_add(u64::from(more)) {
        Some(n) => Ok(n),
        None => Err(NoMemory),
    }
}

/// The counts with the lines of one more event.
fn counted(counts: Counts, drawn: Drawn) -> Result<Counts, NoMemory>
    ensures sends { IfOk result (λ c. c.sends ≡ counts.sends + drawn.lines.sends) }
    ensures accepts { IfOk result (λ c. c.accepts ≡ counts.accepts + drawn.lines.accepts) }
{
    let sends = added(counts.sends, drawn.lines.sends)?;
    let accepts = added(counts.accepts, drawn.lines.accepts)?;
    Ok(Counts { sends, accepts })
}

/// The counts of all events of a number, which lead to the world after them; none of them is kept.
fn count_all<H: Host>(
    alloc: Global,
    number: u64,
    count: u32,
    world: &mut World<H>,
) -> Result<Counts, NoMemory>
    requires least { 1 ≤ count }
    requires opening { world.old.state ≡ opening drawn_config }
    ensures { IfOk result (λ c. LedAll H.meaning number count world.new.state c.sends c.accepts) }
{
    let mut words = generator(number);
    let none = Counts {
        sends: 0,
        accepts: 0,
    };
    let mut counts = counted(none, first_drawn(alloc, world)?)?;
    for _done in 1..count {
        counts = counted(counts, next_drawn(alloc, &mut words, world)?)?;
    }
    Ok(counts)
}

/// The configuration and the events of a schedule that is drawn from a number, from 1 to `MAX_DRAWN_EVENTS` of them. None of them is
/// refused. The ops are those of the key-value service, whatever the host.
pub fn events<H: Host>(
    alloc: Global,
    number: u64,
    count: u32,
) -> Result<(Config, Vec<Event>), NoMemory>
    requires least { 1 ≤ count }
    requires limit { count ≤ MAX_DRAWN_EVENTS }
    ensures config { IfOk result (λ p. p.0 ≡ drawn_config) }
    ensures events { IfOk result (λ p. p.1.items ≡ drawn_events H.meaning number count) }
    ensures run { IfOk result (λ p. RunsFrom H.meaning p.0 p.1.items) }
{
    let events = all_drawn::<H>(alloc, number, count)?;
    Ok((drawn_config(), events))
}

fn summarise<H: Host>(
    alloc: Global,
    number: u64,
    count: u32,
    to: &mut Vec<u8>,
) -> Result<(), NoMemory>
    requires { 1 ≤ count }
    ensures { OnOk result (to.new.items ≡ to.old.items ++ drawn_summary H.meaning number count) }
{
    let mut world: World<H> = World::new(alloc, drawn_config())?;
    let counts = count_all(alloc, number, count, &mut world)?;
    put_summary(number, count, &world, counts, to)
}

fn write_text<K: Sink>(text: &[u8], sink: &mut K) -> Result<(), GenError>
    ensures writes { WritesText (K.held sink.old) (K.held sink.new) text.now result }
    ensures count { CountsFor (K.fault_count sink.old) (K.fault_count sink.new)
        GenError.WriteFault result }
{
    match write_all(sink, text) {
        Ok(()) => Ok(()),
        Err(WriteError::Failed) => Err(GenError::WriteFault),
        Err(WriteError::NoMemory) => Err(GenError::NoMemory),
    }
}

/// Writes the summary of the run of a schedule that is drawn from a number, with from 1 to `MAX_DRAWN_EVENTS` events. What was written
/// before an error stays.
pub fn generate<H: Host, K: Sink>(
    alloc: Global,
    number: u64,
    count: u32,
    sink: &mut K,
) -> Result<(), GenError>
    requires least { 1 ≤ count }
    requires limit { count ≤ MAX_DRAWN_EVENTS }
    ensures writes { WritesText (K.held sink.old) (K.held sink.new)
        (drawn_summary H.meaning number count) result }
    ensures count { CountsFor (K.fault_count sink.old) (K.fault_count sink.new)
        GenError.WriteFault result }
{
    let mut text = Vec::new(alloc);
    summarise::<H>(alloc, number, count, &mut text)?;
    write_text(&text, sink)
}
