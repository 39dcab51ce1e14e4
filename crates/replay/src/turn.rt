ghost use Rattle.std.specs.Prelude.{◌≡◌, ◌++◌};
ghost use Rattle.outside.specs.Causes.{CountsFor, CountsWhere};
ghost use Rattle.world.specs.Ending.{final_text};
ghost use Rattle.world.specs.WorldSteps.{step};
ghost use Rattle.replay.specs.Steps.{Writes, Refuses, Stops, Gathers, RefusesFor, TakesEvent};

use crate::error::ReplayError;
use crate::writing::{GATHERED_BYTES, flush};
use nop_types::Host;
use outside::Sink;
use schedule_text::{Event, NextError, Rule};
use transcript_text::error_line;
use world::{StepError, World, final_lines};

/// Writes what was gathered and the error line, in which the rule has its number.
fn refuse<K: Sink>(
    line: u32,
    rule: u8,
    index_sent: Option<(u64, u64)>,
    pending: &mut Vec<u8>,
    sink: &mut K,
) -> ReplayError
    ensures refuses { Refuses (K.held sink.old) (K.held sink.new) pending.old.items
        (record { line = line; rule = rule; index_sent = index_sent }) result }
    ensures count { CountsWhere (K.fault_count sink.old) (K.fault_count sink.new)
        (result ≡ ReplayError.WriteFault) }
{
    if error_line(line, rule, index_sent, pending).is_err() {
        return ReplayError::NoMemory;
    }
    match flush(sink, pending) {
        Ok(()) => ReplayError::Malformed { line, rule },
        Err(e) => e,
    }
}

/// The reader gave no event: what was gathered is written, and the line that is bad is told.
pub fn stop<K: Sink>(error: NextError, pending: &mut Vec<u8>, sink: &mut K) -> ReplayError
    ensures stops { Stops (K.held sink.old) (K.held sink.new) pending.old.items error result }
    ensures count { CountsWhere (K.fault_count sink.old) (K.fault_count sink.new)
        (result ≡ ReplayError.WriteFault) }
{
    match error {
        NextError::BadLine { line, rule } => refuse(line, rule, None, pending, sink),
        NextError::ReadFault => match flush(sink, pending) {
            Ok(()) => ReplayError::ReadFault,
            Err(e) => e,
        },
        NextError::NoMemory => ReplayError::NoMemory,
    }
}

/// Gathers the lines of an event, and writes what was gathered once it is long.
#[tactic(auto, using(crate::proofs::Prefixes::misses_fails))]
fn gather<K: Sink>(text: &[u8], pending: &mut Vec<u8>, sink: &mut K) -> Result<(), ReplayError>
    ensures gathers { Gathers (K.held sink.old) (K.held sink.new) pending.old.items
        pending.new.items text.now result }
    ensures count { CountsFor (K.fault_count sink.old) (K.fault_count sink.new)
        ReplayError.WriteFault result }
{
    pending.extend_from_slice(text)?;
    if pending.len() >= GATHERED_BYTES {
        flush(sink, pending)?;
    }
    Ok(())
}

/// The world did not carry out the event of this line: what was gathered is written, and why the line is bad is told.
fn refuse_event<K: Sink>(
    error: StepError,
    line: u32,
    pending: &mut Vec<u8>,
    sink: &mut K,
) -> ReplayError
    ensures refuses { RefusesFor (K.held sink.old) (K.held sink.new) pending.old.items line error
        result }
    ensures count { CountsWhere (K.fault_count sink.old) (K.fault_count sink.new)
        (result ≡ ReplayError.WriteFault) }
{
    match error {
        StepError::NoSuchActor => {
            let rule = Rule::WrongActor.number();
            refuse(line, rule, None, pending, sink)
        }
        StepError::NoSuchDatagram { index, sent } => {
            let rule = Rule::NoSuchDatagram.number();
            refuse(line, rule, Some((index, sent)), pending, sink)
        }
        StepError::Forged => {
            let rule = Rule::Forged.number();
            refuse(line, rule, None, pending, sink)
        }
        StepError::NoMemory => ReplayError::NoMemory,
    }
}

/// One event; `line` is the number of its line.
pub fn take_event<H: Host, K: Sink>(
    line: u32,
    event: &Event,
    world: &mut World<H>,
    pending: &mut Vec<u8>,
    sink: &mut K,
) -> Result<(), ReplayError>
    ensures takes { TakesEvent (K.held sink.old) (K.held sink.new) pending.old.items
        pending.new.items line (step H.meaning world.old.state event.now) world.new.state result }
    ensures count { CountsFor (K.fault_count sink.old) (K.fault_count sink.new)
        ReplayError.WriteFault result }
{
    match world.step(event) {
        Ok(lines) => gather(lines.text.as_slice(), pending, sink),
        Err(e) => Err(refuse_event(e, line, pending, sink)),
    }
}

/// The end of the input.
#[tactic(auto, using(crate::proofs::Texts::final_unwritten))]
pub fn finish<H: Host, K: Sink>(
    world: &World<H>,
    pending: &mut Vec<u8>,
    sink: &mut K,
) -> Result<(), ReplayError>
    ensures writes { Writes (K.held sink.old) (K.held sink.new)
        (pending.old.items ++ final_text world.now.state) result }
    ensures count { CountsFor (K.fault_count sink.old) (K.fault_count sink.new)
        ReplayError.WriteFault result }
{
    final_lines(world, pending)?;
    flush(sink, pending)
}
