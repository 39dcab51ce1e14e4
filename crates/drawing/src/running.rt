//! From a schedule to a picture.

ghost use Rattle.std.specs.Prelude.{◌≡◌, ◌++◌, codes, decimal, string_bytes, Some, IfErr, IfOk, OnOk};
ghost use Rattle.outside.specs.Causes.{CountsFor};
ghost use Rattle.picture.specs.Texts.{Grows, IsWhole};
ghost use Rattle.transcript_text.specs.Transcript.{sent_text};
ghost use Rattle.world.specs.WorldSteps.{actor_of};
ghost use Rattle.drawing.specs.Errors.{complaint_text, IsOfEvent, IsOfSchedule};
ghost use Rattle.drawing.specs.Errors.{IsUnwritten};
ghost use Rattle.drawing.specs.Gathered.{IsIntact};
ghost use Rattle.drawing.specs.Rows.{AddsRow, Wrote};

use crate::error::DrawError;
use crate::observing::{observe, refusal, watch};
use crate::recorder::Recorder;
use nop_types::{Config, Host, MAX_LINES, NoMemory};
use op_text::OpText;
use outside::{Sink, Source, write_all};
use picture::Text;
use schedule_text::{Event, Reader};
use std::alloc::Global;
use world::{Lines, World};

/// Keeps what is seen of an event that was carried out.
fn keep<H: Host, T: OpText>(
    alloc: Global,
    world: &World<H>,
    line: u32,
    event: &Event,
    lines: &Lines,
    recorder: &mut Recorder,
) -> Result<(), NoMemory>
    ensures row { OnOk result (AddsRow recorder.old.picture.rows.items
        recorder.new.picture.rows.items line event.now (actor_of event.now)) }
    ensures intact { OnOk result (IsIntact recorder.old) }
{
    let turn = recorder.turn(event);
    observe::<H, T>(alloc, world, turn, lines, recorder)?;
    recorder.end::<T>(line, event, turn)
}

/// Carries out the event of a line.
fn carry_out<H: Host, T: OpText>(
    alloc: Global,
    world: &mut World<H>,
    line: u32,
    event: &Event,
    recorder: &mut Recorder,
) -> Result<(), DrawError>
    ensures row { OnOk result (AddsRow recorder.old.picture.rows.items
        recorder.new.picture.rows.items line event.now (actor_of event.now)) }
    ensures intact { OnOk result (IsIntact recorder.old) }
    ensures err { IfErr result IsOfEvent }
{
    match world.step(event) {
        Ok(lines) => Ok(keep::<H, T>(alloc, world, line, event, &lines, recorder)?),
        Err(error) => Err(refusal(line, error)),
    }
}

/// Carries out the events of a schedule, from a world in its opening state on, and draws what was seen.
fn record<H: Host, T: OpText, S: Source>(
    alloc: Global,
    reader: &mut Reader,
    source: &mut S,
    world: &mut World<H>,
    recorder: &mut Recorder,
) -> Result<String, DrawError>
    ensures whole { IfOk result (λ s. IsWhole (string_bytes s)) }
    ensures err { IfErr result IsUnwritten }
    ensures reads { CountsFor (S.fault_count source.old) (S.fault_count source.new)
        DrawError.ReadFault result }
{
    watch(alloc, world, recorder)?;
    for _turn in 0..MAX_LINES {
        let Some(event) = reader.next(source)? else {
            break;
        };
        carry_out::<H, T>(alloc, world, reader.line(), &event, recorder)?;
    }
    Ok(recorder.drawing()?)
}

/// The picture of a schedule whose first line was read.
fn drawing_of<H: Host, T: OpText, S: Source>(
    alloc: Global,
    config: Config,
    reader: &mut Reader,
    source: &mut S,
) -> Result<String, DrawError>
    ensures whole { IfOk result (λ s. IsWhole (string_bytes s)) }
    ensures err { IfErr result IsUnwritten }
    ensures reads { CountsFor (S.fault_count source.old) (S.fault_count source.new)
        DrawError.ReadFault result }
{
    let mut world: World<H> = World::new(alloc, config)?;
    let mut recorder = Recorder::new(alloc, config);
    record::<H, T, S>(alloc, reader, source, &mut world, &mut recorder)
}

fn drawing<H: Host, T: OpText, S: Source>(
    alloc: Global,
    source: &mut S,
) -> Result<String, DrawError>
    ensures whole { IfOk result (λ s. IsWhole (string_bytes s)) }
    ensures err { IfErr result IsUnwritten }
    ensures reads { CountsFor (S.fault_count source.old) (S.fault_count source.new)
        DrawError.ReadFault result }
{
    let mut reader = Reader::new(alloc);
    let config = reader.open(source)?;
    drawing_of::<H, T, S>(alloc, config, &mut reader, source)
}

/// Reads a schedule, carries it out, and writes the picture. Nothing is written where the schedule
/// is bad or cannot be read; at Ok a whole picture was written.
pub fn run<H: Host, T: OpText, S: Source, K: Sink>(
    alloc: Global,
    source: &mut S,
    sink: &mut K,
) -> Result<(), DrawError>
    ensures whole { OnOk result (Wrote (K.held sink.old) (K.held sink.new)) }
    ensures unwritten { IfErr result (λ e. IsOfSchedule e → K.held sink.new ≡ K.held sink.old) }
    ensures reads { CountsFor (S.fault_count source.old) (S.fault_count source.new)
        DrawError.ReadFault result }
    ensures writes { CountsFor (K.fault_count sink.old) (K.fault_count sink.new)
        DrawError.WriteFault result }
{
    let text = drawing::<H, T, S>(alloc, source)?;
    write_all(sink, text.as_bytes())?;
    Ok(())
}

fn put_index(index_sent: (u64, u64), to: &mut Text)
    ensures { Grows to.old to.new (sent_text (Some index_sent)) }
{
    let (index, sent) = index_sent;
    to.numbered(" index ", index);
    to.numbered(" sent ", sent);
}

fn put_line(line: u64, rule: u64, to: &mut Text)
    ensures { Grows to.old to.new
        (codes "error line " ++ decimal line ++ codes " rule " ++ decimal rule) }
{
    to.numbered("error line ", line);
    to.numbered(" rule ", rule);
}

fn put_malformed(line: u64, rule: u64, index_sent: Option<(u64, u64)>, to: &mut Text)
    ensures { Grows to.old to.new
        (complaint_text (DrawError.Malformed line rule index_sent)) }
{
    put_line(line, rule, to);
    if let Some(index_sent) = index_sent {
        put_index(index_sent, to);
    }
}

fn put_complaint(error: DrawError, to: &mut Text)
    ensures { Grows to.old to.new (complaint_text error) }
{
    match error {
        DrawError::Malformed {
            line,
            rule,
            index_sent,
        } => put_malformed(u64::from(line), u64::from(rule), index_sent, to),
        DrawError::ReadFault => to.put("error reading the schedule"),
        DrawError::WriteFault => to.put("error writing the picture"),
        DrawError::NoMemory => to.put("error out of memory"),
    }
}

/// The line that says why there is no picture.
pub fn complaint(alloc: Global, error: DrawError) -> Result<String, NoMemory>
    ensures { IfOk result (λ s. string_bytes s ≡ complaint_text error) }
{
    let mut text = Text::new(alloc);
    put_complaint(error, &mut text);
    text.finish()
}
