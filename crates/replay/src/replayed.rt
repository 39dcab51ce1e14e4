ghost use Rattle.std.specs.Prelude.{◌≡◌, ◌≤◌, ◌++◌, false, IsSome, IsTrue, IfOk, OnOk};
ghost use Rattle.nop_types.specs.Headers.{gives};
ghost use Rattle.outside.specs.Causes.{CountsFor};
ghost use Rattle.transcript_text.specs.Transcript.{transcript_line};
ghost use Rattle.world.specs.WorldSteps.{opening};
ghost use Rattle.replay.specs.Outcome.{EndsWith, ReadsTo};
ghost use Rattle.replay.specs.Progress.{begins, GoesOn, Start};
ghost use Rattle.replay.specs.Safety.{RunsSafelyOf};

use crate::error::ReplayError;
use crate::reading::{next_event, open};
use crate::turn::{finish, stop, take_event};
use crate::writing::write_decided;
use nop_types::{Config, Host, MAX_LINES, NoMemory};
use outside::{Sink, Source};
use schedule_text::Reader;
use std::alloc::Global;
use transcript_text::transcript_line;
use world::World;

/// The first line of a transcript, and the world that its events start from.
fn begin<H: Host>(
    alloc: Global,
    form: u8,
    config: Config,
    pending: &mut Vec<u8>,
) -> Result<World<H>, NoMemory>
    requires { IsTrue (gives form config) }
    ensures world { IfOk result (λ w. w ≡ record { failed = false; state = opening config }) }
    ensures line { OnOk result (pending.new.items
        ≡ pending.old.items ++ transcript_line form config) }
{
    transcript_line(form, config, pending)?;
    World::new(alloc, config)
}

/// Takes the events of the lines behind the first, one after the other, up to the end of the input. What was gathered is written
/// before the source is asked.
fn take_events<H: Host, S: Source, K: Sink>(
    reader: &mut Reader,
    world: &mut World<H>,
    source: &mut S,
    pending: &mut Vec<u8>,
    sink: &mut K,
) -> Result<(), ReplayError>
    ghost start: { Start }
    requires going { GoesOn H.meaning start (S.left source.old) (K.held sink.old) pending.old.items
        reader.old world.old.state }
    requires opened { IsSome reader.old.header }
    requires first { 1 ≤ reader.old.line }
    requires last { reader.old.line ≤ MAX_LINES }
    ensures ends { EndsWith H.meaning start.bytes (S.left source.new) start.held
        (K.held sink.new) result }
    ensures reads { ReadsTo (S.fault_count source.old) (S.fault_count source.new) result }
    ensures count { CountsFor (K.fault_count sink.old) (K.fault_count sink.new)
        ReplayError.WriteFault result }
{
    // line 1 was taken, each turn takes one more, and the last one finds the end or a line too many
    for _turn in 0..MAX_LINES {
        write_decided(reader, pending, sink)?;
        match next_event::<H, S, K>(reader, source, sink) {
            Ok(Some(event)) => take_event(reader.line(), &event, world, pending, sink)?,
            Ok(None) => return finish(world, pending, sink),
            Err(e) => return Err(stop(e, pending, sink)),
        }
    }
    unreachable!()
}

/// Replays a schedule from its start, which is now.
fn replay_from<H: Host, S: Source, K: Sink>(
    alloc: Global,
    source: &mut S,
    sink: &mut K,
) -> Result<(), ReplayError>
    ghost start: { Start }
    requires { start ≡ begins (S.left source.old) (K.held sink.old) }
    ensures ends { EndsWith H.meaning (S.left source.old) (S.left source.new) (K.held sink.old)
        (K.held sink.new) result }
    ensures safe { OnOk result (RunsSafelyOf H.meaning (S.left source.old)) }
    ensures reads { ReadsTo (S.fault_count source.old) (S.fault_count source.new) result }
    ensures count { CountsFor (K.fault_count sink.old) (K.fault_count sink.new)
        ReplayError.WriteFault result }
{
    let mut reader = Reader::new(alloc);
    let mut pending = Vec::new(alloc);
    let config = match open::<H, S, K>(&mut reader, source, sink) {
        Ok(config) => config,
        Err(e) => return Err(stop(e, &mut pending, sink)),
    };
    let mut world: World<H> = begin(alloc, reader.form(), config, &mut pending)?;
    take_events(&mut reader, &mut world, source, &mut pending, sink)
}

/// Reads a schedule from the source and writes the transcript of its run with a host of this type,
/// line by line. What was written before an error stays.
pub fn replay<H: Host, S: Source, K: Sink>(
    alloc: Global,
    source: &mut S,
    sink: &mut K,
) -> Result<(), ReplayError>
    ensures ends { EndsWith H.meaning (S.left source.old) (S.left source.new) (K.held sink.old)
        (K.held sink.new) result }
    ensures safe { OnOk result (RunsSafelyOf H.meaning (S.left source.old)) }
    ensures reads { ReadsTo (S.fault_count source.old) (S.fault_count source.new) result }
    ensures count { CountsFor (K.fault_count sink.old) (K.fault_count sink.new)
        ReplayError.WriteFault result }
{
    replay_from::<H, S, K>(alloc, source, sink)
}
