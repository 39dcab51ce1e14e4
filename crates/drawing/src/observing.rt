//! What is seen of a world: how its replicas stand, and what the step of an event delivers.

ghost use Rattle.std.specs.Prelude.{◌≡◌};
ghost use Rattle.schedule_text.specs.Rules.{rule_number};
ghost use Rattle.drawing.specs.Errors.{of_step};
ghost use Rattle.drawing.specs.Gathered.{IsIntact};

use crate::error::DrawError;
use crate::recorder::{Recorder, Turn};
use crate::standing::standing_of;
use nop_types::{Actor, Host, NoMemory};
use op_text::OpText;
use picture_labels::{describe, read_lines};
use schedule_text::Rule;
use std::alloc::Global;
use world::{Lines, StepError, World};

fn malformed(line: u32, rule: Rule, index_sent: Option<(u64, u64)>) -> DrawError
    ensures { result ≡ DrawError.Malformed line (rule_number rule) index_sent }
{
    DrawError::Malformed {
        line,
        rule: rule.number(),
        index_sent,
    }
}

/// Why the event of a line is refused.
pub fn refusal(line: u32, error: StepError) -> DrawError
    ensures { result ≡ of_step line error }
{
    match error {
        StepError::NoSuchActor => malformed(line, Rule::WrongActor, None),
        StepError::NoSuchDatagram { index, sent } => {
            malformed(line, Rule::NoSuchDatagram, Some((index, sent)))
        }
        StepError::Forged => malformed(line, Rule::Forged, None),
        StepError::NoMemory => DrawError::NoMemory,
    }
}

/// How each replica stands at the top.
pub fn watch<H: Host>(
    alloc: Global,
    world: &World<H>,
    recorder: &mut Recorder,
) -> Result<(), NoMemory>
    ensures { IsIntact recorder.new → IsIntact recorder.old }
{
    for number in 0..world.config().replicas() {
        if let Some(replica) = world.replica(number) {
            recorder.watch(standing_of(alloc, number, world, replica, 0)?);
        }
    }
    Ok(())
}

/// The datagram with this index, if a turn sent one.
fn observe_datagram<H: Host, T: OpText>(
    alloc: Global,
    world: &World<H>,
    turn: Turn,
    index: u64,
    recorder: &mut Recorder,
) -> Result<(), NoMemory>
    ensures intact { IsIntact recorder.new → IsIntact recorder.old }
    ensures rows { recorder.new.picture.rows ≡ recorder.old.picture.rows }
{
    let (Some(dest), Some(bytes)) = (world.sent_to(index), world.sent(index)?) else {
        return Ok(());
    };
    recorder.put_sent(turn, dest, describe::<T>(alloc, bytes.as_slice())?);
    Ok(())
}

/// How the actor of a turn stands, if it is a replica.
fn observe_standing<H: Host>(
    alloc: Global,
    world: &World<H>,
    turn: Turn,
    recorder: &mut Recorder,
) -> Result<(), NoMemory>
    ensures intact { IsIntact recorder.new → IsIntact recorder.old }
    ensures rows { recorder.new.picture.rows ≡ recorder.old.picture.rows }
{
    let Actor::Replica(number) = turn.actor else {
        return Ok(());
    };
    let Some(replica) = world.replica(number) else {
        return Ok(());
    };
    let known = recorder.synced(number);
    recorder.put_standing(turn, standing_of(alloc, number, world, replica, known)?);
    Ok(())
}

/// What is seen after a turn with these lines.
pub fn observe<H: Host, T: OpText>(
    alloc: Global,
    world: &World<H>,
    turn: Turn,
    lines: &Lines,
    recorder: &mut Recorder,
) -> Result<(), NoMemory>
    ensures intact { IsIntact recorder.new → IsIntact recorder.old }
    ensures rows { recorder.new.picture.rows ≡ recorder.old.picture.rows }
{
    recorder.put_said(read_lines::<T>(alloc, lines.text.as_slice())?);
    for index in turn.sent_before..world.sent_count() {
        observe_datagram::<H, T>(alloc, world, turn, index, recorder)?;
    }
    observe_standing(alloc, world, turn, recorder)
}
