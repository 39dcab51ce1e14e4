ghost use Rattle.std.specs.Prelude.{◌≡◌};
ghost use Rattle.nop_types.specs.Logs.{Trimmed};
ghost use Rattle.replica_log.specs.Answer.{given, answer_of};

use crate::{Answer, ReplicaLog};
use nop_types::Entry;

/// The answer of a leader with this log. `waiting` says whether one of its gap agreements waits for votes. It takes no memory.
pub fn answer(log: &ReplicaLog, waiting: bool, slot: u32) -> Answer<'_>
    ensures { given result ≡ answer_of Trimmed log.now waiting slot }
{
    if slot <= log.sync_point() {
        return Answer::Below;
    }
    match log.at(slot) {
        Some(Entry::Req(request)) => Answer::Found(request),
        Some(Entry::NoOp) => Answer::GapAgain,
        None if !waiting && log.has_room() && slot == log.len() + 1 => Answer::Begin,
        None => Answer::Nothing,
    }
}
