ghost use Rattle.std.specs.Prelude.{◌≡◌, ◌++◌, ◌∷◌, [], None, map, string_bytes, IfOk};
ghost use Rattle.linearize.specs.Ending.{status_of, Ends, ReadsTo, RunEnds, UsageEnds};
ghost use Rattle.linearize.specs.Words.{asked};
ghost use Rattle.outside.specs.Causes.{CountsWhere};

use crate::answer::Answer;
use crate::answering::answer;
use crate::status::Status;
use crate::words::asked;
use crate::writing::write_answer;
use fronts::Parted;
use nop_types::NoMemory;
use outside::{Sink, Source, WriteError, write_all};
use std::alloc::Global;
use transcript_reader::CheckError;

fn status_of(answer: &Result<Answer, CheckError>) -> Status
    ensures { result ≡ status_of answer.now }
{
    match answer {
        Ok(Answer::Order { .. }) => Status::Done,
        Ok(Answer::NoOrder { .. }) => Status::Refuted,
        Ok(Answer::Repeated(_) | Answer::Unknown(_)) => Status::Undecided,
        Err(CheckError::Refuted { .. }) => Status::Refuted,
        Err(CheckError::ReadFault) => Status::ReadFault,
        Err(CheckError::NoMemory) => Status::NoMemory,
    }
}

/// Reads a transcript, and writes an order of its claims that is found in at most so many steps, or why there is none.
pub fn linearize<P: Parted, S: Source, K: Sink>(
    alloc: Global,
    most: u64,
    source: &mut S,
    sink: &mut K,
) -> Status
    ensures ends { Ends P.Service.meaning P.part P.MAX_PARTS most (S.left source.old)
        (S.left source.new) (K.held sink.old) (K.held sink.new) result }
    ensures reads { ReadsTo (S.fault_count source.old) (S.fault_count source.new) result }
    ensures writes { CountsWhere (K.fault_count sink.old) (K.fault_count sink.new)
        (result ≡ Status.WriteFault) }
{
    let answer = answer::<P, S>(alloc, most, source);
    match write_answer(alloc, &answer, sink) {
        Ok(()) => status_of(&answer),
        Err(WriteError::Failed) => Status::WriteFault,
        Err(WriteError::NoMemory) => Status::NoMemory,
    }
}

fn usage_text(alloc: Global, usage: &str) -> Result<Vec<u8>, NoMemory>
    ensures { IfOk result (λ text. text.items ≡ usage.now ++ 10 ∷ []) }
{
    let mut text = Vec::from_slice(alloc, usage.as_bytes())?;
    text.push(b'\n')?;
    Ok(text)
}

fn write_usage<K: Sink>(alloc: Global, usage: &str, sink: &mut K) -> Status
    ensures ends { UsageEnds usage.now (K.held sink.old) (K.held sink.new) result }
    ensures writes { CountsWhere (K.fault_count sink.old) (K.fault_count sink.new)
        (result ≡ Status.WriteFault) }
{
    let Ok(text) = usage_text(alloc, usage) else {
        return Status::NoMemory;
    };
    match write_all(sink, &text) {
        Ok(()) => Status::Usage,
        Err(WriteError::Failed) => Status::WriteFault,
        Err(WriteError::NoMemory) => Status::NoMemory,
    }
}

/// Does what the words ask for, of which the first is the program's name: no other word, or `--most` and a number of steps. Words that
/// are not taken are answered by the usage line.
pub fn run<P: Parted, S: Source, K: Sink>(
    alloc: Global,
    usage: &str,
    words: &[String],
    source: &mut S,
    sink: &mut K,
) -> Status
    ensures ends { RunEnds P.Service.meaning P.part P.MAX_PARTS usage.now
        (asked (map string_bytes words.now)) (S.left source.old) (S.left source.new)
        (K.held sink.old) (K.held sink.new) result }
    ensures reads { ReadsTo (S.fault_count source.old) (S.fault_count source.new) result }
    ensures writes { CountsWhere (K.fault_count sink.old) (K.fault_count sink.new)
        (result ≡ Status.WriteFault) }
    ensures unread { asked (map string_bytes words.now) ≡ None → source.new ≡ source.old }
{
    match asked(words) {
        Some(most) => linearize::<P, S, K>(alloc, most, source, sink),
        None => write_usage(alloc, usage, sink),
    }
}
