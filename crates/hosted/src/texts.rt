//! What the user is told where nothing is run.

ghost use Rattle.std.specs.Prelude.{◌≡◌, IfOk};
ghost use Rattle.outside.specs.Causes.{CountsWhere};
ghost use Rattle.commands.specs.declared.status.Status.TheVariants.{WriteFault};
ghost use Rattle.host_places.specs.Refusals.{refusal_line};
ghost use Rattle.hosted.specs.Texts.{Ends, Tells, usage_line};

use crate::unfit::Unfit;
use commands::Status;
use host_list::Refusal;
use host_places::refusal_line;
use nop_types::NoMemory;
use outside::{Sink, WriteError, write_all};
use std::alloc::Global;

/// What stands behind the program's name in the usage line.
const WORDS: &str = " LIST [--marks FOLDER] ACTOR [OPTION..] [OP..]\n";

/// Writes a line, and then the program ends with status 2.
fn tell<K: Sink>(sink: &mut K, line: &[u8]) -> Status
    ensures ends { Tells line.now (K.held sink.old) (K.held sink.new) result }
    ensures writes { CountsWhere (K.fault_count sink.old) (K.fault_count sink.new)
        (result ≡ WriteFault) }
{
    match write_all(sink, line) {
        Ok(()) => Status::Usage,
        Err(WriteError::Failed) => Status::WriteFault,
        Err(WriteError::NoMemory) => Status::NoMemory,
    }
}

#[tactic(auto, unfolding(crate::specs::Texts::usage_line))]
fn usage_line(alloc: Global, program: &str) -> Result<Vec<u8>, NoMemory>
    ensures { IfOk result (λ line. line.items ≡ usage_line program.now) }
{
    let mut line = Vec::from_slice(alloc, b"usage: ")?;
    line.extend_from_slice(program.as_bytes())?;
    line.extend_from_slice(WORDS.as_bytes())?;
    Ok(line)
}

/// Writes the usage line of a program with this name.
#[tactic(auto, using(crate::proofs::Telling::no_usage))]
pub(crate) fn write_usage<K: Sink>(alloc: Global, program: &str, sink: &mut K) -> Status
    ensures ends { Tells (usage_line program.now) (K.held sink.old) (K.held sink.new) result }
    ensures writes { CountsWhere (K.fault_count sink.old) (K.fault_count sink.new)
        (result ≡ WriteFault) }
{
    match usage_line(alloc, program) {
        Ok(line) => tell(sink, &line),
        Err(NoMemory) => Status::NoMemory,
    }
}

/// Writes the line and the rule of a list that is refused.
#[tactic(auto, using(crate::proofs::Telling::no_refusal))]
fn write_refusal<K: Sink>(alloc: Global, refusal: Refusal, sink: &mut K) -> Status
    ensures ends { Tells (refusal_line refusal) (K.held sink.old) (K.held sink.new) result }
    ensures writes { CountsWhere (K.fault_count sink.old) (K.fault_count sink.new)
        (result ≡ WriteFault) }
{
    match refusal_line(alloc, refusal) {
        Ok(line) => tell(sink, &line),
        Err(NoMemory) => Status::NoMemory,
    }
}

/// Tells why nothing is run, and how the program ends then.
pub(crate) fn write_unfit<K: Sink>(
    alloc: Global,
    program: &str,
    unfit: Unfit,
    sink: &mut K,
) -> Status
    ensures ends { Ends program.now unfit (K.held sink.old) (K.held sink.new) result }
    ensures writes { CountsWhere (K.fault_count sink.old) (K.fault_count sink.new)
        (result ≡ WriteFault) }
{
    match unfit {
        Unfit::Usage => write_usage(alloc, program, sink),
        Unfit::List(refusal) => write_refusal(alloc, refusal, sink),
        Unfit::NoMemory => Status::NoMemory,
    }
}
