//! The check of a transcript.

ghost use Rattle.std.specs.Prelude.{◌≡◌};
ghost use Rattle.outside.specs.Causes.{CountsWhere};
ghost use Rattle.commands.specs.Checks.{verdict_status, CheckEnds};
ghost use Rattle.commands.specs.Nodes.{ReadsTo};

use crate::status::Status;
use judge::{Tally, check, write_verdict};
use nop_types::Host;
use outside::{Sink, Source, WriteError};
use std::alloc::Global;
use transcript_reader::CheckError;

fn verdict_status(verdict: &Result<Tally, CheckError>) -> Status
    ensures { result ≡ verdict_status verdict.now }
{
    match verdict {
        Ok(_) => Status::Done,
        Err(CheckError::Refuted { .. }) => Status::Refuted,
        Err(CheckError::ReadFault) => Status::ReadFault,
        Err(CheckError::NoMemory) => Status::NoMemory,
    }
}

/// Reads a transcript, judges it, and writes the verdict.
pub(crate) fn run_check<H: Host, S: Source, K: Sink>(
    alloc: Global,
    source: &mut S,
    sink: &mut K,
) -> Status
    ensures ends { CheckEnds H.meaning (S.left source.old) (S.left source.new) (K.held sink.old)
        (K.held sink.new) result }
    ensures reads { ReadsTo (S.fault_count source.old) (S.fault_count source.new) result }
    ensures writes { CountsWhere (K.fault_count sink.old) (K.fault_count sink.new)
        (result ≡ Status.WriteFault) }
{
    let verdict = check::<H, S>(alloc, source);
    match write_verdict(alloc, &verdict, sink) {
        Ok(()) => verdict_status(&verdict),
        Err(WriteError::Failed) => Status::WriteFault,
        Err(WriteError::NoMemory) => Status::NoMemory,
    }
}
