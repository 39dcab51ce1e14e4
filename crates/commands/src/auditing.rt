//! The audit of a trace.

ghost use Rattle.std.specs.Prelude.{◌≡◌};
ghost use Rattle.outside.specs.Causes.{CountsWhere};
ghost use Rattle.commands.specs.Audits.{AuditEnds, PassesTrace};
ghost use Rattle.commands.specs.Nodes.{ReadsTo};

use crate::status::Status;
use audit::{AuditError, audit};
use nop_types::Host;
use outside::{Sink, Source};
use std::alloc::Global;

/// Reads a trace, and writes the schedule that it is or the first line that has a fault.
pub(crate) fn run_audit<H: Host, S: Source, K: Sink>(
    alloc: Global,
    source: &mut S,
    sink: &mut K,
) -> Status
    ensures ends { AuditEnds H.meaning (S.left source.old) (S.left source.new) (K.held sink.old)
        (K.held sink.new) result }
    ensures passes { PassesTrace H.meaning (S.left source.old) result }
    ensures reads { ReadsTo (S.fault_count source.old) (S.fault_count source.new) result }
    ensures writes { CountsWhere (K.fault_count sink.old) (K.fault_count sink.new)
        (result ≡ Status.WriteFault) }
{
    match audit::<H, S, K>(alloc, source, sink) {
        Ok(_) => Status::Done,
        Err(AuditError::Refuted { .. }) => Status::Refuted,
        Err(AuditError::ReadFault) => Status::ReadFault,
        Err(AuditError::WriteFault) => Status::WriteFault,
        Err(AuditError::NoMemory) => Status::NoMemory,
    }
}
