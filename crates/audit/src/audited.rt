//! A trace, read from a source and audited.

ghost use Rattle.std.specs.Prelude.{◌≡◌, IfOk};
ghost use Rattle.audit.specs.Outcome.{AuditEnds};
ghost use Rattle.audit.specs.Traces.{IsAuditOf, PassesTraces};
ghost use Rattle.outside.specs.Causes.{CountsFor};

use crate::error::AuditError;
use crate::reading::read_trace;
use crate::writing::write_answer;
use nop_types::Host;
use outside::{Sink, Source};
use std::alloc::Global;

fn audit_trace<H: Host, S: Source, K: Sink>(
    alloc: Global,
    source: &mut S,
    sink: &mut K,
) -> Result<u32, AuditError>
    ensures ends { AuditEnds H.meaning (S.left source.old) (S.left source.new) (K.held sink.old)
        (K.held sink.new) result }
    ensures reads { CountsFor (S.fault_count source.old) (S.fault_count source.new)
        AuditError.ReadFault result }
    ensures count { CountsFor (K.fault_count sink.old) (K.fault_count sink.new)
        AuditError.WriteFault result }
{
    let answer = read_trace::<H, S>(alloc, source);
    write_answer(alloc, answer, sink)
}

/// Reads a trace: the first line of a schedule, and the steps of all nodes in one order, the lines of each step together. Carries them
/// out in a world of this host, and writes the schedule that they are and their number; or else the first line that has a fault, and
/// which. Before that nothing is written.
pub fn audit<H: Host, S: Source, K: Sink>(
    alloc: Global,
    source: &mut S,
    sink: &mut K,
) -> Result<u32, AuditError>
    ensures ends { AuditEnds H.meaning (S.left source.old) (S.left source.new) (K.held sink.old)
        (K.held sink.new) result }
    ensures audited { IfOk result (λ steps. IsAuditOf H.meaning steps (S.left source.old)
        (S.left source.new) (K.held sink.old) (K.held sink.new)) }
    ensures passes { PassesTraces H.meaning (S.left source.old) result }
    ensures reads { CountsFor (S.fault_count source.old) (S.fault_count source.new)
        AuditError.ReadFault result }
    ensures count { CountsFor (K.fault_count sink.old) (K.fault_count sink.new)
        AuditError.WriteFault result }
{
    audit_trace::<H, S, K>(alloc, source, sink)
}
