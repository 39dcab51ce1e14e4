//! What an audit writes in the end.

ghost use Rattle.std.specs.Prelude.{◌≡◌, ◌++◌, IfOk, OnOk};
ghost use Rattle.audit.specs.Outcome.{audited_line, fault_line};
ghost use Rattle.audit.specs.Steps.{Concludes, FailsAtNoWrite, Writes, WritesFault, WritesPassed};
ghost use Rattle.outside.specs.Causes.{CountsFor, CountsWhere};

use crate::error::AuditError;
use crate::progress::Progress;
use nop_types::{Host, NoMemory};
use outside::{Sink, WriteError, write_all};
use std::alloc::Global;
use transcript_text::{Field, write_line};

fn put_audited(steps: u32, to: &mut Vec<u8>) -> Result<(), NoMemory>
    ensures { OnOk result (to.new.items ≡ to.old.items ++ audited_line steps) }
{
    write_line("audited", &[Field::Number(u64::from(steps))], to)
}

fn put_fault(line: u32, fault: u8, to: &mut Vec<u8>) -> Result<(), NoMemory>
    ensures { OnOk result (to.new.items ≡ to.old.items ++ fault_line line fault) }
{
    let fields = [
        Field::Word("line"),
        Field::Number(u64::from(line)),
        Field::Word("fault"),
        Field::Number(u64::from(fault)),
    ];
    write_line("audit", &fields, to)
}

fn write<K: Sink>(text: &[u8], sink: &mut K) -> Result<(), AuditError>
    ensures writes { Writes (K.held sink.old) (K.held sink.new) text.now result }
    ensures count { CountsFor (K.fault_count sink.old) (K.fault_count sink.new)
        AuditError.WriteFault result }
{
    match write_all(sink, text) {
        Ok(()) => Ok(()),
        Err(WriteError::Failed) => Err(AuditError::WriteFault),
        Err(WriteError::NoMemory) => Err(AuditError::NoMemory),
    }
}

/// The schedule, and the number of its steps.
fn write_passed<H: Host, K: Sink>(progress: Progress<H>, sink: &mut K) -> Result<u32, AuditError>
    ensures writes { WritesPassed (K.held sink.old) (K.held sink.new) progress.text.items
        progress.steps result }
    ensures count { CountsFor (K.fault_count sink.old) (K.fault_count sink.new)
        AuditError.WriteFault result }
{
    let Progress { steps, text, .. } = progress;
    let mut text = text;
    put_audited(steps, &mut text)?;
    write(&text, sink)?;
    Ok(steps)
}

/// The line with a fault, and the answer.
fn write_fault<K: Sink>(alloc: Global, line: u32, fault: u8, sink: &mut K) -> AuditError
    ensures writes { WritesFault (K.held sink.old) (K.held sink.new) line fault result }
    ensures count { CountsWhere (K.fault_count sink.old) (K.fault_count sink.new)
        (result ≡ AuditError.WriteFault) }
{
    let mut text = Vec::new(alloc);
    if put_fault(line, fault, &mut text).is_err() {
        return AuditError::NoMemory;
    }
    match write(&text, sink) {
        Ok(()) => AuditError::Refuted { line, fault },
        Err(e) => e,
    }
}

/// Writes what a trace was read as.
pub fn write_answer<H: Host, K: Sink>(
    alloc: Global,
    answer: Result<Progress<H>, AuditError>,
    sink: &mut K,
) -> Result<u32, AuditError>
    requires { FailsAtNoWrite answer }
    ensures concludes { Concludes answer (K.held sink.old) (K.held sink.new) result }
    ensures count { CountsFor (K.fault_count sink.old) (K.fault_count sink.new)
        AuditError.WriteFault result }
{
    match answer {
        Ok(progress) => write_passed(progress, sink),
        Err(AuditError::Refuted { line, fault }) => Err(write_fault(alloc, line, fault, sink)),
        Err(AuditError::ReadFault) => Err(AuditError::ReadFault),
        Err(AuditError::WriteFault) => Err(AuditError::WriteFault),
        Err(AuditError::NoMemory) => Err(AuditError::NoMemory),
    }
}
