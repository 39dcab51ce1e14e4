//! A trace, read from a source.

ghost use Rattle.std.specs.Prelude.{◌≡◌, ◌≤◌, IfErr, IfOk, OnOk, length};
ghost use Rattle.audit.specs.Steps.{Advances, Begins, IsError, IsFinished, IsNoLine, IsOpened};
ghost use Rattle.audit.specs.Steps.{IsRead, IsRefused, is_past_limits};
ghost use Rattle.audit.specs.Steps.{ReadsOn, RefusesFirst, RefusesNextIf, TakesFirst, TakesNextIf};
ghost use Rattle.audit.specs.Auditing.{First};
ghost use Rattle.audit.specs.declared.limits.TheConstants.{MAX_TRACE_LINES};
ghost use Rattle.line_reader.specs.Deciding.{HasNoEnd};
ghost use Rattle.line_reader.specs.Reading.{IsFirst, Reaches, TakesFrom, opening};
ghost use Rattle.nop_types.specs.declared.limits.TheConstants.{MAX_LINE_BYTES};
ghost use Rattle.outside.specs.Causes.{CountsFor};
ghost use Rattle.schedule_text.specs.Rules.{header_of};

use crate::error::AuditError;
use crate::limits::MAX_TRACE_LINES;
use crate::progress::Progress;
use crate::row_error::RowError;
use audit_laws::Fault;
use line_reader::{FirstLine, LineReader, ReadError};
use nop_types::{Header, Host, MAX_LINE_BYTES};
use outside::{ReadMem, Source};
use schedule_text::{NextError, Reader};
use std::alloc::Global;

/// The answer for a line that is not taken.
fn refused(line: u32, error: RowError) -> AuditError
    ensures { IsRefused line error result }
{
    match error {
        RowError::Faulty(fault) => AuditError::Refuted {
            line,
            fault: fault.number(),
        },
        RowError::NoMemory => AuditError::NoMemory,
    }
}

/// The first line of a schedule, as its reader reads it.
fn header(alloc: Global, text: &[u8]) -> Result<Header, RowError>
    requires short { length text.now ≤ MAX_LINE_BYTES }
    requires one { HasNoEnd (length text.now) text.now }
    ensures { IsOpened (header_of text.now) result }
{
    let mut source = ReadMem::new(Vec::from_slice(alloc, text)?);
    let mut reader = Reader::new(alloc);
    match reader.open(&mut source) {
        Ok(config) => Ok(Header {
            form: reader.form(),
            config,
        }),
        Err(NextError::BadLine { .. }) => Err(RowError::Faulty(Fault::Misspelled)),
        // memory that is read does not fail
        Err(NextError::ReadFault | NextError::NoMemory) => Err(RowError::NoMemory),
    }
}

fn next<S: Source>(lines: &mut LineReader, source: &mut S) -> Result<Option<FirstLine>, AuditError>
    ensures first { IfOk result (Reaches lines.new) }
    ensures takes { TakesFrom lines.old lines.new (S.left source.old) (S.left source.new) }
    ensures err { IfErr result (IsNoLine lines.new) }
    ensures count { CountsFor (S.fault_count source.old) (S.fault_count source.new)
        AuditError.ReadFault result }
{
    match lines.next_line(source) {
        Ok(first) => Ok(first),
        Err(ReadError::ReadFault) => Err(AuditError::ReadFault),
        Err(ReadError::NoMemory) => Err(AuditError::NoMemory),
    }
}

/// Whether a line is one more than there may be, or longer than it may be.
fn is_too_much(before: u32, first: FirstLine) -> bool
    ensures { result ≡ is_past_limits before first.len }
{
    before >= MAX_TRACE_LINES || first.len > MAX_LINE_BYTES
}

/// What the rows behind the first line start from.
fn begin<H: Host>(alloc: Global, text: &[u8]) -> Result<Progress<H>, RowError>
    requires short { length text.now ≤ MAX_LINE_BYTES }
    requires one { HasNoEnd (length text.now) text.now }
    ensures { Begins (header_of text.now) result }
{
    let header = header(alloc, text)?;
    Ok(Progress::new(alloc, header)?)
}

/// Takes the first line.
fn take_first<H: Host>(
    alloc: Global,
    lines: &mut LineReader,
    first: FirstLine,
) -> Result<Progress<H>, AuditError>
    requires first { IsFirst lines.old first }
    requires most { lines.old.most ≡ MAX_TRACE_LINES }
    ensures advances { OnOk result (Advances lines.old lines.new first) }
    ensures takes { IfOk result (TakesFirst H.meaning lines.old first) }
    ensures err { IfErr result (RefusesFirst H.meaning lines.old First first) }
{
    let before = lines.line();
    let line = before.saturating_add(1);
    if is_too_much(before, first) {
        return Err(refused(line, RowError::Faulty(Fault::Misspelled)));
    }
    match begin(alloc, lines.text(first)) {
        Ok(progress) => {
            lines.take(first);
            Ok(progress)
        }
        Err(e) => Err(refused(line, e)),
    }
}

/// Takes the next line, behind the first one.
fn take_line<H: Host>(
    alloc: Global,
    lines: &mut LineReader,
    first: FirstLine,
    progress: &mut Progress<H>,
) -> Result<(), AuditError>
    requires first { IsFirst lines.old first }
    requires most { lines.old.most ≡ MAX_TRACE_LINES }
    ensures advances { OnOk result (Advances lines.old lines.new first) }
    ensures takes { OnOk result (TakesNextIf H.meaning progress.old lines.old first progress.new) }
    ensures err { IfErr result (RefusesNextIf H.meaning progress.old lines.old first) }
{
    let before = lines.line();
    let line = before.saturating_add(1);
    if is_too_much(before, first) {
        return Err(refused(line, RowError::Faulty(Fault::Misspelled)));
    }
    match progress.take_text(alloc, lines.text(first)) {
        Ok(()) => {
            lines.take(first);
            Ok(())
        }
        Err(e) => Err(refused(line, e)),
    }
}

/// Reads the first line.
fn read_first<H: Host, S: Source>(
    alloc: Global,
    lines: &mut LineReader,
    source: &mut S,
) -> Result<Progress<H>, AuditError>
    requires { lines.old ≡ opening MAX_TRACE_LINES }
    ensures ok { IfOk result
        (ReadsOn H.meaning (S.left source.old) (S.left source.new) lines.new) }
    ensures err { IfErr result (IsError H.meaning (S.left source.old) (S.left source.new)) }
    ensures count { CountsFor (S.fault_count source.old) (S.fault_count source.new)
        AuditError.ReadFault result }
{
    match next(lines, source)? {
        Some(first) => take_first(alloc, lines, first),
        None => Err(refused(1, RowError::Faulty(Fault::Misspelled))),
    }
}

/// Behind the last of so many lines: whether an output is missing.
fn finish<H: Host>(progress: Progress<H>, lines: u32) -> Result<Progress<H>, AuditError>
    requires { lines ≤ MAX_TRACE_LINES }
    ensures { IsFinished progress lines result }
{
    if progress.missing.is_none() {
        return Ok(progress);
    }
    Err(refused(lines + 1, RowError::Faulty(Fault::Unlike)))
}

/// Reads all lines of a trace, up to the first that has a fault.
pub fn read_trace<H: Host, S: Source>(
    alloc: Global,
    source: &mut S,
) -> Result<Progress<H>, AuditError>
    ensures read { IsRead H.meaning (S.left source.old) (S.left source.new) result }
    ensures count { CountsFor (S.fault_count source.old) (S.fault_count source.new)
        AuditError.ReadFault result }
{
    let mut lines = LineReader::new(alloc, MAX_TRACE_LINES);
    let mut progress = read_first(alloc, &mut lines, source)?;
    loop {
        let Some(first) = next(&mut lines, source)? else {
            return finish(progress, lines.line());
        };
        take_line(alloc, &mut lines, first, &mut progress)?;
    }
}
