//! The next line of a transcript: whether it is whole, and what it says.

ghost use Rattle.std.specs.Prelude.{◌≡◌, ◌≤◌, ◌<◌, ◌⊎◌, ◌+◌, true, false, take, OnOk, IfErr};
ghost use Rattle.line_reader.specs.Deciding.{is_closed};
ghost use Rattle.line_reader.specs.Reading.{IsFirst};
ghost use Rattle.nop_types.specs.declared.limits.TheConstants.{MAX_LINE_BYTES};
ghost use Rattle.transcript_reader.specs.AsRead.{IsTaken, RefusesFirst};
ghost use Rattle.transcript_reader.specs.Reading.{Advances, LengthRefused, First, After, IsHeader};
ghost use Rattle.transcript_reader.specs.declared.limits.TheConstants.{MAX_TRANSCRIPT_LINES};

use crate::check_error::CheckError;
use crate::limits::MAX_TRANSCRIPT_LINES;
use crate::row_taker::RowTaker;
use line_reader::{FirstLine, LineReader};
use nop_types::MAX_LINE_BYTES;
use std::alloc::Global;
use transcript_rows::read_header;

/// The clause that a line breaks by its number, its length or its end, if it does.
fn length_clause(before: u32, first: FirstLine) -> Option<u8>
    ensures { LengthRefused before first result }
{
    if before >= MAX_TRANSCRIPT_LINES || first.len > MAX_LINE_BYTES {
        return Some(1);
    }
    if !first.is_closed() {
        return Some(2);
    }
    None
}

/// Takes the next line, behind the first one.
pub(crate) fn take_line<T: RowTaker>(
    alloc: Global,
    lines: &mut LineReader,
    first: FirstLine,
    scratch: &mut Vec<u8>,
    taker: &mut T,
) -> Result<(), CheckError>
    requires first { IsFirst lines.old first }
    requires most { lines.old.most ≡ MAX_TRANSCRIPT_LINES }
    ensures advances { OnOk result (Advances lines.old lines.new first) }
    ensures row { OnOk result (IsTaken T.as_read T.read T.keeps (lines.old.line + 1)
        (take first.len lines.old.pending) taker.old taker.new true) }
    ensures err { IfErr result (RefusesFirst T.as_read lines.old first (After (T.read taker.old))) }
{
    let before = lines.line();
    let line = before.saturating_add(1);
    if let Some(clause) = length_clause(before, first) {
        return Err(CheckError::Refuted { line, clause });
    }
    if !taker.take_text(alloc, line, lines.text(first), scratch)? {
        return Err(CheckError::Refuted { line, clause: 2 });
    }
    lines.take(first);
    Ok(())
}

/// Takes the first line.
pub(crate) fn take_header(
    lines: &mut LineReader,
    first: FirstLine,
    scratch: &mut Vec<u8>,
) -> Result<(), CheckError>
    requires first { IsFirst lines.old first }
    requires most { lines.old.most ≡ MAX_TRANSCRIPT_LINES }
    ensures advances { OnOk result (Advances lines.old lines.new first) }
    ensures header { OnOk result (IsHeader (take first.len lines.old.pending)) }
    ensures err { IfErr result (RefusesFirst (λ text. text) lines.old first First) }
{
    let before = lines.line();
    let line = before.saturating_add(1);
    if let Some(clause) = length_clause(before, first) {
        return Err(CheckError::Refuted { line, clause });
    }
    if read_header(lines.text(first), scratch)?.is_none() {
        return Err(CheckError::Refuted { line, clause: 2 });
    }
    lines.take(first);
    Ok(())
}
