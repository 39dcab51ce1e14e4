//! All lines of a source.

ghost use Rattle.std.specs.Prelude.{◌≡◌, ◌++◌, ◌∷◌, [], ◌≤◌, ◌<◌, ◌⊎◌, take, IfOk, OnOk, IfErr, MatchBool};
ghost use Rattle.braiding.specs.Orders.{texts_of};
ghost use Rattle.braiding.specs.Reading.{Advances, IsNoLine, IsRead, RefusesFirst};
ghost use Rattle.line_reader.specs.Reading.{IsFirst, Reaches, TakesFrom};
ghost use Rattle.nop_types.specs.declared.limits.TheConstants.{MAX_LINE_BYTES};
ghost use Rattle.outside.specs.Causes.{CountsFor};

use crate::error::{BraidError, MAX_TRACE_LINES};
use crate::traces::Traces;
use line_reader::{FirstLine, LineReader, ReadError};
use nop_types::MAX_LINE_BYTES;
use outside::Source;
use std::alloc::Global;

fn next<S: Source>(lines: &mut LineReader, source: &mut S) -> Result<Option<FirstLine>, BraidError>
    ensures first { IfOk result (Reaches lines.new) }
    ensures takes { TakesFrom lines.old lines.new (S.left source.old) (S.left source.new) }
    ensures err { IfErr result (IsNoLine lines.new) }
    ensures count { CountsFor (S.fault_count source.old) (S.fault_count source.new)
        BraidError.ReadFault result }
{
    match lines.next_line(source) {
        Ok(first) => Ok(first),
        Err(ReadError::ReadFault) => Err(BraidError::ReadFault),
        Err(ReadError::NoMemory) => Err(BraidError::NoMemory),
    }
}

/// Whether a line behind so many is one too many, or too long.
fn is_too_much(before: u32, len: usize) -> bool
    ensures { MatchBool result
        ((MAX_TRACE_LINES ≤ before) ⊎ (MAX_LINE_BYTES < len))
        ((before < MAX_TRACE_LINES) × (len ≤ MAX_LINE_BYTES)) }
{
    before >= MAX_TRACE_LINES || len > MAX_LINE_BYTES
}

/// Takes the next line.
fn take_line(
    lines: &mut LineReader,
    first: FirstLine,
    traces: &mut Traces,
) -> Result<(), BraidError>
    requires first { IsFirst lines.old first }
    requires most { lines.old.most ≡ MAX_TRACE_LINES }
    ensures advances { OnOk result (Advances lines.old lines.new first) }
    ensures taken { OnOk result (texts_of traces.new.lines.items
        ≡ texts_of traces.old.lines.items ++ take first.len lines.old.pending ∷ []) }
    ensures err { IfErr result (RefusesFirst lines.old first) }
{
    let before = lines.line();
    if is_too_much(before, first.len) {
        return Err(BraidError::Refuted {
            line: before.saturating_add(1),
        });
    }
    traces.take(lines.text(first))?;
    lines.take(first);
    Ok(())
}

/// Reads all lines.
pub(crate) fn read_all<S: Source>(alloc: Global, source: &mut S) -> Result<Traces, BraidError>
    ensures read { IsRead (S.left source.old) (S.left source.new) result }
    ensures count { CountsFor (S.fault_count source.old) (S.fault_count source.new)
        BraidError.ReadFault result }
{
    let mut lines = LineReader::new(alloc, MAX_TRACE_LINES);
    let mut traces = Traces::new(alloc);
    loop {
        let Some(first) = next(&mut lines, source)? else {
            return Ok(traces);
        };
        take_line(&mut lines, first, &mut traces)?;
    }
}
