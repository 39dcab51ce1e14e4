//! A transcript, read from a source.

ghost use Rattle.std.specs.Prelude.{◌≡◌, ◌≤◌, ◌+◌, ℕ, List, [], IfOk, OnOk, IfErr};
ghost use Rattle.line_reader.specs.Reading.{opening, IsFirst, Reaches, TakesFrom};
ghost use Rattle.outside.specs.Causes.{CountsFor};
ghost use Rattle.transcript_reader.specs.AsRead as rows;
ghost use Rattle.transcript_reader.specs.AsRead.{IsFinished, ReadsFirst};
ghost use Rattle.transcript_reader.specs.Reading.{IsRead, IsNoLine};
ghost use Rattle.transcript_reader.specs.Steps.{nothing_yet};
ghost use Rattle.transcript_reader.specs.declared.limits.TheConstants.{MAX_TRANSCRIPT_LINES};

use crate::check_error::CheckError;
use crate::limits::MAX_TRANSCRIPT_LINES;
use crate::part::Part;
use crate::row_taker::RowTaker;
use crate::taken::Taken;
use crate::taking::{take_header, take_line};
use line_reader::{FirstLine, LineReader, ReadError};
use outside::Source;
use std::alloc::Global;

fn next<S: Source>(lines: &mut LineReader, source: &mut S) -> Result<Option<FirstLine>, CheckError>
    ensures first { IfOk result (Reaches lines.new) }
    ensures takes { TakesFrom lines.old lines.new (S.left source.old) (S.left source.new) }
    ensures err { IfErr result (IsNoLine lines.new) }
    ensures count { CountsFor (S.fault_count source.old) (S.fault_count source.new)
        CheckError.ReadFault result }
{
    match lines.next_line(source) {
        Ok(first) => Ok(first),
        Err(ReadError::ReadFault) => Err(CheckError::ReadFault),
        Err(ReadError::NoMemory) => Err(CheckError::NoMemory),
    }
}

/// Reads the first line.
fn read_first<S: Source>(
    lines: &mut LineReader,
    source: &mut S,
    scratch: &mut Vec<u8>,
) -> Result<(), CheckError>
    requires { lines.old ≡ opening MAX_TRANSCRIPT_LINES }
    ensures ok { OnOk result (ReadsFirst (S.left source.old) (S.left source.new) lines.new) }
    ensures err { (f : List ℕ → List ℕ) → IfErr result
        (rows.IsError f (S.left source.old) (S.left source.new)) }
    ensures count { CountsFor (S.fault_count source.old) (S.fault_count source.new)
        CheckError.ReadFault result }
{
    match next(lines, source)? {
        Some(first) => take_header(lines, first, scratch),
        None => Err(CheckError::Refuted { line: 1, clause: 2 }),
    }
}

/// Whether the last line was there, behind so many lines.
fn finish(part: Part, lines: u32) -> Result<u32, CheckError>
    requires { lines ≤ MAX_TRANSCRIPT_LINES }
    ensures { IsFinished part lines result }
{
    if matches!(part, Part::Over) {
        return Ok(lines);
    }
    Err(CheckError::Refuted {
        line: lines + 1,
        clause: 2,
    })
}

/// Reads a whole transcript into one that took nothing yet: how many lines it has, or the first line
/// that breaks clause 1, or else clause 2.
pub fn read_rows<T: RowTaker, S: Source>(
    alloc: Global,
    source: &mut S,
    taker: &mut T,
) -> Result<u32, CheckError>
    requires nothing { T.read taker.old ≡ nothing_yet }
    requires none { T.keeps taker.old [] [] }
    ensures read { rows.IsRead T.as_read T.read T.keeps
        (S.left source.old) (S.left source.new) taker.new result }
    ensures count { CountsFor (S.fault_count source.old) (S.fault_count source.new)
        CheckError.ReadFault result }
{
    let mut lines = LineReader::new(alloc, MAX_TRANSCRIPT_LINES);
    let mut scratch = Vec::new(alloc);
    read_first(&mut lines, source, &mut scratch)?;
    loop {
        let Some(first) = next(&mut lines, source)? else {
            return finish(taker.part(), lines.line());
        };
        take_line(alloc, &mut lines, first, &mut scratch, taker)?;
    }
}

/// Reads a whole transcript: what it says, and how many lines it has; or the first line that breaks
/// clause 1, or else clause 2. Of what claims nothing nothing is kept.
pub fn read_transcript<S: Source>(alloc: Global, source: &mut S) -> Result<(Taken, u32), CheckError>
    ensures read { IsRead (S.left source.old) (S.left source.new) result }
    ensures count { CountsFor (S.fault_count source.old) (S.fault_count source.new)
        CheckError.ReadFault result }
{
    let mut taken = Taken::new(alloc);
    let lines = read_rows(alloc, source, &mut taken)?;
    Ok((taken, lines))
}
