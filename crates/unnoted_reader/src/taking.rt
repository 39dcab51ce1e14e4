//! The rows of a transcript, each as its line is read, with a mark for each claim.

ghost use Rattle.std.specs.Prelude.{IfOk};
ghost use Rattle.transcript_reader.specs.Steps.{so_far};
ghost use Rattle.unnoted_reader.specs.Reading.{TakesRow};

use crate::dash::{is_unnoted, row_as_read};
use crate::unnoted::Unnoted;
use nop_types::NoMemory;
use std::alloc::Global;
use transcript_reader::{Part, RowTaker};
use transcript_rows::Row;

/// Takes the row of the line with this number, and its mark if it claims something, and says whether it is in its place.
fn take_row(line: u32, row: Row, unnoted: bool, to: &mut Unnoted) -> Result<bool, NoMemory>
    ensures { IfOk result (λ took. TakesRow line row unnoted (so_far to.old.taken)
        to.old.marks.items (so_far to.new.taken) to.new.marks.items took) }
{
    let before = to.taken.claims.len();
    if !to.taken.take_row(line, row)? {
        return Ok(false);
    }
    if to.taken.claims.len() > before {
        to.marks.push(unnoted)?;
    }
    Ok(true)
}

impl RowTaker for Unnoted {
    ghost use Rattle.unnoted_reader.specs.Laws.{same_length};
    ghost use Rattle.unnoted_reader.specs.Reading.{read_so_far, KeepsMarks};
    ghost use Rattle.unnoted_reader.specs.Unnoted.{as_read};

    ghost as_read = { as_read };

    ghost read = { read_so_far };

    ghost keeps = { KeepsMarks };

    ghost same_length = { same_length };

    fn take_text(
        &mut self,
        alloc: Global,
        line: u32,
        text: &[u8],
        scratch: &mut Vec<u8>,
    ) -> Result<bool, NoMemory> {
        let unnoted = is_unnoted(text);
        match row_as_read(alloc, text, unnoted, scratch)? {
            Some(row) => take_row(line, row, unnoted, self),
            None => Ok(false),
        }
    }

    fn part(&self) -> Part {
        self.taken.part
    }
}
