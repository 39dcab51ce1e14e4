//! What takes the rows of a transcript.

ghost use Rattle.std.specs.Prelude.{◌≡◌, ℕ, List, IfOk, length};
ghost use Rattle.transcript_reader.specs.AsRead.{IsTaken};
ghost use Rattle.transcript_reader.specs.Steps.{SoFar};
ghost use Rattle.transcript_rows.specs.declared.row.Row.{Row};

use crate::part::Part;
use crate::taken::Taken;
use nop_types::NoMemory;
use std::alloc::Global;
use transcript_rows::read_row;

/// Takes the rows of a transcript, each line read as another text of its length.
pub trait RowTaker {
    ghost as_read: { List ℕ → List ℕ };

    /// What was read.
    ghost read: { Self → SoFar };

    /// What it keeps besides, of the lines behind the first and of their rows.
    ghost keeps: { Self → List (List ℕ) → List Row → Type 0 };

    /// Takes the row that a text is as it is read, and says whether it is one that may come here.
    fn take_text(
        &mut self,
        alloc: Global,
        line: u32,
        text: &[u8],
        scratch: &mut Vec<u8>,
    ) -> Result<bool, NoMemory>
        ensures { IfOk result (IsTaken as_read read keeps line text.now self.old self.new) };

    /// Where the next line is.
    fn part(&self) -> Part
        ensures { result ≡ (read self.now).part };

    ghost same_length: { (text : List ℕ) → length (as_read text) ≡ length text };
}

impl RowTaker for Taken {
    ghost use Rattle.std.specs.Prelude.{⊤, refl};
    ghost use Rattle.transcript_reader.specs.Steps.{so_far};

    ghost as_read = { λ text. text };

    ghost read = { λ taken. so_far taken };

    ghost keeps = { λ _ _ _. ⊤ };

    ghost same_length = { λ _. refl };

    fn take_text(
        &mut self,
        alloc: Global,
        line: u32,
        text: &[u8],
        scratch: &mut Vec<u8>,
    ) -> Result<bool, NoMemory> {
        match read_row(alloc, text, scratch)? {
            Some(row) => self.take_row(line, row),
            None => Ok(false),
        }
    }

    fn part(&self) -> Part {
        self.part
    }
}
