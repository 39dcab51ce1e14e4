//! What is written is read, and what is read is in its ranges.

ghost use Rattle.std.specs.Prelude.{◌≡◌, List, ℕ, Some};
ghost use Rattle.std.specs.List.{AllByRecursion};
ghost use Rattle.nop_types.specs.Given.{Given};
ghost use Rattle.nop_types.specs.declared.output.Actor.{Actor};
ghost use Rattle.nop_types.specs.declared.output.Out.{Out};
ghost use Rattle.trace_rows.specs.Reading.{row_of};
ghost use Rattle.trace_rows.specs.Rows.{RowFits, RowIsKept, row_text};
ghost use Rattle.trace_rows.specs.TracedRows.{ActorFits, AreReadAgain, GivenFits, OutFits};
ghost use Rattle.trace_rows.specs.declared.row.Row.{Row};

/// The text of a row is read as that row.
#[tactic(auto, using(crate::proofs::RowTexts::row_read))]
pub fn rows_are_read()
    ensures { (row : Row) → RowFits row → RowIsKept row → row_of (row_text row) ≡ Some row }
{}

/// What is read is in its ranges.
#[tactic(auto, using(crate::proofs::Fitting::row_fits))]
pub fn read_rows_fit()
    ensures { (line : List ℕ) (row : Row) → row_of line ≡ Some row → RowFits row }
{}

/// The lines that a step has in a trace are those of its rows, and each is read again.
#[tactic(auto, using(crate::proofs::TracedLines::traced_again))]
pub fn traced_lines_are_read()
    ensures { (actor : Actor) (x : Given) (os : List Out) → ActorFits actor → GivenFits x
        → AllByRecursion OutFits os → AreReadAgain actor x os }
{}
