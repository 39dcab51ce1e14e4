ghost use Rattle.std.specs.Prelude.{◌≡◌, ◌++◌, ◌∷◌, [], List, ℕ, Some};
ghost use Rattle.line_fields.specs.Fields.{fields};
ghost use Rattle.nop_types.specs.Lines.{Line};
ghost use Rattle.transcript_rows.specs.Reading.{row_of_fields};
ghost use Rattle.transcript_rows.specs.Rows.{RowFits, row_text};
ghost use Rattle.transcript_rows.specs.LineRows.{row_of};
ghost use Rattle.transcript_rows.specs.declared.row.Row.{Row};
ghost use Rattle.transcript_text.specs.Transcript.{line_text};

/// A line that is the text of a row gives that row.
#[tactic(auto, using(crate::proofs::RowTexts::row_again))]
pub fn written_rows_are_read()
    ensures { (row : Row) (line : List ℕ) → RowFits row → row_text row ≡ line ++ 10 ∷ []
        → row_of_fields (fields line) ≡ Some row }
{}

/// What is written of an event in a run is the text of a row.
pub fn lines_are_rows()
    ensures { (line : Line) → row_text (row_of line) ≡ line_text line }
{}
