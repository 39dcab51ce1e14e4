//! What is written is read.

ghost use Rattle.std.specs.Prelude.{ℕ, List, Option, Some};
ghost use Rattle.transcript_reader.specs.Reading.{IsRefused};
ghost use Rattle.transcript_reader.specs.Transcripts.{SaysTheSame, Spells, Transcript};

/// Bytes that spell a transcript are not refused.
pub fn written_is_not_refused()
    ensures { (t : Transcript) (bytes : List ℕ) (left : Option (List ℕ)) (line clause : ℕ)
        → Spells t bytes → IsRefused (Some bytes) left line clause → ⊥ }
{}

/// Bytes say one thing, whichever transcript they spell.
pub fn read_in_one_way()
    ensures { (t u : Transcript) (bytes : List ℕ) → Spells t bytes → Spells u bytes
        → SaysTheSame t u }
{}
