//! Of histories of which all results were noted the answer is what it is of any transcript.

ghost use Rattle.std.specs.Prelude.{ℕ, List, Option, Result};
ghost use Rattle.linearize.specs.Answers.{Decides};
ghost use Rattle.linearize.specs.Noted as noted;
ghost use Rattle.linearize.specs.declared.answer.Answer.{Answer};
ghost use Rattle.nop_types.specs.Meaning.{Meaning};
ghost use Rattle.transcript_reader.specs.declared.check_error.CheckError.{CheckError};
ghost use Rattle.unnoted_reader.specs.Unnoted.{AllNoted};

/// Where no line has a `?`, the bytes spell the transcript, and the answer is right for its claims as they are.
pub fn as_ever<S>()
    ensures { (m : Meaning S) (part_of : List ℕ → List ℕ) (most_parts most : ℕ)
        (before left : Option (List ℕ)) (answer : Result Answer CheckError)
        (decides : Decides m part_of most_parts most before left answer)
        → AllNoted decides.read.texts
        → noted.Decides m part_of most_parts most before left answer }
{}
