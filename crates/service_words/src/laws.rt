//! What the definitions of lines say together.

ghost use Rattle.std.specs.Prelude.{◌≡◌, ◌⊎◌, ℕ, List};
ghost use Rattle.service_words.specs.Lines.{Texts, in_hex, in_words};

/// A line that is changed into words is itself again in hexadecimal.
#[tactic(auto, using(crate::proofs::LineLemmas::words_again))]
pub fn words_are_read_back()
    ensures { (t : Texts) (line : List ℕ) → (in_words t line ≡ line)
        ⊎ (in_hex t (in_words t line) ≡ line) }
{}
