//! What the definitions of words say together.

ghost use Rattle.std.specs.Prelude.{◌≡◌, ℕ, List, Some};
ghost use Rattle.hex.specs.Hex.{IsBytes};
ghost use Rattle.op_text.specs.Words.{bytes_of, word_of};

/// The word for bytes stands for these bytes.
#[tactic(auto, using(crate::proofs::WordLemmas::read_back))]
pub fn words_are_read_back()
    ensures { (bytes : List ℕ) → IsBytes bytes → bytes_of (word_of bytes) ≡ Some bytes }
{}
