//! What was written is read again.

ghost use Rattle.std.specs.Prelude.{◌≡◌, ◌<◌, ◌^◌, ℕ, IsTrue, List, Some, decimal};
ghost use Rattle.hex.specs.Hex.{IsBytes};
ghost use Rattle.line_fields.specs.Fields.{actor_of, bytes_of, number_of, IsActorOf};
ghost use Rattle.nop_types.specs.Configuration.{Configuration, is_configuration};
ghost use Rattle.nop_types.specs.declared.output.Actor.{Actor};
ghost use Rattle.transcript_text.specs.Transcript.{actor_text, hex_text};

/// A number of 64 bits that is written in decimal.
#[tactic(auto, using(crate::proofs::FieldTexts::number_again))]
pub fn written_numbers_are_read()
    ensures { (n : ℕ) → n < 2 ^ 64 → number_of (decimal n) ≡ Some n }
{}

/// The name of an actor of the configuration.
#[tactic(auto, using(crate::proofs::FieldTexts::actor_named_again))]
pub fn written_actors_are_read()
    ensures { (c : Configuration) (a : Actor) → IsTrue (is_configuration c) → IsActorOf c a
        → actor_of c (actor_text a) ≡ Some a }
{}

/// Bytes in hexadecimal.
#[tactic(auto, using(crate::proofs::FieldTexts::bytes_again))]
pub fn written_bytes_are_read()
    ensures { (bytes : List ℕ) → IsBytes bytes → bytes_of (hex_text bytes) ≡ Some bytes }
{}
