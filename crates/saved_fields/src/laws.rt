//! What is spelled is read, and what is read is spelled so.

ghost use Rattle.std.specs.Prelude.{◌<◌, ◌^◌, ℕ};
ghost use Rattle.saved_fields.specs.Fields.{IsField};
ghost use Rattle.saved_fields.specs.Lists.{ListFits, list_at, list_bytes};
ghost use Rattle.saved_fields.specs.Numbers.{NumberFits, number_at, number_bytes};
ghost use Rattle.saved_fields.specs.Texts.{TextFits, text_at, text_bytes};

use crate::field::Field;

/// Numbers are read as they are spelled.
#[tactic(auto, using(crate::specs::Reading::numbers))]
pub fn numbers_are_a_field()
    ensures { IsField NumberFits number_bytes number_at }
{}

/// Texts are, whatever is the most that they have.
#[tactic(auto, using(crate::specs::Reading::texts))]
pub fn texts_are_a_field()
    ensures { (most : ℕ) → IsField (TextFits most) text_bytes (text_at most) }
{}

/// Where values are a field, lists of them are, whatever is the most that they have.
#[tactic(auto, using(crate::specs::ListReading::lists))]
pub fn lists_are_a_field<E: Field>()
    ensures { (most : ℕ) → most < 2 ^ 64
        → IsField (ListFits most E.fits) (list_bytes E.spell) (list_at most E.read_at) }
{}
