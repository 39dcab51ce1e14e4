//! The fields of a line.

ghost use Rattle.std.specs.Prelude.{◌≡◌, ◌∷◌, [], ◌==◌, position, MatchOption};
ghost use Rattle.std.specs.Option.{option_copied};
ghost use Rattle.line_fields.specs.Fields.{fields, is_text};
ghost use Rattle.line_fields.specs.Split.{other_fields};

/// Whether the field is this word.
pub fn is_word(field: &[u8], word: &str) -> bool
    ensures { result ≡ is_text word.now field.now }
{
    field == word.as_bytes()
}

fn space(line: &[u8]) -> Option<usize>
    ensures { result ≡ position (λ b. b == 32) line.now }
{
    line.iter().position(|b| *b == b' ')
}

/// The first field, and what follows the space after it.
#[tactic(auto, using(crate::proofs::SplitLemmas::fields_cut))]
pub fn cut(line: &[u8]) -> (&[u8], Option<&[u8]>)
    ensures { fields line.now ≡ result.0.now ∷ other_fields (option_copied result.1) }
{
    match space(line) {
        Some(i) => (&line[..i], Some(&line[i + 1..])),
        None => (line, None),
    }
}

/// The next field of those that follow, and what follows it.
pub fn next_field(rest: Option<&[u8]>) -> Option<(&[u8], Option<&[u8]>)>
    ensures { let fields = other_fields (option_copied rest.entry) in
        MatchOption result (fields ≡ [])
        (λ p. fields ≡ p.0.now ∷ other_fields (option_copied p.1)) }
{
    match rest {
        Some(rest) => Some(cut(rest)),
        None => None,
    }
}
