//! The fields of a line that follow its first one.

ghost use Rattle.std.specs.Prelude.{◌≡◌, ◌∷◌, [], ℕ, List, Ok, Err, MatchResult};
ghost use Rattle.std.specs.Option.{option_copied};
ghost use Rattle.line_fields.specs.Split.{other_fields};
ghost use Rattle.schedule_text.specs.Rules.{one_field, one_or_two_fields, three_fields, two_fields};

use crate::rule::Rule;
use line_fields::cut;

/// The next field of those that follow, and what follows it.
pub fn next_field(rest: Option<&[u8]>) -> Result<(&[u8], Option<&[u8]>), Rule>
    ensures { let fields = other_fields (option_copied rest.entry) in
        MatchResult result (λ p. fields ≡ p.0.now ∷ other_fields (option_copied p.1))
        (λ rule. (rule ≡ Rule.WrongFieldCount) × (fields ≡ [])) }
{
    match rest {
        Some(rest) => Ok(cut(rest)),
        None => Err(Rule::WrongFieldCount),
    }
}

/// No field follows.
pub fn no_field(rest: Option<&[u8]>) -> Result<(), Rule>
    ensures { let fields = other_fields (option_copied rest.entry) in
        MatchResult result (λ _. fields ≡ [])
        (λ rule. (rule ≡ Rule.WrongFieldCount) × (first : List ℕ) × (more : List (List ℕ))
        × (fields ≡ first ∷ more)) }
{
    match rest {
        Some(_) => Err(Rule::WrongFieldCount),
        None => Ok(()),
    }
}

/// The only field of those that follow.
pub fn one_field(rest: Option<&[u8]>) -> Result<&[u8], Rule>
    ensures { let read = one_field (other_fields (option_copied rest.entry)) in
        MatchResult result (λ field. read ≡ Ok field.now) (λ rule. read ≡ Err rule) }
{
    match rest {
        Some(rest) => match cut(rest) {
            (field, None) => Ok(field),
            (_, Some(_)) => Err(Rule::WrongFieldCount),
        },
        None => Err(Rule::WrongFieldCount),
    }
}

/// The first of the fields that follow, and the second one if there is one.
#[tactic(auto, using(crate::proofs::SplitLemmas::more_than_two))]
pub fn one_or_two_fields(rest: Option<&[u8]>) -> Result<(&[u8], Option<&[u8]>), Rule>
    ensures { let read = one_or_two_fields (other_fields (option_copied rest.entry)) in
        MatchResult result (λ p. read ≡ Ok (p.0.now, option_copied p.1))
        (λ rule. read ≡ Err rule) }
{
    let (first, rest) = next_field(rest)?;
    let Some(rest) = rest else {
        return Ok((first, None));
    };
    match cut(rest) {
        (second, None) => Ok((first, Some(second))),
        (_, Some(_)) => Err(Rule::WrongFieldCount),
    }
}

/// The fields that follow, if they are two.
#[tactic(auto, using(crate::proofs::SplitLemmas::second_of))]
pub fn two_fields(rest: Option<&[u8]>) -> Result<(&[u8], &[u8]), Rule>
    ensures { let read = two_fields (other_fields (option_copied rest.entry)) in
        MatchResult result (λ p. read ≡ Ok (p.0.now, p.1.now)) (λ rule. read ≡ Err rule) }
{
    let (first, rest) = next_field(rest)?;
    match one_field(rest) {
        Ok(second) => Ok((first, second)),
        Err(rule) => Err(rule),
    }
}

/// The fields that follow, if they are three.
#[tactic(auto, using(crate::proofs::SplitLemmas::others_of))]
pub fn three_fields(rest: Option<&[u8]>) -> Result<(&[u8], &[u8], &[u8]), Rule>
    ensures { let read = three_fields (other_fields (option_copied rest.entry)) in
        MatchResult result (λ p. read ≡ Ok (p.0.now, p.1.now, p.2.now))
        (λ rule. read ≡ Err rule) }
{
    let (first, rest) = next_field(rest)?;
    match two_fields(rest) {
        Ok((second, third)) => Ok((first, second, third)),
        Err(rule) => Err(rule),
    }
}
