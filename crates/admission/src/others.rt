//! The nodes that are asked, and which of them have answered.

ghost use Rattle.std.specs.Prelude.{◌≡◌, IfOk, map};
ghost use Rattle.std.specs.List.{list_all};
ghost use Rattle.admission.specs.Rounds.{agreed, answers, forgotten, have_all, have_most, how_many};
ghost use Rattle.admission.specs.Rounds.{is_other, marked, others_of, unanswered};

use crate::actors::{counts, is_asked};
use crate::own::Other;
use nop_types::{Actor, NoMemory, same_actor};
use std::alloc::Global;

fn unanswered(actor: Actor) -> Other
    ensures { result ≡ unanswered actor }
{
    Other {
        actor,
        has_answered: false,
    }
}

pub(crate) fn others_of(alloc: Global, own: Actor, nodes: &[Actor]) -> Result<Vec<Other>, NoMemory>
    ensures { IfOk result (λ others. others.items ≡ others_of own nodes.now) }
{
    let mut others = Vec::new(alloc);
    for node in nodes {
        if is_asked(own, *node) {
            others.push(unanswered(*node))?;
        }
    }
    Ok(others)
}

fn how_many(own: Actor, others: &[Other]) -> usize
    ensures { result ≡ how_many own others.now }
{
    others.iter().filter(|o| counts(own, o.actor)).count()
}

fn answers(own: Actor, others: &[Other]) -> usize
    ensures { result ≡ answers own others.now }
{
    others
        .iter()
        .filter(|o| counts(own, o.actor) && o.has_answered)
        .count()
}

/// Whether all that count have answered.
fn have_all(own: Actor, others: &[Other]) -> bool
    ensures { result ≡ have_all own others.now }
{
    how_many(own, others) <= answers(own, others)
}

/// Whether more than half of those that count have answered: fewer have not.
#[tactic(auto, using(crate::proofs::Halves::fewer_are_left))]
fn have_most(own: Actor, others: &[Other]) -> bool
    ensures { result ≡ have_most own others.now }
{
    let answers = answers(own, others);
    how_many(own, others).saturating_sub(answers) < answers
}

/// Whether all have answered, or after a while more than half.
pub(crate) fn agreed(own: Actor, others: &[Other], waited: bool) -> bool
    ensures { result ≡ agreed own others.now waited }
{
    have_all(own, others) || (waited && have_most(own, others))
}

pub(crate) fn have_answered(others: &[Other]) -> bool
    ensures { result ≡ list_all (λ o. o.has_answered) others.now }
{
    others.iter().all(|o| o.has_answered)
}

pub(crate) fn is_other(others: &[Other], from: Actor) -> bool
    ensures { result ≡ is_other others.now from }
{
    others.iter().any(|o| same_actor(o.actor, from))
}

fn marked(from: Actor, other: Other) -> Other
    ensures { result ≡ marked from other }
{
    if same_actor(other.actor, from) {
        Other {
            has_answered: true,
            ..other
        }
    } else {
        other
    }
}

/// One of them has answered.
pub(crate) fn mark(others: &mut [Other], from: Actor)
    ensures { others.new ≡ map (marked from) others.old }
{
    for other in others.iter_mut() {
        *other = marked(from, *other);
    }
}

/// None of them has answered.
pub(crate) fn forget(others: &mut [Other])
    ensures { others.new ≡ forgotten others.old }
{
    for other in others.iter_mut() {
        *other = unanswered(other.actor);
    }
}
