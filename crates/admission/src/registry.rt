//! Which process each number belongs to, as far as a link was told,
//! and what the link answers to greetings.
ghost use Rattle.std.specs.Prelude.{◌≡◌, ◌≤◌, IsTrue, OnOk, OnErr, IfOk, find};
ghost use Rattle.std.specs.Option.{option_copied};
ghost use Rattle.admission.specs.Actors.{same_actor};
ghost use Rattle.admission.specs.Registries.{answered, answered_of, answer_to, client_claims};
ghost use Rattle.admission.specs.Registries.{has_room, is_question, may_have, none_noted, process_of};
ghost use Rattle.admission.specs.Registries.{with_noted};

use crate::actors::{actor_named, is_client};
use crate::claim::Claim;
use crate::greeting::{Greeting, Word};
use nop_types::{Actor, NoMemory, same_actor};
use std::alloc::Global;
use std::marker::Model;

/// The most client numbers that a link may note.
pub const MAX_CLIENT_CLAIMS: usize = 4096;

const _: () = prove!(MAX_CLIENT_CLAIMS == 4096);

/// Which process each number belongs to, as far as a link was told, in the order of the claims.
#[derive(Drop)]
pub struct Registry {
    digest: u64,
    most: usize,
    claims: Vec<Claim>,
}

impl Model for Registry {
    ghost use Rattle.std.specs.Prelude.{◌≤◌};
    ghost use Rattle.admission.specs.declared.registry.TheConstants.{MAX_CLIENT_CLAIMS};
    ghost use Rattle.admission.specs.Registries.{Claims, client_claims};

    ghost Value = { Claims };

    ghost view = { λ r. record { digest = r.digest; most = r.most; noted = r.claims.items } };

    ghost invariant = { λ r. (client_claims r.claims.items ≤ r.most)
        × (r.most ≤ MAX_CLIENT_CLAIMS) };
}

fn claim_of(claims: &[Claim], actor: Actor) -> Option<&Claim>
    ensures { option_copied result ≡ find (λ c. same_actor c.actor actor) claims.now }
{
    claims.iter().find(|c| same_actor(c.actor, actor))
}

fn process_of(claims: &[Claim], actor: Actor) -> Option<u64>
    ensures { result ≡ process_of claims.now actor }
{
    match claim_of(claims, actor) {
        Some(claim) => Some(claim.process),
        None => None,
    }
}

fn client_claims(claims: &[Claim]) -> usize
    ensures { result ≡ client_claims claims.now }
{
    claims.iter().filter(|c| is_client(c.actor)).count()
}

fn is_question(word: Word) -> bool
    ensures { result ≡ is_question word }
{
    match word {
        Word::Ask | Word::Claim => true,
        _ => false,
    }
}

impl Registry {
    /// Nothing is noted. The digest is that of the own list of hosts; of client numbers at most so many are noted.
    pub fn new(alloc: Global, digest: u64, most: usize) -> Registry
        requires { most ≤ MAX_CLIENT_CLAIMS }
        ensures { result ≡ none_noted digest most }
    {
        Registry {
            digest,
            most,
            claims: Vec::new(alloc),
        }
    }

    fn has_room(&self, actor: Actor) -> bool
        ensures { result ≡ has_room self.now actor }
    {
        !is_client(actor) || client_claims(&self.claims) < self.most
    }

    fn may_have(&self, actor: Actor, process: u64) -> bool
        ensures { result ≡ may_have self.now actor process }
    {
        match process_of(&self.claims, actor) {
            Some(known) => known == process,
            None => self.has_room(actor),
        }
    }

    /// Notes a claim, where none is noted.
    fn note(&mut self, actor: Actor, process: u64) -> Result<(), NoMemory>
        requires { IsTrue (may_have self.old actor process) }
        ensures ok { OnOk result (self.new ≡ with_noted self.old actor process) }
        ensures err { OnErr result (self.new ≡ self.old) }
    {
        if process_of(&self.claims, actor).is_none() {
            self.claims.push(Claim { actor, process })?;
        }
        Ok(())
    }

    /// The word of the answer to a question about an actor.
    fn judge(&mut self, actor: Actor, greeting: Greeting) -> Result<Option<Word>, NoMemory>
        ensures ok { IfOk result (λ word. answered_of self.old actor greeting ≡ (self.new, word)) }
        ensures err { OnErr result (self.new ≡ self.old) }
    {
        if !is_question(greeting.word) {
            return Ok(None);
        }
        if greeting.digest != self.digest {
            return Ok(Some(Word::Foreign));
        }
        if !self.may_have(actor, greeting.process) {
            return Ok(Some(Word::Taken));
        }
        match greeting.word {
            Word::Ask => Ok(Some(Word::Free)),
            _ => {
                self.note(actor, greeting.process)?;
                Ok(Some(Word::Noted))
            }
        }
    }

    /// What is answered to a greeting from the address of `source`, a node or a place of clients: None where it is no question, or
    /// speaks of a number that is none of the source's.
    #[tactic(auto, unfolding(crate::specs::Registries::answered))]
    pub fn answer(
        &mut self,
        source: Actor,
        greeting: Greeting,
    ) -> Result<Option<Greeting>, NoMemory>
        ensures ok { IfOk result (λ answer. let after = answered self.old source greeting in
            (self.new ≡ after.0) × (answer ≡ answer_to greeting after.1)) }
        ensures err { OnErr result (self.new ≡ self.old) }
    {
        let Some(actor) = actor_named(source, greeting.number) else {
            return Ok(None);
        };
        match self.judge(actor, greeting)? {
            Some(word) => Ok(Some(Greeting { word, ..greeting })),
            None => Ok(None),
        }
    }
}
