//! A process that starts: it asks for its number, claims it, and may serve where enough agree.
ghost use Rattle.std.specs.Prelude.{◌≡◌, IfOk};
ghost use Rattle.admission.specs.Rounds.{agree, asked_again, gone_on, heard, heard_word};
ghost use Rattle.admission.specs.Rounds.{is_admitted, is_agreement, is_ask, is_claim, is_due};
ghost use Rattle.admission.specs.Rounds.{is_going, is_late, is_refusal, is_to, next_round};
ghost use Rattle.admission.specs.Rounds.{opening, reminded, turned};

use crate::greeting::{Greeting, Word};
use crate::others::{agreed, forget, have_answered, is_other, mark, others_of};
use crate::own::{ALL_MICROS, ASK_MICROS, Other, Own, REMIND_MICROS, ROUND_MICROS, Standing};
use nop_types::{Actor, NoMemory, number_of};
use std::alloc::Global;
use std::marker::Model;

/// A process that starts, and what it was answered so far. Times are in microseconds of any clock.
#[derive(Drop)]
pub struct Admission {
    own: Own,
    others: Vec<Other>,
    word: Word,
    start: u64,
    last: Option<u64>,
    standing: Standing,
}

impl Model for Admission {
    ghost use Rattle.admission.specs.Rounds.{Asking};

    ghost Value = { Asking };

    ghost view = { λ a.
        record {
          own = a.own;
          others = a.others.items;
          word = a.word;
          start = a.start;
          last = a.last;
          standing = a.standing;
        } };
}

fn is_ask(word: Word) -> bool
    ensures { result ≡ is_ask word }
{
    match word {
        Word::Ask => true,
        _ => false,
    }
}

fn is_claim(word: Word) -> bool
    ensures { result ≡ is_claim word }
{
    match word {
        Word::Claim => true,
        _ => false,
    }
}

fn is_going(standing: Standing) -> bool
    ensures { result ≡ is_going standing }
{
    match standing {
        Standing::Going => true,
        _ => false,
    }
}

fn is_admitted(standing: Standing) -> bool
    ensures { result ≡ is_admitted standing }
{
    match standing {
        Standing::Admitted => true,
        _ => false,
    }
}

/// Whether a word agrees to what is asked.
fn is_agreement(word: Word, asked: Word, standing: Standing) -> bool
    ensures { result ≡ is_agreement word asked standing }
{
    match word {
        Word::Free => is_ask(asked) && is_going(standing),
        Word::Noted => is_claim(asked) && (is_going(standing) || is_admitted(standing)),
        _ => false,
    }
}

/// Whether a word ends a round.
fn is_refusal(word: Word) -> bool
    ensures { result ≡ is_refusal word }
{
    match word {
        Word::Taken | Word::Foreign => true,
        _ => false,
    }
}

fn is_due(period: u64, last: Option<u64>, now: u64) -> bool
    ensures { result ≡ is_due period last now }
{
    match last {
        Some(last) => now.saturating_sub(last) >= period,
        None => true,
    }
}

impl Own {
    /// Whether an answer is to what this process asked.
    fn is_asked(self, answer: Greeting) -> bool
        ensures { result ≡ is_to self answer }
    {
        answer.digest == self.digest
            && answer.number == number_of(self.actor)
            && answer.process == self.process
    }
}

impl Admission {
    /// Begins to ask those of the nodes that are not the own actor, and no clients.
    pub fn new(alloc: Global, own: Own, nodes: &[Actor], now: u64) -> Result<Admission, NoMemory>
        ensures { IfOk result (λ a. a ≡ opening own nodes.now now) }
    {
        Ok(Admission {
            own,
            others: others_of(alloc, own.actor, nodes)?,
            word: Word::Ask,
            start: now,
            last: None,
            standing: Standing::Going,
        })
    }

    pub fn standing(&self) -> Standing
        ensures { result ≡ self.now.standing }
    {
        self.standing
    }

    /// The nodes that are asked: what `turn` gives goes to those that have not answered.
    pub fn others(&self) -> &[Other]
        ensures { result.now ≡ self.now.others }
    {
        &self.others
    }

    fn agree(&self, now: u64) -> bool
        ensures { result ≡ agree self.now now }
    {
        agreed(
            self.own.actor,
            &self.others,
            now.saturating_sub(self.start) >= ALL_MICROS,
        )
    }

    fn is_late(&self, now: u64) -> bool
        ensures { result ≡ is_late self.now now }
    {
        now.saturating_sub(self.start) >= ROUND_MICROS
    }

    fn ask_again(&mut self, period: u64, now: u64) -> Option<Word>
        ensures { asked_again period self.old now ≡ (self.new, result) }
    {
        if is_due(period, self.last, now) {
            self.last = Some(now);
            Some(self.word)
        } else {
            None
        }
    }

    fn next_round(&mut self, now: u64) -> Option<Word>
        ensures { next_round self.old.word self.old now ≡ (self.new, result) }
    {
        match self.word {
            Word::Ask => {
                forget(&mut self.others);
                self.word = Word::Claim;
                self.start = now;
                self.last = Some(now);
                Some(Word::Claim)
            }
            _ => {
                self.standing = Standing::Admitted;
                None
            }
        }
    }

    fn go_on(&mut self, now: u64) -> Option<Word>
        ensures { gone_on self.old now ≡ (self.new, result) }
    {
        if self.agree(now) {
            return self.next_round(now);
        }
        if self.is_late(now) {
            self.standing = Standing::Late;
            return None;
        }
        self.ask_again(ASK_MICROS, now)
    }

    fn remind(&mut self, now: u64) -> Option<Word>
        ensures { reminded self.old now ≡ (self.new, result) }
    {
        if have_answered(&self.others) {
            None
        } else {
            self.ask_again(REMIND_MICROS, now)
        }
    }

    /// Goes on at a time: the word that is asked then of all that have not answered.
    #[tactic(auto, unfolding(crate::specs::Rounds::turned))]
    pub fn turn(&mut self, now: u64) -> Option<Word>
        ensures { turned self.old now ≡ (self.new, result) }
    {
        match self.standing {
            Standing::Going => self.go_on(now),
            Standing::Admitted => self.remind(now),
            _ => None,
        }
    }

    fn hear_word(&mut self, word: Word, from: Actor)
        ensures { self.new ≡ heard_word word self.old from }
    {
        if is_agreement(word, self.word, self.standing) {
            mark(&mut self.others, from);
        } else if is_refusal(word) && is_going(self.standing) {
            self.standing = Standing::Refused;
        }
    }

    /// Takes a greeting from the address of an actor.
    #[tactic(auto, unfolding(crate::specs::Rounds::heard))]
    pub fn hear(&mut self, from: Actor, greeting: Greeting)
        ensures { self.new ≡ heard self.old from greeting }
    {
        if self.own.is_asked(greeting) && is_other(&self.others, from) {
            self.hear_word(greeting.word, from);
        }
    }
}
