//! What follows for greetings, for links and for processes that start.

ghost use Rattle.std.specs.Prelude.{◌≡◌, ◌<◌, ℕ, List, Ok, Some, true, slice_get};
ghost use Rattle.nop_types.specs.Lists.{Has};
ghost use Rattle.nop_types.specs.declared.output.Actor.{Actor};
ghost use Rattle.admission.specs.declared.claim.Claim.{Claim};
ghost use Rattle.admission.specs.declared.greeting.Greeting.{Greeting};
ghost use Rattle.admission.specs.declared.greeting.Word.{Word};
ghost use Rattle.admission.specs.declared.greeting.Word.TheVariants as words;
ghost use Rattle.admission.specs.declared.own.Own.{Own};
ghost use Rattle.admission.specs.declared.own.Standing.TheVariants as standings;
ghost use Rattle.admission.specs.Actors.{same_actor};
ghost use Rattle.admission.specs.Asked.{BeganToClaim, ByMost, Event, IsAnswered, asked, run};
ghost use Rattle.admission.specs.Greetings.{AreBytes, GreetingFits, reading, spelling};
ghost use Rattle.admission.specs.Questions.{Life, NotedByMost, Question, after, was_told};
ghost use Rattle.admission.specs.Registries.{Claims, answered, none_noted, process_of};
ghost use Rattle.admission.specs.Rounds.{how_many, opening, others_of};

/// The spelling of a greeting is read as that greeting.
pub fn spelled_is_read()
    ensures { (g : Greeting) → GreetingFits g → reading (spelling g) ≡ Ok g }
{}

/// Bytes that are read as a greeting are its spelling.
pub fn read_is_spelled()
    ensures { (bytes : List ℕ) (g : Greeting) → AreBytes bytes → reading bytes ≡ Ok g
        → bytes ≡ spelling g }
{}

/// A question that only asks changes nothing that a link keeps.
pub fn asking_leaves_no_trace()
    ensures { (r : Claims) (source : Actor) (g : Greeting) → g.word ≡ words.Ask
        → (answered r source g).0 ≡ r }
{}

/// Whatever a link is asked: to whom it said that a number is noted has the number from then on, each number stands once among the
/// claims, and so no second process was told the same.
pub fn numbers_belong_to_one()
    ensures kept { (r : Claims) (qs : List Question) (a : Actor) (p : ℕ)
        → was_told r qs a p ≡ true → process_of (after r qs).noted a ≡ Some p }
    ensures one { (r : Claims) (qs : List Question) (a : Actor) (p q : ℕ)
        → was_told r qs a p ≡ true → was_told r qs a q ≡ true → p ≡ q }
    ensures once { (digest most : ℕ) (qs : List Question) (i j : ℕ) (c d : Claim)
        → slice_get (after (none_noted digest most) qs).noted i ≡ Some c
        → slice_get (after (none_noted digest most) qs).noted j ≡ Some d
        → same_actor c.actor d.actor ≡ true → i ≡ j }
{}

/// Two processes that more than half of the same links noted under one number are one, where these links kept their memory.
pub fn noted_by_most_is_one()
    ensures { (lives : List Life) (a : Actor) (p q : ℕ) → NotedByMost lives a p
        → NotedByMost lives a q → p ≡ q }
{}

/// A process that was admitted was noted by all that count or by more than half of them.
pub fn admitted_by_most()
    ensures { (own : Own) (nodes : List Actor) (now : ℕ) (es : List Event)
        → (run (opening own nodes now) es).standing ≡ standings.Admitted
        → ByMost own es (run (opening own nodes now) es) }
{}

/// A process whose round of Asks goes on has claimed nothing; before it claims, that round came to an agreement.
pub fn claims_come_after_asks()
    ensures asks { (own : Own) (nodes : List Actor) (now : ℕ) (es : List Event)
        → (run (opening own nodes now) es).word ≡ words.Ask
        → (w : Word) → Has (asked (opening own nodes now) es) w → w ≡ words.Ask }
    ensures claims { (own : Own) (nodes : List Actor) (now : ℕ) (es : List Event)
        → Has (asked (opening own nodes now) es) words.Claim
        → BeganToClaim own (opening own nodes now) es }
{}

/// Two processes that were admitted under one actor's number are one, where the links that noted them kept their memory, and some node
/// counts.
pub fn admitted_processes_are_one()
    ensures { (life : Actor → Life) (a b : Own) (nodes : List Actor) (now later : ℕ)
        (es fs : List Event) → a.actor ≡ b.actor → IsAnswered life a es → IsAnswered life b fs
        → 0 < how_many a.actor (others_of a.actor nodes)
        → (run (opening a nodes now) es).standing ≡ standings.Admitted
        → (run (opening b nodes later) fs).standing ≡ standings.Admitted
        → a.process ≡ b.process }
{}
