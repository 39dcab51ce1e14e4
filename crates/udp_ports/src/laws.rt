//! What follows for processes that were admitted, and for the links that noted them.

ghost use Rattle.std.specs.Prelude.{◌≡◌, ◌<◌, ℕ, List, Some, true};
ghost use Rattle.nop_types.specs.declared.output.Actor.{Actor};
ghost use Rattle.admission.specs.declared.own.Own.{Own};
ghost use Rattle.admission.specs.Asked.{IsAnswered};
ghost use Rattle.admission.specs.Questions.{Life, life_tells};
ghost use Rattle.admission.specs.Registries.{process_of};
ghost use Rattle.admission.specs.Rounds.{how_many, others_of};
ghost use Rattle.udp_ports.specs.declared.guard.Guard.{Guard};
ghost use Rattle.udp_ports.specs.Guards.{IsAdmitted, Ran, life_of};

/// Two processes that were admitted under one actor's number, by the same places, are one, where the links that noted them kept their
/// memory, and some node counts.
pub fn admitted_guards_are_one()
    ensures { (life : Actor → Life) (a b : Own) (actors : List Actor) (g h : Guard)
        (x : IsAdmitted a actors g) (y : IsAdmitted b actors h) → a.actor ≡ b.actor
        → IsAnswered life a x.ran.events → IsAnswered life b y.ran.events
        → 0 < how_many a.actor (others_of a.actor actors) → a.process ≡ b.process }
{}

/// Whom a link told that a number is noted, has it there from then on, and nobody else was told so.
pub fn links_keep_numbers()
    ensures kept { (own : Own) (actors : List Actor) (g : Guard) (ran : Ran own actors g)
        (a : Actor) (p : ℕ) → life_tells a p (life_of own actors g ran) ≡ true
        → process_of g.registry.noted a ≡ Some p }
    ensures one { (own : Own) (actors : List Actor) (g : Guard) (ran : Ran own actors g)
        (a : Actor) (p q : ℕ) → life_tells a p (life_of own actors g ran) ≡ true
        → life_tells a q (life_of own actors g ran) ≡ true → p ≡ q }
{}
