ghost use Rattle.std.specs.Prelude.{◌≡◌, ◌∷◌, [], ℕ, List, Ok, true};
ghost use Rattle.nop_types.specs.Configuration.{Configuration};
ghost use Rattle.nop_types.specs.Lines.{Dead};
ghost use Rattle.nop_types.specs.Meaning.{Meaning};
ghost use Rattle.nop_types.specs.declared.output.Actor.{Actor};
ghost use Rattle.schedule_text.specs.declared.event.Event.{Event};
ghost use Rattle.schedule_text.specs.declared.event.Event.TheVariants.{Junk};
ghost use Rattle.world.specs.Refusals.{HasActors, cause_of, refusal_in};
ghost use Rattle.world.specs.WorldSteps.{
  WorldState,
  Happened,
  actor_of,
  has_crashed,
  opening,
  step,
};

/// An event is refused exactly where a cause of a refusal holds, and the first one is told. So it
/// is in each world that events lead to, since each has all actors of its configuration.
pub fn refuses_by_first_cause<S>()
    ensures opens { (c : Configuration) → HasActors (opening c) }
    ensures stays { (m : Meaning S) (w : WorldState) (e : Event) (h : Happened) → HasActors w →
        step m w e ≡ Ok h → HasActors h.world }
    ensures causes { (m : Meaning S) (w : WorldState) (e : Event) → HasActors w →
        refusal_in (step m w e) ≡ cause_of w e }
{}

/// An event of a crashed actor changes nothing, and one line tells of it.
pub fn crashed_actors_take_no_step<S>()
    ensures { (m : Meaning S) (w : WorldState) (e : Event) (h : Happened) →
        has_crashed w (actor_of e) ≡ true → step m w e ≡ Ok h →
        h ≡ record { world = w; lines = Dead (actor_of e) ∷ [] } }
{}

/// Junk changes nothing at any actor.
pub fn junk_changes_nothing<S>()
    ensures { (m : Meaning S) (w : WorldState) (actor : Actor) (bytes : List ℕ) (h : Happened) →
        step m w (Junk actor bytes) ≡ Ok h → h.world ≡ w }
{}
