//! Laws of what is known and shown.

ghost use Rattle.std.specs.Option.{is_some};
ghost use Rattle.std.specs.Prelude.{◌≡◌, ◌≤◌, ◌++◌, ◌∷◌, [], ℕ, Bool, true, List, Some};
ghost use Rattle.line_fields.specs.Fields.{fields};
ghost use Rattle.watching.specs.Laws.{known_in, length_in, rose, told_in, ChangeFits, IsOfTold};
ghost use Rattle.watching.specs.Laws.{StateFits};
ghost use Rattle.watching.specs.Lines.{change_in, change_line, state_in, state_line};
ghost use Rattle.roll_call.specs.Rolls.{Rolled, standings};
ghost use Rattle.watching.specs.Screens.{IsScreen};
ghost use Rattle.watching.specs.Turns.{Turn, after_turns};
ghost use Rattle.watching.specs.Watching.{Watching, hear, opening, tick};
ghost use Rattle.watching.specs.declared.lines.Change.{Change};
ghost use Rattle.watching.specs.declared.lines.State.{State};

/// The length that is shown never falls, whatever comes.
#[tactic(auto, using(crate::proofs::Showing::hear_rises, crate::proofs::Showing::tick_stays))]
pub fn lengths_never_fall()
    ensures told { (w : Watching) (now : ℕ) (bytes : List ℕ)
        → length_in (known_in w.seen) ≤ length_in (known_in (hear w now bytes).0.seen) }
    ensures later { (w : Watching) (now : ℕ)
        → length_in (known_in (tick w now).0.seen) ≡ length_in (known_in w.seen) }
{}

/// A change of the view is told of exactly where the view rises.
#[tactic(auto, using(crate::proofs::Showing::hear_is_rise))]
pub fn changes_are_rises()
    ensures { (w : Watching) (now : ℕ) (bytes : List ℕ) → is_some (hear w now bytes).1
        ≡ rose (known_in w.seen) (known_in (hear w now bytes).0.seen) }
{}

/// After any turns, the length is one that a leader told in them, and so is the view, at the time from which the age counts.
#[tactic(auto, using(crate::proofs::Showing::known_is_told))]
pub fn what_is_known_was_told()
    ensures { (redraws : Bool) (n : ℕ) (roll : Rolled) (turns : List Turn) → IsOfTold
        (told_in (opening redraws n roll) turns)
        (known_in (after_turns (opening redraws n roll) turns).0.seen) }
{}

/// After any turns, a screen on which they wrote shows the last change, how nodes stand, the warning and the last state, and nothing
/// else.
#[tactic(auto, using(crate::proofs::Drawing::screen_is_last))]
pub fn screens_show_the_last()
    ensures { (n : ℕ) (roll : Rolled) (turns : List Turn) → standings roll ≡ []
        → IsScreen (after_turns (opening true n roll) turns).1
        (after_turns (opening true n roll) turns).0 }
{}

/// A line that is that of a state, of up to seven replicas, is read as that state.
#[tactic(auto, using(crate::proofs::LineTexts::state_again))]
pub fn states_are_read()
    ensures { (n : ℕ) (s : State) (line : List ℕ) → 1 ≤ n → n ≤ 7 → StateFits s
        → state_line n s ≡ line ++ 10 ∷ [] → state_in (fields line) ≡ Some s }
{}

/// A line that is that of a change, of up to seven replicas, is read as that change.
#[tactic(auto, using(crate::proofs::LineTexts::change_again))]
pub fn changes_are_read()
    ensures { (n : ℕ) (c : Change) (line : List ℕ) → 1 ≤ n → n ≤ 7 → ChangeFits c
        → change_line n c ≡ line ++ 10 ∷ [] → change_in (fields line) ≡ Some c }
{}
