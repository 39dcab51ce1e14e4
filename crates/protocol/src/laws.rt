ghost use Rattle.nop_types.specs.Meaning.{Meaning};
ghost use Rattle.protocol.specs.Laws.{
  OpeningMeets,
  EvolvesToItself,
  EvolvesOn,
  MovesKeep,
  ViewsNeverFall,
};

/// A configuration goes on to itself, and to what it goes on to step by step.
pub fn goes_on<S>()
    ensures itself { (m : Meaning S) → EvolvesToItself m }
    ensures steps { EvolvesOn }
{}

/// Whatever the host and the number of replicas, the opening meets the invariant.
pub fn opening_meets<S>()
    ensures { (m : Meaning S) → OpeningMeets m }
{}

/// Whatever moves are made, each where it may be made, the invariant holds after them, and nothing
/// that counts is lost.
pub fn moves_keep<S>()
    ensures { (m : Meaning S) → MovesKeep m }
{}

/// No replica's view ever falls, nor does its last normal view.
pub fn views_never_fall<S>()
    ensures { (m : Meaning S) → ViewsNeverFall m }
{}
