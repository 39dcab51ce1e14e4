ghost use Rattle.std.specs.Prelude.{◌≡◌, ◌++◌, ◌∷◌, [], ◌+◌, ℕ, ◌≤◌, List, Some, length, slice_get};
ghost use Rattle.execution_laws.specs.Legality.{IsNoMember, SubmittedOnce};
ghost use Rattle.fronts.specs.Configurations.{AreLeft, HasUnaccepted, IsFailed};
ghost use Rattle.fronts.specs.Fronts.{
  after_all,
  AcceptedLater,
  GoesOn,
  HasOrder,
  IsAlike,
  IsFront,
  IsMember,
  MayFollow,
  OnlyReads,
};
ghost use Rattle.nop_types.specs.Legality.{AcceptedOnce, Legal};
ghost use Rattle.nop_types.specs.Lines.{Line, Accept};
ghost use Rattle.nop_types.specs.Meaning.{Meaning};
ghost use Rattle.nop_types.specs.declared.request.Request.{Request};

use nop_types::Host;

/// Before the first line the empty front is right.
pub fn front_opens<S>()
    ensures { (m : Meaning S) (lines : List Line) → IsFront m lines 0 [] }
{}

/// A front stays right where one more line is passed, which accepts nothing or a member.
pub fn front_passes<S>()
    ensures { (m : Meaning S) (lines : List Line) (k : ℕ) (front : List Request)
        → IsFront m lines k front
        → ((client id : ℕ) (result : List ℕ) → slice_get lines k ≡ Some (Accept client id result)
        → IsMember front client id)
        → IsFront m lines (k + 1) front }
{}

/// A front stays right where a request that may follow is placed.
pub fn front_places<S>()
    ensures { (m : Meaning S) (lines : List Line) (k : ℕ) (front : List Request) (r : Request)
        → SubmittedOnce lines → IsFront m lines k front → MayFollow m lines k front r
        → IsFront m lines k (front ++ r ∷ []) }
{}

/// A front that is right for all lines is a legal history.
pub fn fronts_behind_all_lines_are_legal<S>()
    ensures { (m : Meaning S) (lines : List Line) (front : List Request) (k : ℕ)
        → length lines ≤ k → AcceptedOnce lines → AcceptedLater lines → IsFront m lines k front
        → Legal m lines front }
{}

/// Where a line accepts what is not placed, and the front goes on to a legal history, some request that was submitted before the
/// line may be placed next, and the front goes on with it.
pub fn the_next_member<S>()
    ensures { (m : Meaning S) (lines : List Line) (front : List Request) (k client id : ℕ)
        (result : List ℕ) → slice_get lines k ≡ Some (Accept client id result)
        → GoesOn m lines front → IsNoMember front client id
        → (r : Request) × MayFollow m lines k front r × GoesOn m lines (front ++ r ∷ []) }
{}

/// Where a front goes on, so does one that leaves the same state and lacks nothing but members that no line accepts.
pub fn fronts_go_on_alike<S>()
    ensures { (m : Meaning S) (lines : List Line) (k : ℕ) (f g : List Request)
        → SubmittedOnce lines → IsFront m lines k g → IsAlike m lines f g
        → GoesOn m lines f → GoesOn m lines g }
{}

/// Where a front goes on, it goes on with a request that may follow and whose op changes nothing.
pub fn reads_may_come_first<S>()
    ensures { (m : Meaning S) (lines : List Line) (k : ℕ) (front : List Request) (r : Request)
        → SubmittedOnce lines → IsFront m lines k front → MayFollow m lines k front r
        → OnlyReads m r.op
        → GoesOn m lines front → GoesOn m lines (front ++ r ∷ []) }
{}

/// Where a configuration failed, a front with the same line and saved state goes nowhere, if of what was left there only requests
/// that no line accepts are placed now: saved states tell states apart.
pub fn failed_configurations_fail_again<H: Host>()
    ensures { (lines : List Line) (k : ℕ) (places left saved : List ℕ) (front : List Request)
        → SubmittedOnce lines
        → IsFailed H.meaning lines k places saved → HasUnaccepted lines left places
        → IsFront H.meaning lines k front → AreLeft lines k front left
        → H.meaning.saved (after_all H.meaning H.meaning.opening front) ≡ saved
        → GoesOn H.meaning lines front → ⊥ }
{}

/// Where the empty front goes nowhere, no history is legal.
pub fn all_histories_begin_empty<S>()
    ensures { (m : Meaning S) (lines : List Line) → (GoesOn m lines [] → ⊥)
        → HasOrder m lines → ⊥ }
{}
