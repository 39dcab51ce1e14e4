//! What is kept and answered, over any list of fragments.

ghost use Rattle.std.specs.Prelude.{◌≡◌, ◌<◌, ◌≤◌, ◌*◌, ◌++◌, ◌∷◌, ℕ, List, [], Some, true, All, length};
ghost use Rattle.nop_types.specs.declared.datagram.Fragment.{Fragment};
ghost use Rattle.nop_types.specs.Lists.{Has};
ghost use Rattle.nop_types.specs.Ranges.{FragmentFits};
ghost use Rattle.fragments.specs.Cutting.{fragments_of, piece_count, HasNoCut};
ghost use Rattle.fragments.specs.Joining.{Waiting, is_in_range, opening, taken};
ghost use Rattle.fragments.specs.Runs.{AllCame, CameInParts, StepKeeps, after, answered, Sent, AreDistinct};
ghost use Rattle.fragments.specs.Runs.{AreCutFrom, WasSent, WaitingFits, CanBeCut};

use nop_types::{FRAGMENT_BYTES, MAX_FRAGMENTS};

/// Nothing is kept at the opening, so all of it came in any fragments. What came in some fragments came in these and more. Where all
/// that is kept came in the fragments of a list, so it is after one more of them; and where bytes are answered, for each index below
/// the count a fragment of that sender, number, count and index with that part is in the list.
pub fn keeps_what_came()
    ensures opening { (net : List Fragment) (n : ℕ) → AllCame net (opening n) }
    ensures more { (net more : List Fragment) (all : List Waiting) → AllCame net all
        → AllCame (net ++ more) all }
    ensures taken { (net : List Fragment) (all : List Waiting) (f : Fragment) → Has net f
        → AllCame net all →
        StepKeeps net f (taken all f) }
{}

/// Whatever was taken before, bytes are answered only where each of their parts was taken.
pub fn answers_what_came()
    ensures { (n : ℕ) (past : List Fragment) (f : Fragment) (bytes : List ℕ) →
        (taken (after n past) f).1 ≡ Some bytes → CameInParts (past ++ f ∷ []) f bytes }
{}

/// Where each fragment of a list was cut by its sender, and no sender used a number twice, bytes that came in them are one
/// message, which its sender sent. So is what is answered after any that were taken.
pub fn answers_what_was_sent()
    ensures joined { (sent : List Sent) (net : List Fragment) (f : Fragment) (bytes : List ℕ) →
        AreDistinct sent → AreCutFrom sent net → Has net f → CameInParts net f bytes →
        WasSent sent f bytes }
    ensures answered { (sent : List Sent) (n : ℕ) (past : List Fragment) (f : Fragment)
        (bytes : List ℕ) →
        AreDistinct sent → AreCutFrom sent (past ++ f ∷ []) →
        (taken (after n past) f).1 ≡ Some bytes →
        WasSent sent f bytes }
{}

/// A message with some bytes, and no more than fill the most fragments, is cut.
pub fn message_within_limit_is_cut()
    ensures count { (bytes : List ℕ) → length bytes ≤ MAX_FRAGMENTS * FRAGMENT_BYTES →
        piece_count bytes ≤ MAX_FRAGMENTS }
    ensures cut { (bytes : List ℕ) → 1 ≤ length bytes →
        length bytes ≤ MAX_FRAGMENTS * FRAGMENT_BYTES → ¬ HasNoCut bytes }
{}

/// What is cut is in the ranges of fragments.
pub fn cut_fragments_fit()
    ensures { (sender number : ℕ) (bytes : List ℕ) (f : Fragment) →
        CanBeCut sender number bytes →
        Has (fragments_of sender number bytes) f → FragmentFits f }
{}

/// What is cut, and comes in order where nothing was kept, is joined at its last fragment.
pub fn cut_is_joined()
    ensures { (n sender number : ℕ) (bytes : List ℕ) → sender < n →
        CanBeCut sender number bytes →
        answered (opening n) (fragments_of sender number bytes) ≡ bytes ∷ [] }
{}

/// A fragment in its ranges is never passed over for its shape.
pub fn fitting_is_in_range()
    ensures { (f : Fragment) → FragmentFits f → is_in_range f ≡ true }
{}

/// No fragment delivers more unfinished messages, parts or bytes than the limits allow.
pub fn stays_within_limits()
    ensures opened { (n : ℕ) → All WaitingFits (opening n) }
    ensures taken { (all : List Waiting) (f : Fragment) → All WaitingFits all
        → All WaitingFits (taken all f).0 }
{}
