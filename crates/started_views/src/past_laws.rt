ghost use Rattle.std.specs.Prelude.{◌≡◌, ◌⊎◌, ◌+◌, ◌*◌, ℕ, List, [], Some};
ghost use Rattle.nop_types.specs.declared.view.View.{View};
ghost use Rattle.nop_types.specs.declared.request.Entry.{Entry};
ghost use Rattle.nop_types.specs.Views.{first_view, leader_of};
ghost use Rattle.log_merge.specs.Starting.{Start};
ghost use Rattle.started_views.specs.Past.{
  Past,
  Standing,
  HadLog,
  IsStart,
  first_past,
  entered_with,
  started_with,
  note,
};
ghost use Rattle.started_views.specs.Parts.{SamePast, InParts};

/// A step of a replica notes its log in its last normal view, and no other log.
#[tactic(auto, using(crate::proofs::Past::note_log_here, crate::proofs::Past::note_log_places))]
pub fn noted_log()
    ensures here { (f r : ℕ) (past : Past) (old new : Standing)
        → HadLog (note f past r old new) r new.last_normal new.log }
    ensures elsewhere { (f r q : ℕ) (past : Past) (old new : Standing) (w : View)
        → ((q ≡ r) × (w ≡ new.last_normal)) ⊎ ((note f past r old new).log q w ≡ past.log q w) }
{}

/// A step of a replica notes what it had where its view changes, under the view that it enters, and
/// no other entry.
pub fn noted_entry()
    ensures here { (f r : ℕ) (past : Past) (old new : Standing) →
        (new.view ≡ old.view → ⊥)
        → (note f past r old new).entry r new.view ≡ Some (entered_with old) }
    ensures elsewhere { (f r q : ℕ) (past : Past) (old new : Standing) (w : View)
        → ((new.view ≡ old.view → ⊥) × (q ≡ r) × (w ≡ new.view))
        ⊎ ((note f past r old new).entry q w ≡ past.entry q w) }
{}

/// A step of a replica notes a start where it adopts the view that it leads, and no other start.
pub fn noted_start()
    ensures here { (f r : ℕ) (past : Past) (old new : Standing) →
        (new.last_normal ≡ old.last_normal
        → ⊥) → r ≡ leader_of new.last_normal (2 * f + 1)
        → IsStart (note f past r old new) new.last_normal (started_with new) }
    ensures elsewhere { (f r : ℕ) (past : Past) (old new : Standing) (w : View)
        → ((new.last_normal ≡ old.last_normal
        → ⊥) × (r ≡ leader_of new.last_normal (2 * f + 1)) × (w ≡ new.last_normal))
        ⊎ ((note f past r old new).start w ≡ past.start w) }
{}

/// At first each replica has an empty log in the first view, that view is started, and no other is.
pub fn first_past_is_empty()
    ensures log { (r : ℕ) (w : View) (l : List Entry) → HadLog first_past r w l
        → (w ≡ first_view) × (l ≡ []) }
    ensures start { (w : View) (x : Start) → IsStart first_past w x
        → (w ≡ first_view) × (x ≡ record { next = 1; log = [] }) }
{}

/// A step of a replica that is noted in two parts gives the past of the whole step, where it enters
/// a view in at most one of the parts and adopts one in at most one: so where the first part only
/// enters a view and the second enters none, and where the second stays in the view and keeps what
/// it was started with. Two pasts that say the same are one.
pub fn past_of_parts()
    ensures whole { (f r : ℕ) (past : Past) (old middle new : Standing)
        → InParts f past r old middle new
        → SamePast (note f (note f past r old middle) r middle new) (note f past r old new) }
    ensures one { (a b : Past) → SamePast a b → a ≡ b }
    ensures entering { (f r : ℕ) (past : Past) (old middle new : Standing)
        → middle.last_normal ≡ old.last_normal → middle.next ≡ old.next → middle.log ≡ old.log
        → HadLog past r old.last_normal old.log → new.view ≡ middle.view
        → InParts f past r old middle new }
    ensures staying { (f r : ℕ) (past : Past) (old middle new : Standing) → new.view
        ≡ middle.view
        → new.last_normal ≡ middle.last_normal → (r ≡ leader_of new.last_normal (2 * f + 1)
        → started_with new ≡ started_with middle) → InParts f past r old middle new }
{}
