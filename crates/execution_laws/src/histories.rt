ghost use Rattle.std.specs.Prelude.{
  ◌≡◌,
  ◌++◌,
  ◌∷◌,
  [],
  ◌+◌,
  ◌<◌,
  ◌≤◌,
  ◌↔◌,
  ℕ,
  List,
  Some,
  length,
  take,
  slice_get,
};
ghost use Rattle.nop_types.specs.declared.limits.TheConstants.{WINDOW};
ghost use Rattle.nop_types.specs.declared.request.Request.{Request};
ghost use Rattle.nop_types.specs.declared.request.Entry.{Entry};
ghost use Rattle.nop_types.specs.declared.request.Entry.TheVariants.{Req};
ghost use Rattle.nop_types.specs.Meaning.{Meaning};
ghost use Rattle.nop_types.specs.Lists.{Has, IsPrefixOf};
ghost use Rattle.nop_types.specs.Execution.{opening};
ghost use Rattle.nop_types.specs.Histories.{new_in, history_from, history_of, answer_at};
ghost use Rattle.nop_types.specs.Legality.{IsOf, IsAnswered};
ghost use Rattle.execution_laws.specs.Execution.{execute_all};
ghost use Rattle.execution_laws.specs.Histories.{IsNewIn, StandsBefore, IsExecutedAt};

/// The history of a longer log goes on from that of the shorter one.
#[tactic(auto, using(crate::proofs::Members::history_of_append))]
pub fn history_of_append()
    ensures { (xs ys : List Entry) → history_of (xs ++ ys) ≡ history_of xs
        ++ history_from xs ys }
{}

/// One more entry adds its request, where that is executed.
#[tactic(auto, using(crate::proofs::Members::history_of_next_entry))]
pub fn history_of_next_entry()
    ensures { (log : List Entry) (e : Entry)
        → history_of (log ++ e ∷ []) ≡ history_of log ++ new_in log e }
{}

/// A request adds nothing where its client has the same id before it, or one a window ahead.
pub fn repeat_is_no_member()
    ensures repeated { (log : List Entry) (q r : Request) → Has log (Req q)
        → q.client ≡ r.client → q.id ≡ r.id → history_of (log ++ Req r ∷ []) ≡ history_of log }
    ensures stale { (log : List Entry) (q r : Request) → Has log (Req q) → q.client ≡ r.client
        → r.id + WINDOW ≤ q.id → history_of (log ++ Req r ∷ []) ≡ history_of log }
{}

/// The history of a prefix begins that of the whole log.
#[tactic(auto, using(crate::proofs::Members::history_of_prefix))]
pub fn history_of_prefix()
    ensures { (xs ys : List Entry) → IsPrefixOf xs ys → IsPrefixOf (history_of xs)
        (history_of ys) }
{}

/// The members of a history are requests of the log.
#[tactic(auto, using(crate::proofs::Members::members_are_logged))]
pub fn members_are_logged()
    ensures { (log : List Entry) (r : Request) → Has (history_of log) r → Has log (Req r) }
{}

/// The members are exactly the requests that are executed where they stand.
pub fn members_are_new()
    ensures { (log : List Entry) (r : Request) → (Has (history_of log) r ↔ IsNewIn log r) }
{}

/// Later members stand in later slots.
#[tactic(auto, using(crate::proofs::Members::members_keep_order))]
pub fn members_keep_order()
    ensures { (log : List Entry) (i j : ℕ) (p q : Request) →
        slice_get (history_of log) i ≡ Some p
        → slice_get (history_of log) j ≡ Some q → i < j → StandsBefore log p q }
{}

/// No client and id stands twice in a history.
#[tactic(auto, using(crate::proofs::Members::members_are_distinct))]
pub fn members_are_distinct()
    ensures { (log : List Entry) (i j : ℕ) (p q : Request) →
        slice_get (history_of log) i ≡ Some p
        → slice_get (history_of log) j ≡ Some q → IsOf p.client p.id q → i ≡ j }
{}

/// Each member is executed after the members before it, and answered as its place says.
#[tactic(auto, using(crate::proofs::Results::member_is_executed))]
pub fn member_is_executed<S>()
    ensures { (m : Meaning S) (log : List Entry) (i : ℕ) (r : Request)
        → slice_get (history_of log) i ≡ Some r → IsExecutedAt m log i r }
{}

/// The answer to a member is the host's, after the members before it were executed.
#[tactic(auto, using(crate::proofs::Steps::answer_of_member))]
pub fn answer_of_member<S>()
    ensures { (m : Meaning S) (history : List Request) (i : ℕ) (r : Request)
        → slice_get history i ≡ Some r → answer_at m history i
        ≡ Some (m.answer (execute_all m (opening m) (take i history)).host r.op) }
{}

/// An answer rests on the members up to it alone.
#[tactic(auto, using(crate::proofs::Members::answer_needs_prefix))]
pub fn answer_needs_prefix<S>()
    ensures { (m : Meaning S) (xs ys : List Request) (i : ℕ) → IsPrefixOf xs ys →
        i < length xs
        → answer_at m ys i ≡ answer_at m xs i }
{}

/// What is answered in a list of requests is answered in each longer one.
#[tactic(auto, using(crate::proofs::Members::answer_stays))]
pub fn answer_stays<S>()
    ensures { (m : Meaning S) (xs ys : List Request) (client id : ℕ) (result : List ℕ)
        → IsPrefixOf xs ys → IsAnswered m xs client id result → IsAnswered m ys client id result }
{}
