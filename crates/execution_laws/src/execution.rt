ghost use Rattle.std.specs.Prelude.{
  ◌≡◌,
  ◌++◌,
  ◌∷◌,
  [],
  ◌+◌,
  ◌≤◌,
  ◌<◌,
  ◌&&◌,
  ℕ,
  List,
  Some,
  None,
  true,
  false,
  not,
  is_some,
  length,
  min,
  take,
  drop,
  slice_get,
};
ghost use Rattle.std.specs.FinMap as finite;
ghost use Rattle.nop_types.specs.declared.limits.TheConstants.{MAX_SERVED, WINDOW};
ghost use Rattle.nop_types.specs.declared.request.Request.{Request};
ghost use Rattle.nop_types.specs.declared.request.Entry.{Entry};
ghost use Rattle.nop_types.specs.declared.request.Entry.TheVariants.{Req};
ghost use Rattle.nop_types.specs.Meaning.{Meaning};
ghost use Rattle.nop_types.specs.Lists.{Has, IsPrefixOf, slot_of, is_in, all_below, any_above};
ghost use Rattle.nop_types.specs.Windows.{is_new, is_stale};
ghost use Rattle.nop_types.specs.Tables.{Account, kept_for, kept_ids, result_kept};
ghost use Rattle.nop_types.specs.Execution.{
  Executed,
  opening,
  ids_of,
  clients_of,
  is_served,
  is_executed,
  execute,
  enter,
  exec,
  exec_from,
  takes,
  enter_kept,
  exec_kept,
  result_at,
};
ghost use Rattle.nop_types.specs.Histories.{history_of};
ghost use Rattle.nop_types.specs.Legality.{IsOf, IsAnswered};
ghost use Rattle.execution_laws.specs.Execution.{IsAccountOf, execute_all};

/// A longer log is executed on from where the shorter one ends.
#[tactic(auto, using(crate::proofs::Steps::exec_of_append))]
pub fn exec_of_append<S>()
    ensures { (m : Meaning S) (xs ys : List Entry)
        → exec m (xs ++ ys) ≡ exec_from m xs (exec m xs) ys }
{}

/// One more entry is one more step, by the log before it or by the table.
#[tactic(auto, using(crate::proofs::Steps::exec_of_next_entry, crate::proofs::Tables::next_entry_by_kept))]
pub fn exec_of_next_entry<S>()
    ensures by_ids { (m : Meaning S) (log : List Entry) (e : Entry)
        → exec m (log ++ e ∷ []) ≡ enter m log (exec m log) e }
    ensures by_kept { (m : Meaning S) (log : List Entry) (e : Entry)
        → exec m (log ++ e ∷ []) ≡ enter_kept m (exec m log) e }
{}

/// One more slot of a log is one more step.
#[tactic(auto, using(crate::proofs::Results::exec_of_next_slot))]
pub fn exec_of_next_slot<S>()
    ensures { (m : Meaning S) (log : List Entry) (i : ℕ) (e : Entry) →
        slice_get log i ≡ Some e
        → exec m (take (i + 1) log) ≡ enter_kept m (exec m (take i log)) e }
{}

/// A request is not executed where its client has the same id before it, or one a window ahead.
pub fn repeat_is_not_executed<S>()
    ensures repeated { (m : Meaning S) (log : List Entry) (q r : Request) → Has log (Req q)
        → q.client ≡ r.client → q.id ≡ r.id → exec m (log ++ Req r ∷ []) ≡ exec m log }
    ensures stale { (m : Meaning S) (log : List Entry) (q r : Request) → Has log (Req q)
        → q.client ≡ r.client → r.id + WINDOW ≤ q.id → exec m (log ++ Req r ∷ []) ≡ exec m log }
{}

/// The execution needs the table alone, and not the log before.
#[tactic(auto, using(crate::proofs::Tables::exec_is_by_kept))]
pub fn exec_is_by_kept<S>()
    ensures { (m : Meaning S) (log : List Entry) → exec m log ≡ exec_kept m (opening m) log }
{}

/// So a longer log is executed on from what the shorter one leaves.
#[tactic(auto, using(crate::proofs::Tables::exec_goes_on))]
pub fn exec_goes_on<S>()
    ensures { (m : Meaning S) (xs ys : List Entry)
        → exec m (xs ++ ys) ≡ exec_kept m (exec m xs) ys }
{}

/// By the table, too, a longer log is executed on from where the shorter one ends.
#[tactic(auto, using(crate::proofs::Steps::exec_kept_of_append))]
pub fn exec_kept_of_append<S>()
    ensures { (m : Meaning S) (x : Executed S) (xs ys : List Entry)
        → exec_kept m x (xs ++ ys) ≡ exec_kept m (exec_kept m x xs) ys }
{}

/// From a place of a log on, the entry there comes first and then the rest; past the end, nothing.
#[tactic(auto, using(crate::proofs::Steps::exec_kept_of_rest, crate::proofs::Steps::exec_kept_of_end))]
pub fn exec_kept_of_rest<S>()
    ensures entry { (m : Meaning S) (x : Executed S) (log : List Entry) (i : ℕ) (e : Entry)
        → slice_get log i ≡ Some e
        → exec_kept m x (drop i log) ≡ exec_kept m (enter_kept m x e) (drop (i + 1) log) }
    ensures end { (m : Meaning S) (x : Executed S) (log : List Entry) (i : ℕ) → length log ≤ i
        → exec_kept m x (drop i log) ≡ x }
{}

/// A log is executed as the members of its history are, each once, one after the other.
#[tactic(auto, using(crate::proofs::Steps::exec_is_of_history))]
pub fn exec_is_of_history<S>()
    ensures { (m : Meaning S) (log : List Entry)
        → exec m log ≡ execute_all m (opening m) (history_of log) }
{}

/// The table tells whether a request that comes after the log is executed.
#[tactic(auto, using(crate::proofs::Tables::table_tells_executed))]
pub fn table_tells_executed<S>()
    ensures { (m : Meaning S) (log : List Entry) (r : Request)
        → takes (exec m log).table r ≡ is_executed log r }
{}

/// The table has the first different clients of the log, as many as are served.
#[tactic(auto, using(crate::proofs::Tables::table_serves_the_first, crate::proofs::Tables::table_is_as_long))]
pub fn table_serves_the_first<S>()
    ensures clients { (m : Meaning S) (log : List Entry) (client : ℕ)
        → is_some (kept_for (exec m log).table client) ≡ is_served (clients_of log) client }
    ensures count { (m : Meaning S) (log : List Entry)
        → finite.len (exec m log).table ≡ min MAX_SERVED (length (clients_of log)) }
{}

/// An account has its client's greatest id in the log, and keeps results less than a window back.
pub fn accounts_are_of_log<S>()
    ensures ids { (m : Meaning S) (log : List Entry) (client : ℕ) (a : Account)
        → kept_for (exec m log).table client ≡ Some a
        → IsAccountOf WINDOW (ids_of client log) a }
    ensures at_most { (m : Meaning S) (log : List Entry) (client : ℕ) (a : Account) (id : ℕ)
        → kept_for (exec m log).table client ≡ Some a → is_in (kept_ids a.kept) id ≡ true
        → id ≤ a.greatest }
{}

/// A kept result is the answer to a member of the history.
#[tactic(auto, using(crate::proofs::Steps::kept_is_answered))]
pub fn kept_is_answered<S>()
    ensures { (m : Meaning S) (log : List Entry) (client id : ℕ) (result : List ℕ)
        → result_kept (kept_for (exec m log).table client) id ≡ Some result
        → IsAnswered m (history_of log) client id result }
{}

/// The answer to a request that is executed is kept with its id.
#[tactic(auto, using(crate::proofs::Results::executed_is_kept))]
pub fn executed_is_kept<S>()
    ensures { (m : Meaning S) (x : Executed S) (r : Request) → takes x.table r ≡ true
        → result_kept (kept_for (execute m x r).table r.client) r.id
        ≡ Some (m.answer x.host r.op) }
{}

/// The result at a slot is what is kept after it, for the client, with the id.
#[tactic(auto, using(crate::proofs::Results::result_is_kept))]
pub fn result_is_kept<S>()
    ensures { (m : Meaning S) (log : List Entry) (slot : ℕ) (r : Request)
        → slot_of log slot ≡ Some (Req r) → result_at m log slot
        ≡ result_kept (kept_for (exec m (take slot log)).table r.client) r.id }
{}

/// The result at the last slot is what is kept in the end.
#[tactic(auto, using(crate::proofs::Results::last_result_is_kept, crate::proofs::Results::next_result_is_kept))]
pub fn last_result_is_kept<S>()
    ensures last { (m : Meaning S) (log : List Entry) (r : Request)
        → slot_of log (length log) ≡ Some (Req r) → result_at m log (length log)
        ≡ result_kept (kept_for (exec m log).table r.client) r.id }
    ensures next { (m : Meaning S) (log : List Entry) (r : Request)
        → result_at m (log ++ Req r ∷ []) (length (log ++ Req r ∷ []))
        ≡ result_kept (kept_for (enter_kept m (exec m log) (Req r)).table r.client) r.id }
{}

/// Only a slot with a request has a result.
#[tactic(auto, using(crate::proofs::Results::result_is_of_request))]
pub fn result_is_of_request<S>()
    ensures { (m : Meaning S) (log : List Entry) (slot : ℕ) (result : List ℕ)
        → result_at m log slot ≡ Some result → ((r : Request) × (slot_of log slot ≡ Some (Req r))) }
{}

/// A request has a result exactly where its client is served, and its id is not stale.
pub fn has_result_where_served<S>()
    ensures { (m : Meaning S) (log : List Entry) (slot : ℕ) (r : Request)
        → slot_of log slot ≡ Some (Req r) → is_some (result_at m log slot)
        ≡ (is_served (clients_of (take slot log)) r.client
        && not (is_stale WINDOW (ids_of r.client (take slot log)) r.id)) }
{}

/// An id is not stale where it is less than a window behind each id before it, and so after a log of
/// whose client's requests this holds; it is stale where one is a window ahead, or more.
pub fn open_is_not_stale()
    ensures near { (window : ℕ) (ids : List ℕ) (id : ℕ) → 1 ≤ window
        → ((k : ℕ) → Has ids k → k < id + window) → is_stale window ids id ≡ false }
    ensures in_log { (log : List Entry) (client id : ℕ)
        → ((r : Request) → Has log (Req r) → r.client ≡ client → r.id < id + WINDOW)
        → is_stale WINDOW (ids_of client log) id ≡ false }
    ensures far { (window : ℕ) (ids : List ℕ) (id k : ℕ) → Has ids k → id + window ≤ k
        → is_stale window ids id ≡ true }
{}

/// A request whose id is not stale after the whole log has a result at each of its slots up to which
/// its client is served. It has none where one of its client a window ahead stands before it.
pub fn has_result_unless_stale<S>()
    ensures open { (m : Meaning S) (log : List Entry) (slot : ℕ) (r : Request)
        → slot_of log slot ≡ Some (Req r)
        → is_stale WINDOW (ids_of r.client log) r.id ≡ false
        → is_some (result_at m log slot) ≡ is_served (clients_of (take slot log)) r.client }
    ensures stale { (m : Meaning S) (log : List Entry) (slot : ℕ) (q r : Request)
        → slot_of log slot ≡ Some (Req r) → Has (take slot log) (Req q) → q.client ≡ r.client
        → r.id + WINDOW ≤ q.id → result_at m log slot ≡ None }
{}

/// The result at a slot rests on the entries up to it alone.
#[tactic(auto, using(crate::proofs::Results::result_needs_prefix))]
pub fn result_needs_prefix<S>()
    ensures { (m : Meaning S) (xs ys : List Entry) (slot : ℕ) → IsPrefixOf xs ys
        → slot ≤ length xs → result_at m ys slot ≡ result_at m xs slot }
{}

/// The result at a slot is the answer to a member of the history up to there.
#[tactic(auto, using(crate::proofs::Results::result_is_answered))]
pub fn result_is_answered<S>()
    ensures { (m : Meaning S) (log : List Entry) (slot : ℕ) (r : Request) (result : List ℕ)
        → slot_of log slot ≡ Some (Req r) → result_at m log slot ≡ Some result
        → IsAnswered m (history_of (take slot log)) r.client r.id result }
{}

/// A request has one result, at each slot where it stands and has one.
pub fn results_are_equal<S>()
    ensures { (m : Meaning S) (log : List Entry) (i j : ℕ) (p q : Request) (a b : List ℕ)
        → slot_of log i ≡ Some (Req p) → slot_of log j ≡ Some (Req q) → IsOf p.client p.id q
        → result_at m log i ≡ Some a → result_at m log j ≡ Some b → a ≡ b }
{}

/// With a window of one an id is new where it exceeds all before, and stale where one exceeds it.
#[tactic(auto, using(crate::proofs::Windows::one_is_greatest, crate::proofs::Windows::one_is_stale))]
pub fn one_is_greatest()
    ensures new { (ids : List ℕ) (id : ℕ) → is_new 1 ids id ≡ all_below ids id }
    ensures stale { (ids : List ℕ) (id : ℕ) → is_stale 1 ids id ≡ any_above ids id }
{}
