ghost use Rattle.std.specs.Prelude.{◌≡◌, ◌==◌, ℕ, List, Option, Some, true, if◌then◌else◌};
ghost use Rattle.std.specs.FinMap as finite;
ghost use Rattle.nop_types.specs.declared.limits.TheConstants.{WINDOW};
ghost use Rattle.nop_types.specs.declared.checkpoint.Answered.{Answered};
ghost use Rattle.nop_types.specs.Tables.{Account, Table, kept_for, result_kept, is_new_to, account_with, with_result};
ghost use Rattle.client_table.specs.Table.{verdict_on, is_fresh, result_of, former_of, removed_for, unkept, AllKept, MayReturn};
ghost use Rattle.client_table.specs.Runs.{Given, kept_after, EachIsFresh, IsVerdict};

/// A table is what it keeps for each client.
#[tactic(auto, using(crate::specs::Laws::same_table))]
pub fn table_is_by_client()
    ensures { (t u : Table) → ((client : ℕ) → kept_for t client
        ≡ kept_for u client) → t ≡ u }
{}

/// An answer is kept for its client, and all other clients have what they had.
#[tactic(auto, using(crate::specs::Laws::kept_of_with_result))]
pub fn answer_is_for_client()
    ensures { (table : Table) (client : ℕ) (a : Answered) (q : ℕ)
        → kept_for (with_result WINDOW table client a) q
        ≡ (if client == q then Some (account_with WINDOW (kept_for table client) a)
        else kept_for table q) }
{}

/// An answer that was kept can be taken out again, and the table is as before, where each account has what may be kept; and so it
/// stays.
#[tactic(auto, using(crate::specs::Laws::may_return, crate::specs::Laws::unkept_is_before, crate::specs::Laws::all_kept_with))]
pub fn unkept_is_before()
    ensures fits { (table : Table) (client : ℕ) (a : Answered) → AllKept table
        → is_new_to WINDOW (kept_for table client) a.id ≡ true
        → MayReturn (kept_for (with_result WINDOW table client a) client) a.id
        (removed_for (kept_for table client) a.id) }
    ensures table { (table : Table) (client : ℕ) (a : Answered) → AllKept table
        → is_new_to WINDOW (kept_for table client) a.id ≡ true
        → unkept (with_result WINDOW table client a) (former_of table client a.id) ≡ table }
    ensures stays { (table : Table) (client : ℕ) (a : Answered) → AllKept table
        → is_new_to WINDOW (kept_for table client) a.id ≡ true
        → AllKept (with_result WINDOW table client a) }
{}

/// A verdict says what the definitions of execution ask: whether an id is new to what is kept for its client, and what its
/// result is.
#[tactic(auto, using(crate::specs::Laws::new_by_verdict, crate::specs::Laws::result_by_verdict))]
pub fn verdict_is_of_execution()
    ensures fresh { (kept : Option Account) (id : ℕ)
        → is_new_to WINDOW kept id ≡ is_fresh (verdict_on kept id) }
    ensures same { (kept : Option Account) (id : ℕ)
        → result_kept kept id ≡ result_of (verdict_on kept id) }
{}

/// After any answers, each fresh when it was kept, a verdict compares with all ids of the client.
#[tactic(auto, using(crate::proofs::RunLemmas::verdict_is_by_ids))]
pub fn verdict_is_by_ids()
    ensures { (givens : List Given) (client id : ℕ) → EachIsFresh finite.empty givens
        → IsVerdict givens client id (verdict_on (kept_for (kept_after finite.empty givens)
        client) id) }
{}

/// What is saved of a table loads to the same table.
#[tactic(auto, using(execution_laws::proofs::Saving::saved_loads))]
pub fn saved_loads()
    ensures { (table : Table) → finite.from_entries (finite.entries table) ≡ table }
{}
