//! What holds of a desk over any events, in any order.

ghost use Rattle.std.specs.Prelude.{◌≡◌, ◌<◌, ◌+◌, ℕ, List, [], Some, slice_get};
ghost use Rattle.nop_types.specs.Configuration.{Configuration};
ghost use Rattle.nop_types.specs.Lists.{Has};
ghost use Rattle.desk.specs.Desks.{Event, Leave, next, opening};
ghost use Rattle.desk.specs.Runs.{after, gave, gave_by, ops_of, IsAnswer, IsBusy, IsTold, RanAs};
ghost use Rattle.desk.specs.declared.submitter.Labelled.{Labelled};
ghost use Rattle.desk.specs.declared.submitter.Submitter.{Submitter};
ghost use Rattle.client_quorum.specs.Core as client;

/// Each core is a client: after any events it is in the state after some inputs, and what is told of it is what that client gave.
pub fn cores_are_clients()
    ensures { (config : Configuration) (first count : ℕ) (events : List Event)
        (i : ℕ) (core : Submitter) →
        slice_get (after (opening config first count) events).cores i ≡ Some core →
        RanAs (client.opening config (first + i) [])
        (gave_by i (gave (opening config first count) events)) core.client.state }
{}

/// What is told for a ticket is true: a core submits the ticket's op for it, which was taken before or in this step; and an acceptance
/// for a ticket is of a request that the same core submitted for it before.
pub fn tells_what_is_true()
    ensures { (config : Configuration) (first count : ℕ) (events : List Event) →
        IsTold (ops_of events) (gave (opening config first count) events) }
{}

/// Each ticket is answered at most once.
pub fn answers_each_ticket_once()
    ensures { (config : Configuration) (first count : ℕ) (events : List Event)
        (i j ticket : ℕ) (a b : Labelled) →
        slice_get (gave (opening config first count) events) i ≡ Some a →
        slice_get (gave (opening config first count) events) j ≡ Some b →
        IsAnswer a.ticket a.out ticket → IsAnswer b.ticket b.out ticket → i ≡ j }
{}

/// After each event no op waits, or no core takes one.
pub fn lets_no_op_wait()
    ensures { (config : Configuration) (first count : ℕ) (events : List Event) →
        IsBusy (after (opening config first count) events) }
{}

/// Once the user of a ticket left, no op is submitted for it, and nothing is answered.
pub fn tells_nothing_to_who_left()
    ensures { (config : Configuration) (first count : ℕ) (before later : List Event)
        (ticket : ℕ) (told : Labelled) →
        ticket < (after (opening config first count) before).taken →
        Has (gave (next (after (opening config first count) before) (Leave ticket)).0 later) told →
        ¬ (told.ticket ≡ Some ticket) }
{}
