//! What a client does over any inputs; but for the first two laws, with its requests.

ghost use Rattle.std.specs.Prelude.{◌≡◌, ◌↔◌, ◌<◌, ◌≤◌, ◌+◌, ℕ, List, true, false, None, Some, ◌++◌, ◌∷◌, [], slice_get, length};
ghost use Rattle.nop_types.specs.Configuration.{Configuration};
ghost use Rattle.nop_types.specs.Given.{Given, Ticked};
ghost use Rattle.nop_types.specs.Lists.{Has};
ghost use Rattle.nop_types.specs.declared.input.Tick.{Tick};
ghost use Rattle.nop_types.specs.declared.limits.TheConstants.{WINDOW};
ghost use Rattle.nop_types.specs.declared.output.Accept.{Accept};
ghost use Rattle.nop_types.specs.declared.view.View.{View};
ghost use Rattle.nop_types.specs.declared.datagram.Reply.{Reply};
ghost use Rattle.nop_types.specs.declared.request.Request.{Request};
ghost use Rattle.nop_types.specs.declared.output.Out.TheVariants.{Submitted, Accepted};
ghost use Rattle.client_reads.specs.ReadSteps as reads;
ghost use Rattle.client_quorum.specs.declared.state.ClientState.{ClientState};
ghost use Rattle.client_quorum.specs.ClientSteps.{accepts, is_done, is_expected, kept, next};
ghost use Rattle.client_quorum.specs.ClientSteps.{opening, reply, submitted};
ghost use Rattle.client_quorum.specs.Core as core;
ghost use Rattle.client_quorum.specs.Ignoring.{is_tick_for, IsIgnored, IgnoresPacket};
ghost use Rattle.client_quorum.specs.KeptReplies.{HasOneEach, keep_reply};
ghost use Rattle.client_quorum.specs.OpenRequests.{is_open, kept_for, open_requests, WordsAgree};
ghost use Rattle.client_quorum.specs.Opens.{accepted_in};
ghost use Rattle.client_quorum.specs.Rows.{IsClosed, IsKept, IsOpened, Row};
ghost use Rattle.client_quorum.specs.Runs.{accept_count, after, gave, replies_of, ops_of, HasNoSubmit, HasQuorum, IsAgreed};
ghost use Rattle.client_quorum.specs.Runs.{EndsWith, IsRecent, TakesTurns};

/// A step of a client is a step of its requests, and then one of its reads.
pub fn steps_both_halves()
    ensures requests { (c : core.Client) (x : Given) →
        (core.next c x).0.requests ≡ (next c.requests x).0 }
    ensures reads { (c : core.Client) (x : Given) →
        (core.next c x).0.reads ≡ (reads.next c.reads x).0 }
    ensures outs { (c : core.Client) (x : Given) →
        (core.next c x).1 ≡ (next c.requests x).1 ++ (reads.next c.reads x).1 }
{}

/// A client that is asked for no key is in the state of its requests, gives what they give, and is done when they are.
pub fn acts_as_its_requests()
    ensures state { (config : Configuration) (number : ℕ) (ops : List (List ℕ))
        (inputs : List Given) → core.HasNoRead inputs →
        core.after (core.opening config number ops) inputs
        ≡ record {
          requests = after (opening config number ops) inputs;
          reads = reads.opening number;
        } }
    ensures outs { (config : Configuration) (number : ℕ) (ops : List (List ℕ))
        (inputs : List Given) → core.HasNoRead inputs →
        core.gave (core.opening config number ops) inputs
        ≡ gave (opening config number ops) inputs }
    ensures done { (config : Configuration) (number : ℕ) (ops : List (List ℕ))
        (inputs : List Given) → core.HasNoRead inputs →
        core.is_done (core.after (core.opening config number ops) inputs)
        ≡ is_done (after (opening config number ops) inputs) }
{}

/// Each step is a row: nothing happens where nothing was asked, the client says that it is busy, an op is submitted, the open requests
/// are sent again, or a reply is kept, or accepts a result.
pub fn steps_are_rows()
    ensures { (s : ClientState) (x : Given) → Row s x (next s x) }
{}

/// Only a submission opens a request: it is the last one then, and acceptances of ids a window behind it are forgotten. A reply is kept for
/// its own request, and an acceptance closes its own and is kept. Where a row does none of the three, the state stays.
pub fn rows_move_open_requests()
    ensures none { (config : Configuration) (number : ℕ) (ops : List (List ℕ)) →
        open_requests (opening config number ops) ≡ [] }
    ensures empty { (config : Configuration) (number : ℕ) (ops : List (List ℕ)) (id : ℕ) →
        kept_for (opening config number ops) id ≡ [] }
    ensures opens { (s : ClientState) (r : Request) (waiting : List (List ℕ)) →
        IsOpened s (submitted (record s { waiting = waiting }) r) r }
    ensures keeps { (s : ClientState) (p : Reply) →
        is_open s p.id ≡ true → IsKept s (kept s p) p }
    ensures closes { (s : ClientState) (id : ℕ) (p : Reply) →
        IsClosed s (accepts s id p) id p }
{}

/// What the words on open requests say of one another.
pub fn words_agree()
    ensures { (s : ClientState) → WordsAgree s }
{}

/// A reply for the client and an open id makes the client accept a result exactly where f + 1 replies that are kept for the id, this
/// one with them, are of its view and slot, and the leader's is one of them with that result.
pub fn accepts_exactly_at_a_quorum()
    ensures { (s : ClientState) (p : Reply) (result : List ℕ) → HasOneEach (kept_for s p.id)
        → is_expected s p ≡ true →
        Has (reply s p).1 (Accepted s.number p.id result) ↔
        HasQuorum s.config.replicas (keep_reply (kept_for s p.id) p) p.view p.slot result }
{}

/// Whatever came before, a result is accepted only where f + 1 different replicas replied for the client and id at one view
/// and slot, the leader of that view with that result.
pub fn accepts_what_replicas_replied()
    ensures { (config : Configuration) (number : ℕ) (ops : List (List ℕ))
        (past : List Given) (x : Given)
        (client id : ℕ) (result : List ℕ) →
        Has (next (after (opening config number ops) past) x).1 (Accepted client id result) →
        IsAgreed config.replicas (replies_of (past ++ x ∷ [])) number id result }
{}

/// Up to eight requests are open at a time, the last at most seven ids above the first: each is submitted under the next id, counted
/// from 1, once there is room for it, what is sent is an open request, and each is accepted once.
pub fn takes_turns()
    ensures { (config : Configuration) (number : ℕ) (ops : List (List ℕ))
        (inputs : List Given) →
        TakesTurns number [] 0 (gave (opening config number ops) inputs) }
{}

/// Each id is submitted once and accepted at most once.
pub fn uses_each_id_once()
    ensures submitted { (config : Configuration) (number : ℕ) (ops : List (List ℕ))
        (inputs : List Given)
        (i j : ℕ) (p q : Request) →
        slice_get (gave (opening config number ops) inputs) i ≡ Some (Submitted p) →
        slice_get (gave (opening config number ops) inputs) j ≡ Some (Submitted q) →
        p.id ≡ q.id → i ≡ j }
    ensures accepted { (config : Configuration) (number : ℕ) (ops : List (List ℕ))
        (inputs : List Given)
        (i j client other id : ℕ) (a b : List ℕ) →
        slice_get (gave (opening config number ops) inputs) i ≡ Some (Accepted client id a) →
        slice_get (gave (opening config number ops) inputs) j ≡ Some (Accepted other id b) → i ≡ j }
{}

/// Waiting ops are submitted in their order, each once, and none is lost or added: where no op comes from outside, those that
/// were submitted and those that wait are the client's ops. In any run those that wait are the last of them.
pub fn submits_waiting_ops_in_order()
    ensures alone { (config : Configuration) (number : ℕ) (ops : List (List ℕ))
        (inputs : List Given) →
        HasNoSubmit inputs →
        ops_of (gave (opening config number ops) inputs)
        ++ (after (opening config number ops) inputs).waiting ≡ ops }
    ensures any { (config : Configuration) (number : ℕ) (ops : List (List ℕ))
        (inputs : List Given) →
        EndsWith ops (after (opening config number ops) inputs).waiting }
{}

/// The last id is the number of requests that were submitted. An acceptance is kept exactly for those of the last eight ids that were
/// accepted: it is as it was given, with the slot at which f + 1 replicas agreed; the others of these are open.
pub fn knows_recent_requests()
    ensures count { (config : Configuration) (number : ℕ) (ops : List (List ℕ))
        (inputs : List Given) →
        (after (opening config number ops) inputs).last_id ≡
        length (ops_of (gave (opening config number ops) inputs)) }
    ensures kept { (config : Configuration) (number : ℕ) (ops : List (List ℕ))
        (inputs : List Given) (id : ℕ) (a : Accept) →
        accepted_in (after (opening config number ops) inputs).recent id ≡ Some a →
        (a.id ≡ id) × IsRecent config.replicas number
        (after (opening config number ops) inputs).last_id
        (gave (opening config number ops) inputs) (replies_of inputs) a }
    ensures found { (config : Configuration) (number : ℕ) (ops : List (List ℕ))
        (inputs : List Given) (client id : ℕ) (result : List ℕ) →
        Has (gave (opening config number ops) inputs) (Accepted client id result) →
        (after (opening config number ops) inputs).last_id < id + WINDOW →
        (a : Accept)
        × (accepted_in (after (opening config number ops) inputs).recent id ≡ Some a)
        × (a.result ≡ result) }
    ensures others { (config : Configuration) (number : ℕ) (ops : List (List ℕ))
        (inputs : List Given) (id : ℕ) → 1 ≤ id →
        id ≤ (after (opening config number ops) inputs).last_id →
        (after (opening config number ops) inputs).last_id < id + WINDOW →
        accepted_in (after (opening config number ops) inputs).recent id ≡ None →
        is_open (after (opening config number ops) inputs) id ≡ true }
{}

/// A client to which no op comes is done exactly where as many results were accepted as it had ops.
pub fn is_done_when_all_are_accepted()
    ensures done { (config : Configuration) (number : ℕ) (ops : List (List ℕ))
        (inputs : List Given) →
        HasNoSubmit inputs → is_done (after (opening config number ops) inputs) ≡ true →
        accept_count (gave (opening config number ops) inputs) ≡ length ops }
    ensures not_done { (config : Configuration) (number : ℕ) (ops : List (List ℕ))
        (inputs : List Given) →
        HasNoSubmit inputs → is_done (after (opening config number ops) inputs) ≡ false →
        accept_count (gave (opening config number ops) inputs) < length ops }
{}

/// What is kept for a request is never a quorum: with the reply that makes it one, the request is accepted.
pub fn keeps_no_quorum()
    ensures { (config : Configuration) (number : ℕ) (ops : List (List ℕ))
        (inputs : List Given)
        (id : ℕ) (view : View) (slot : ℕ) (result : List ℕ) →
        ¬ HasQuorum config.replicas (kept_for (after (opening config number ops) inputs) id)
        view slot result }
{}

/// What is not for a client changes nothing and sends nothing: bytes that spell no datagram, a datagram that is no reply of a replica to
/// one of its open requests, and a tick for others.
pub fn ignores_what_is_for_others()
    ensures packets { (s : ClientState) (bytes : List ℕ) → IgnoresPacket s bytes }
    ensures ticks { (s : ClientState) (tick : Tick) → is_tick_for tick ≡ false →
        IsIgnored s (Ticked tick) }
{}
