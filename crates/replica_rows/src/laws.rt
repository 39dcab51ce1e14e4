ghost use Rattle.std.specs.Prelude.{◌≡◌, ◌≤◌, false, length, take};
ghost use Rattle.nop_types.specs.Logs.{Keeping, Whole, length_of};
ghost use Rattle.nop_types.specs.Meaning.{Meaning};
ghost use Rattle.nop_types.specs.declared.peer.Peer.{Peer};
ghost use Rattle.replica_state.specs.declared.state.ReplicaState.{ReplicaState};
ghost use Rattle.replica_state.specs.Sends.{message_count, still};
ghost use Rattle.replica_state.specs.State.{PointsMeet};
ghost use Rattle.replica_rows.specs.Messages.{Arrival, PeerMessage, loads_in, arrive};
ghost use Rattle.replica_rows.specs.Draining.{DrainsByFront};
ghost use Rattle.replica_rows.specs.MessagePoints.{point_in_arrival, gathered_point};

/// Whatever arrives, a row sends at most eight messages to other replicas, and keeps the configuration. So message numbers
/// never pass their end.
pub fn rows_send_few_messages<S>()
    ensures few { (m : Meaning S) (k : Keeping) (s : ReplicaState) (a : Arrival)
        → message_count (arrive m k s a).1 ≤ 8 }
    ensures config { (m : Meaning S) (k : Keeping) (s : ReplicaState) (a : Arrival)
        → (arrive m k s a).0.config ≡ s.config }
{}

/// Where logs are kept whole: whatever arrives, forged messages too, the entries up to the sync point stay as they are, unless a
/// log is sent with a greater sync point: in what arrives, or in the changes that are gathered. The own log is sent with that sync
/// point, as that of a member that runs.
#[tactic(auto, using(crate::proofs::Synchronised::synchronised_stays))]
pub fn synchronised_entries_stay<S>()
    ensures { (m : Meaning S) (s : ReplicaState) (a : Arrival)
        → PointsMeet s
        → s.sync.sync_point ≤ length s.log.entries
        → gathered_point s.changes ≤ s.sync.sync_point
        → point_in_arrival a ≤ s.sync.sync_point
        → take s.sync.sync_point (arrive m Whole s a).0.log.entries
        ≡ take s.sync.sync_point s.log.entries }
{}

/// A drain takes a request, opens a gap, asks or ends, by what is in front; of a log that its sync point is within, as that of
/// a trimmed one always is.
pub fn drains_by_front<S>()
    ensures { (m : Meaning S) (k : Keeping) (s : ReplicaState)
        → s.log.sync_point ≤ length_of k s.log → DrainsByFront m k s }
{}

/// A message whose checkpoint does not load does nothing: no view is entered either.
#[tactic(auto, using(crate::proofs::Loading::unloaded_rests))]
pub fn messages_that_do_not_load_rest<S>()
    ensures { (m : Meaning S) (k : Keeping) (s : ReplicaState) (p : Peer)
        → loads_in m p.body ≡ false → arrive m k s (PeerMessage p) ≡ still s }
{}
