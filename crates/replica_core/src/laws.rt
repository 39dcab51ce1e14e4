ghost use Rattle.std.specs.Prelude.{◌≡◌, ◌≤◌, ◌<◌, ◌+◌, ◌-◌, ℕ, List, [], false};
ghost use Rattle.nop_types.specs.Given.{Submit, Read};
ghost use Rattle.nop_types.specs.Logs.{Log, Trimmed, length_of};
ghost use Rattle.nop_types.specs.Meaning.{Meaning};
ghost use Rattle.nop_types.specs.Ranges.{PeerFits};
ghost use Rattle.nop_types.specs.declared.limits.TheConstants.{NUMBER_END};
ghost use Rattle.nop_types.specs.declared.peer.Peer.{Peer};
ghost use Rattle.nop_types.specs.declared.request.Request.{Request};
ghost use Rattle.fragments.specs.Cutting.{HasNoCut};
ghost use Rattle.peer_codec.specs.Spelling.{spelling};
ghost use Rattle.replica_state.specs.declared.state.ReplicaState.{ReplicaState};
ghost use Rattle.replica_rows.specs.Rows.{gap_commit, found, sync_prepare, sync_commit, begin_gap};
ghost use Rattle.replica_rows.specs.Rows.{suspect, last_leader};
ghost use Rattle.replica_state.specs.Sends.{still};
ghost use Rattle.replica_state.specs.State.{may_append, PointsMeet};
ghost use Rattle.replica_rows.specs.Messages.{Arrival};
ghost use Rattle.replica_core.specs.declared.replica.TheConstants.{LAST_MESSAGE};
ghost use Rattle.replica_core.specs.Ignoring.{IsIgnored, IgnoresPacket, IgnoresMessage};
ghost use Rattle.replica_core.specs.ReplicaSteps.{Replica, row};

/// Each message in its ranges can be cut.
pub fn messages_are_cut()
    ensures { (p : Peer) → PeerFits p → ¬ HasNoCut (spelling p) }
{}

/// What is not for a replica changes nothing and sends nothing: bytes that spell no datagram, a datagram for others, a fragment of
/// its own number or of none of the group, an op and a read. So does a message of no other replica, and one that is taken only in its
/// view in Normal, where that is another view or status.
pub fn ignores_what_is_for_others<S>()
    ensures packets { (m : Meaning S) (s : Replica) (bytes : List ℕ) → IgnoresPacket m s bytes }
    ensures ops { (m : Meaning S) (s : Replica) (op : List ℕ) → IsIgnored m s (Submit op) }
    ensures reads { (m : Meaning S) (s : Replica) (observer : ℕ) (key : List ℕ) →
        IsIgnored m s (Read observer key) }
    ensures messages { (m : Meaning S) (s : ReplicaState) (p : Peer) → IgnoresMessage m s p }
{}

/// A row that would pass a limit changes nothing and sends nothing: one that would log an entry in a log without room or past the last number,
/// or raise the sync point above what is prepared, or the leader number past its end. Between two steps `PointsMeet` holds.
pub fn rows_rest_at_limits<S>()
    ensures gap { (m : Meaning S) (s : ReplicaState) (n : ℕ) → may_append Trimmed s ≡ false →
        length_of Trimmed s.log < n → gap_commit m Trimmed n s ≡ still s }
    ensures found { (m : Meaning S) (s : ReplicaState) (n : ℕ) (r : Request) →
        may_append Trimmed s ≡ false → found m Trimmed n r s ≡ still s }
    ensures prepare { (m : Meaning S) (s : ReplicaState) (l : Log) →
        NUMBER_END < s.next + (length_of Trimmed l - length_of Trimmed s.log) →
        sync_prepare m Trimmed l s ≡ still s }
    ensures begin { (m : Meaning S) (s : ReplicaState) → NUMBER_END ≤ s.next →
        begin_gap m Trimmed s ≡ still s }
    ensures commit { (m : Meaning S) (s : ReplicaState) (n : ℕ) → PointsMeet s →
        s.sync.prepared < n → sync_commit m Trimmed n s ≡ still s }
    ensures leader { (m : Meaning S) (s : ReplicaState) → last_leader ≤ s.view.leader →
        suspect m Trimmed s ≡ still s }
{}

/// Once `LAST_MESSAGE` or a greater number was used no row is taken, so the numbers of messages never rise to their end.
pub fn message_numbers_end<S>()
    ensures ends { (m : Meaning S) (s : Replica) (a : Arrival) → LAST_MESSAGE ≤ s.messages →
        row m s a ≡ (s, []) }
    ensures below { (m : Meaning S) (s : Replica) (a : Arrival) →
        s.messages < LAST_MESSAGE + 8 → (row m s a).0.messages < LAST_MESSAGE + 8 }
{}
