ghost use Rattle.std.specs.Prelude.{◌≡◌, ◌≢◌, ◌<◌, ◌+◌, ◌^◌, ◌++◌, ℕ, List, [], Some, Ok};
ghost use Rattle.std.specs.Prelude.{IsTrue};
ghost use Rattle.std.specs.List.{AllByRecursion};
ghost use Rattle.nop_types.specs.Configuration.{Configuration, is_configuration};
ghost use Rattle.nop_types.specs.Given.{Given};
ghost use Rattle.nop_types.specs.Lists.{Has};
ghost use Rattle.nop_types.specs.Bounds.{Bounds};
ghost use Rattle.nop_types.specs.Logs.{Keeping, Trimmed};
ghost use Rattle.nop_types.specs.Meaning.{Meaning};
ghost use Rattle.nop_types.specs.declared.datagram.Fragment.{Fragment};
ghost use Rattle.nop_types.specs.declared.peer.Peer.{Peer};
ghost use Rattle.lemmas.specs.Functions.{put};
ghost use Rattle.fragments.specs.Joining.{Waiting, taken};
ghost use Rattle.fragments.specs.Runs.{AllCame};
ghost use Rattle.oum_receiver.specs.Receiving.{IsSound};
ghost use Rattle.peer_codec.specs.Reading.{reading};
ghost use Rattle.replica_state.specs.declared.sending.Sending.{Sending};
ghost use Rattle.replica_state.specs.declared.state.ReplicaState.{ReplicaState};
ghost use Rattle.replica_rows.specs.Messages.{Arrival, arrive};
ghost use Rattle.replica_core.specs.Posting.{posted};
ghost use Rattle.replica_core.specs.ReplicaSteps.{Replica, opening, fragment, next};
ghost use Rattle.replica_state.specs.Sends.{SendingFits, message_count};
ghost use Rattle.replica_state.specs.State as state;
ghost use Rattle.replica_rows.specs.Within.{ArrivalIsIn};
ghost use Rattle.replica_state.specs.Within.{IsIn};
ghost use Rattle.network_laws.specs.Carried.{Carried, WasSentInRange};
ghost use Rattle.network_laws.specs.Network.{IsOtherDatagram, MayCome, Network, PostsReplies};
ghost use Rattle.network_laws.specs.PostedFragments.{PostsFragments, fragments_in};
ghost use Rattle.network_laws.specs.Ranges.{StaysInRanges};
ghost use Rattle.network_laws.specs.Sends.{peers_in, GoesAmong, IsBy};
ghost use Rattle.network_laws.specs.Steps.{InNetwork, Brings, Delivers};

/// A state in its ranges, whose receiver is sound, stays so at whatever arrives in its ranges, and
/// what is sent is in its ranges, for a service that keeps its bounds; over logs that are kept whole
/// and over trimmed ones. So it is from the opening on.
pub fn rows_stay_in_ranges<S>()
    ensures opens { (k : Keeping) (config : Configuration) (n : ℕ)
        → IsTrue (is_configuration config)
        → n < config.replicas → IsIn k (state.opening config n)
        × IsSound (state.opening config n).receiver }
    ensures stays { (m : Meaning S) (k : Keeping) → Bounds m k → (s : ReplicaState) (a : Arrival)
        → IsIn k s → IsSound s.receiver → ArrivalIsIn k a → StaysInRanges k (arrive m k s a) }
{}

/// What is posted are the fragments of the messages that are sent, under the numbers above the one
/// that was used last.
pub fn posts_fragments()
    ensures { (number : ℕ) (sends : List Sending) → AllByRecursion SendingFits sends →
        number + message_count sends < 2 ^ 64 → PostsFragments number sends }
{}

/// A row keeps the number of its replica, and its replies and messages name that number as the
/// sender.
pub fn rows_send_under_their_number<S>()
    ensures number { (m : Meaning S) (k : Keeping) (s : ReplicaState) (a : Arrival)
        → (arrive m k s a).0.number ≡ s.number }
    ensures sends { (m : Meaning S) (k : Keeping) (s : ReplicaState) (a : Arrival)
        → AllByRecursion (IsBy s.number) (arrive m k s a).1 }
{}

/// A row keeps the number of replicas of its configuration, and its messages go to all of them, or
/// to one of them.
pub fn rows_send_within_the_configuration<S>()
    ensures count { (m : Meaning S) (k : Keeping) (s : ReplicaState) (a : Arrival)
        → (arrive m k s a).0.config.replicas ≡ s.config.replicas }
    ensures sends { (m : Meaning S) (k : Keeping) (s : ReplicaState) (a : Arrival)
        → AllByRecursion (GoesAmong s.config.replicas) (arrive m k s a).1 }
{}

/// Where the fragments of a network carry what was told, and a reassembly has only parts that came
/// in them, a message that one more of them completes was sent by that fragment's replica, and is
/// in its ranges.
pub fn joined_was_sent()
    ensures { (peer_messages : List Peer) (net : List Fragment) (used : ℕ → ℕ)
        (all : List Waiting) (f : Fragment) (bytes : List ℕ) (p : Peer)
        → Carried peer_messages net used → Has net f
        → AllCame net all → (taken all f).1 ≡ Some bytes → reading bytes ≡ Ok p
        → WasSentInRange peer_messages f p }
{}

/// What a replica posts is carried too, where it is in its ranges and names that replica as the
/// sender, and message numbers are left.
pub fn posting_carries()
    ensures { (peer_messages : List Peer) (net : List Fragment) (used : ℕ → ℕ) (r : ℕ)
        (sends : List Sending) → Carried peer_messages net used → AllByRecursion SendingFits sends
        → AllByRecursion (IsBy r) sends → used r + message_count sends < 2 ^ 64
        → Carried (peers_in sends ++ peer_messages) (net ++ fragments_in (posted (used r) sends))
        (put used r (used r + message_count sends)) }
{}

/// What a replica posts are the replies among what it sends, and fragments, each in its range.
pub fn posts_replies()
    ensures { (number : ℕ) (sends : List Sending) → AllByRecursion SendingFits sends
        → number + message_count sends < 2 ^ 64 → PostsReplies number sends }
{}

/// At the opening nothing was sent, and no message number was used.
pub fn opening_carries()
    ensures network { Network [] [] (λ (r : ℕ). 0) }
    ensures replica { (config : Configuration) (r : ℕ) → IsTrue (is_configuration config)
        → r < config.replicas → InNetwork [] (λ (q : ℕ). 0) r (opening config r) }
{}

/// Datagrams that are no fragments leave a network one. Whatever others send, a replica stays in
/// the network, also where another replica used further message numbers.
pub fn network_goes_on()
    ensures network { (peer_messages : List Peer) (sent more : List (List ℕ)) (used : ℕ → ℕ)
        → Network peer_messages sent used → AllByRecursion IsOtherDatagram more
        → Network peer_messages (sent ++ more) used }
    ensures replica { (sent more : List (List ℕ)) (used : ℕ → ℕ) (r : ℕ) (s : Replica)
        → InNetwork sent used r s → InNetwork (sent ++ more) used r s }
    ensures other { (sent more : List (List ℕ)) (used : ℕ → ℕ) (r q n : ℕ)
        (s : Replica) → q ≢ r
        → InNetwork sent used q s → InNetwork (sent ++ more) (put used r n) q s }
{}

/// A fragment that was sent brings a message that its replica sent, or at most the reassembly
/// changes.
pub fn fragments_bring_messages<S>()
    ensures { (m : Meaning S) (peer_messages : List Peer) (net : List Fragment) (used : ℕ → ℕ)
        (s : Replica) (f : Fragment) → Carried peer_messages net used → Has net f
        → AllCame net s.reassembly
        → Brings m peer_messages net s f (fragment m s f) }
{}

/// Whatever comes to a replica of a network, it takes the row of something that was sent,
/// or none. What it sends is carried, and it stays in the network.
pub fn steps_deliver<S>()
    ensures { (m : Meaning S) → Bounds m Trimmed → (peer_messages : List Peer)
        (sent : List (List ℕ)) (used : ℕ → ℕ) (r : ℕ) (s : Replica) (given : Given)
        → Network peer_messages sent used → InNetwork sent used r s → MayCome sent given
        → Delivers m peer_messages sent used r s (next m s given) }
{}
