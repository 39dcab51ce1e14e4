ghost use Rattle.std.specs.Prelude.{◌≡◌, ◌<◌};
ghost use Rattle.nop_types.specs.Logs.{Whole};
ghost use Rattle.nop_types.specs.Meaning.{Meaning};
ghost use Rattle.nop_types.specs.declared.datagram.Stamped.{Stamped};
ghost use Rattle.nop_types.specs.declared.view.View.{View};
ghost use Rattle.replica_state.specs.declared.state.ReplicaState.{ReplicaState};
ghost use Rattle.replica_state.specs.Moves.{session_view, begin_session, queue, enter};
ghost use Rattle.replica_rows.specs.Rows.{enter_and_drain};
ghost use Rattle.replica_state.specs.Sends.{then_do};
ghost use Rattle.replica_state.specs.State.{max_faults};
ghost use Rattle.refinement.specs.Clients.{ClientsReach};
ghost use Rattle.refinement.specs.Controllers.{ControllersReach};
ghost use Rattle.refinement.specs.Openings.{OpeningsMatch};
ghost use Rattle.refinement.specs.Replicas.{ReplicasReach};
ghost use Rattle.refinement.specs.Sequencers.{SequencersReach};

/// The protocol's opening has each actor in its opening state, and nothing was sent there that is
/// out of its ranges.
pub fn openings_match<S>()
    ensures { (m : Meaning S) → OpeningsMatch m }
{}

/// Whatever arrives at a replica whose logs are kept whole, the row that takes it is a list of
/// moves, which send what it sends, and note what one step notes.
pub fn replicas_reach<S>()
    ensures { (m : Meaning S) → ReplicasReach m }
{}

/// Whatever may come to a client, what it does is a list of moves, which send and say what it
/// sends and says.
pub fn clients_reach<S>()
    ensures { (m : Meaning S) → ClientsReach m }
{}

/// Whatever may come to a sequencer, what it does is a list of moves, which send what it sends.
pub fn sequencers_reach<S>()
    ensures { (m : Meaning S) → SequencersReach m }
{}

/// Whatever may come to a controller, what it does is a list of moves, which send what it sends.
pub fn controllers_reach<S>()
    ensures { (m : Meaning S) → ControllersReach m }
{}

/// Where a packet of a greater session begins that session and then the view is entered, the view
/// may as well be entered first, and the packet queued.
pub fn new_session_enters_then_queues()
    ensures { (s : ReplicaState) (p : Stamped) → s.receiver.session ≡ s.view.session →
        s.view.session < p.session → enter (begin_session s p) (session_view s p)
        ≡ then_do (enter s (session_view s p)) (λ t. queue t p) }
{}

/// A replica with others that enters a view does nothing more.
pub fn enters_only<S>()
    ensures { (m : Meaning S) (s : ReplicaState) (v : View) → 0 < max_faults s →
        enter_and_drain m Whole v s ≡ enter s v }
{}
