ghost use Rattle.std.specs.Prelude.{◌≡◌};
ghost use Rattle.nop_types.specs.Logs.{Whole, Trimmed};
ghost use Rattle.replica_state.specs.declared.state.ReplicaState.{ReplicaState};
ghost use Rattle.replica_rows.specs.Messages.{Arrival, arrive};
ghost use Rattle.trimmed_rows.specs.Premises.{PointsWithin, ArrivesWithin};
ghost use Rattle.trimmed_rows.specs.Trimmed.{trimmed, trimmed_effect, trimmed_arrival};

use nop_types::Host;

/// Whatever arrives at a replica, a stamped request, a message of another replica or a tick: the row over its trimmed log does
/// what the row over the whole one does, trimmed: in its state, in all that it sends, and in the entries that move out of its log.
pub fn rows_trim<H: Host>()
    ensures { (s : ReplicaState) (a : Arrival) → PointsWithin s → ArrivesWithin H.meaning s a
        → arrive H.meaning Trimmed (trimmed H.meaning s) (trimmed_arrival H.meaning a)
        ≡ trimmed_effect H.meaning (arrive H.meaning Whole s a) }
{}
