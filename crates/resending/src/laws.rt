//! What follows for acknowledgements, and for what they take out of flight.

ghost use Rattle.std.specs.Prelude.{◌≡◌, ℕ, List, Some, false};
ghost use Rattle.nop_types.specs.Lists.{Has};
ghost use Rattle.resending.specs.Acks.{AckFits, ack_bytes, reading};
ghost use Rattle.resending.specs.Flights.{is_taken, left};
ghost use Rattle.resending.specs.declared.acks.Ack.{Ack};
ghost use Rattle.resending.specs.declared.flight.Sent.{Sent};

/// The spelling of an acknowledgement is read as that acknowledgement.
pub fn spelled_is_read()
    ensures { (ack : Ack) → AckFits ack → reading (ack_bytes ack) ≡ Some ack }
{}

/// What stays in flight was not acknowledged, and was in flight: a part that was acknowledged is not sent again.
pub fn acknowledged_is_gone()
    ensures { (port : ℕ) (ack : Ack) (flight : List Sent) (s : Sent)
        → Has (left port ack flight) s → Has flight s × (is_taken port ack s ≡ false) }
{}

/// What an acknowledgement does not name stays in flight: none is forgotten.
pub fn others_stay()
    ensures { (port : ℕ) (ack : Ack) (flight : List Sent) (s : Sent)
        → Has flight s → is_taken port ack s ≡ false → Has (left port ack flight) s }
{}
