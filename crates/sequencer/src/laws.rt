ghost use Rattle.std.specs.Prelude.{◌≡◌, List, ℕ, Some, map, slice_get};
ghost use Rattle.nop_types.specs.Given.{Given, Ticked, Submit, Read};
ghost use Rattle.nop_types.specs.declared.input.Tick.{Tick};
ghost use Rattle.nop_types.specs.declared.datagram.Stamped.{Stamped};
ghost use Rattle.sequencer.specs.declared.state.SequencerState.{SequencerState};
ghost use Rattle.sequencer.specs.Ignoring.{IsIgnored, IgnoresPacket};
ghost use Rattle.sequencer.specs.Runs.{Call, Step, run, stamps, spelled, to_replicas};

/// Whatever the inputs, what a sequencer sends to the replicas are the packets that it stamps in its steps, in order.
pub fn outputs_are_stamps()
    ensures { (s : SequencerState) (inputs : List Given)
        → to_replicas (run s inputs).1 ≡ map spelled (stamps s (map Step inputs)) }
{}

/// Whatever the steps and the calls of `stamp`, a sequencer never stamps two packets with one session and number.
pub fn stamps_once()
    ensures { (s : SequencerState) (calls : List Call) (i j : ℕ) (p q : Stamped) →
        slice_get (stamps s calls) i ≡ Some p → slice_get (stamps s calls) j ≡ Some q →
        p.session ≡ q.session → p.number ≡ q.number → i ≡ j }
{}

/// What is not for a sequencer changes nothing and sends nothing: bytes that spell no datagram, a datagram for others, a tick, an op
/// and a read. So it is with a request where there is no session or no number is left.
pub fn ignores_what_is_for_others()
    ensures packets { (s : SequencerState) (bytes : List ℕ) → IgnoresPacket s bytes }
    ensures ticks { (s : SequencerState) (tick : Tick) → IsIgnored s (Ticked tick) }
    ensures ops { (s : SequencerState) (op : List ℕ) → IsIgnored s (Submit op) }
    ensures reads { (s : SequencerState) (observer : ℕ) (key : List ℕ) →
        IsIgnored s (Read observer key) }
{}
