use nop_types::Config;

/// After this many probes in a row without an answer the controller moves.
pub const MISSED_END: u8 = 3;

/// How long an Install waits for its answer before it is sent again.
pub const RESEND_MILLIS: u64 = 100;

/// The time between two probes.
pub const PROBE_MILLIS: u64 = 300;

// A number that both code and definitions name would be proved whatever it was; so here each stands once more.
const _: () = prove!(MISSED_END == 3 && RESEND_MILLIS == 100 && PROBE_MILLIS == 300);

/// What a controller knows: its number, its last session, the greatest session above it that a sequencer told of (0 is none), the
/// current sequencer and whether that confirmed its session, the round of the last probe (0 is none) and whether it was answered, and how
/// many in a row were not.
#[derive(Clone, Copy, Debug, PartialEq, Eq)]
pub struct ControllerState {
    pub config: Config,
    pub number: u8,
    pub session: u64,
    pub seen: u64,
    pub current: u8,
    pub confirmed: bool,
    pub round: u32,
    pub heard: bool,
    pub missed: u8,
}
