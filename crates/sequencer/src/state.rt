/// A sequencer's number, its session (0 is none) and its next message number, which is at most `NUMBER_END`.
#[derive(Clone, Copy, Debug, PartialEq, Eq)]
pub struct SequencerState {
    pub number: u8,
    pub session: u64,
    pub next: u64,
}
