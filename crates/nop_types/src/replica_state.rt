/// Whether a replica takes part in its view, or waits for the view to start.
#[derive(Clone, Copy, Debug, PartialEq, Eq)]
pub enum Phase {
    Normal,
    Change,
}

/// Whether enough votes came.
#[derive(Clone, Copy, PartialEq, Eq)]
pub enum Vote {
    Settled,
    Waiting,
}
