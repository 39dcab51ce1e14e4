/// Where in a transcript the next line is.
#[derive(Clone, Copy, PartialEq, Eq)]
pub enum Part {
    /// The lines of events.
    Events,
    /// How the replicas stand at the end.
    States,
    /// How the observers stand at the end.
    Observers,
    /// The history.
    Members,
    /// Behind the last line.
    Over,
}
