use crate::ops::Ops;
use nop_types::{Config, Key};
use udp_node::BasePort;

/// Where a node or a cluster is: how many actors there are, the port of replica 0, and the most turns that it takes; and whether it
/// writes a trace. A cluster writes none.
#[derive(Clone, Copy, PartialEq, Eq)]
pub struct Site {
    pub config: Config,
    pub base: BasePort,
    pub turns: u64,
    pub trace: bool,
}

/// What the program is asked to do.
#[derive(Drop)]
pub enum Command {
    Replay,
    /// A schedule that is drawn from this number, and its count of events.
    Gen(u64, u32),
    /// A replica with this number.
    Node(u8, Site),
    /// A sequencer with this number.
    Sequencer(u8, Site),
    /// A controller with this number, and the sequencer that it installs at once.
    Controller(Site, u8, Option<u8>),
    /// A client with this number, and the ops that it submits.
    Client(u32, Site, Ops),
    /// All actors in one process, and the ops that its clients submit.
    Cluster(Site, Ops),
    /// A transcript is judged.
    Check,
    /// A trace is audited.
    Audit,
    /// An observer with this number.
    Observer(u8, Site),
    /// A client with this number, which asks this observer for the key until an answer's position is not below the last number.
    Read(u32, Site, u8, Key, u32),
}
