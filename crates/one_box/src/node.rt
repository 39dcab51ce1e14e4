use udp_node::{Address, Timer};

/// An actor of the cluster: where it is, its timers, the number of its next op, and its link with how many datagrams were lost.
pub(crate) struct BoxActor<L> {
    pub(crate) at: Address,
    pub(crate) timers: Vec<Timer>,
    pub(crate) next_op: usize,
    pub(crate) link: L,
    pub(crate) lost: u64,
}
