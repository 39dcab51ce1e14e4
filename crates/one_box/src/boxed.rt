/// How a cluster ended: the turns taken, the sends that failed, the datagrams that came and that nobody had sent, and whether all ops
/// were accepted.
#[derive(Clone, Copy, PartialEq, Eq)]
pub struct Boxed {
    pub turns: u64,
    pub lost: u64,
    pub stray: u64,
    pub done: bool,
}
