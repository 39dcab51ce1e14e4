/// How such a program ends; the number is its exit status, as that of `nopaxos`.
#[derive(Clone, Copy, PartialEq, Eq)]
pub enum Status {
    /// An order was found, and the transcript with it was written.
    Done = 0,
    /// The arguments are none of these: the usage line was written, and nothing was read.
    Usage = 2,
    ReadFault = 3,
    WriteFault = 4,
    NoMemory = 6,
    /// The transcript breaks a clause, or its claims have no order.
    Refuted = 8,
    /// The steps are spent, or a client and id is submitted twice.
    Undecided = 9,
}
