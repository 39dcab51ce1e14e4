/// How the program ends; the number is its exit status.
#[derive(Clone, Copy, Debug, PartialEq, Eq)]
pub enum Status {
    /// The command ended as it is defined.
    Done = 0,
    /// A line of the schedule is bad.
    Malformed = 1,
    /// The words are not taken.
    Usage = 2,
    ReadFault = 3,
    WriteFault = 4,
    /// A port or a link failed.
    LinkFault = 5,
    NoMemory = 6,
    /// A client or a cluster took all its turns, and one of the ops was not accepted, or a read not answered.
    Unanswered = 7,
    /// A transcript breaks a clause, or a line of a trace has a fault.
    Refuted = 8,
}
