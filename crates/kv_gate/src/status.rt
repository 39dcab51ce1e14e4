//! How the program of the gateway ends, with its exit statuses.
/// How the program ends; the number is its exit status, as that of `nopaxos`.
#[derive(Clone, Copy, PartialEq, Eq)]
pub(crate) enum Status {
    /// All turns were taken.
    Done = 0,
    /// The words ask for nothing, or the list is refused: a line says so.
    Usage = 2,
    /// The list cannot be read.
    ReadFault = 3,
    /// The line could not be written.
    WriteFault = 4,
    /// An address could not be opened, a number is refused, or a socket failed.
    LinkFault = 5,
    NoMemory = 6,
}
