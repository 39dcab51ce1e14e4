/// Why a cluster ended without its last line.
#[derive(Clone, Copy, PartialEq, Eq)]
pub enum ClusterError {
    LinkFault,
    WriteFault,
    NoMemory,
}
