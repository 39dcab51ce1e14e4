//! Why a gateway ended before its turns: a port, a link, the users as a whole, or no memory.
ghost use Rattle.gate.specs.Faults.{link_fault, port_fault, users_fault};
ghost use Rattle.std.specs.Prelude.{◌≡◌};

use outside::{AttachError, DeviceError, LinkError};

/// Why a gateway ended before its turns.
#[derive(Clone, Copy, PartialEq, Eq)]
pub enum GateError {
    /// The port of a client could not be opened. Nothing was sent.
    PortFault,
    /// A poll of a link failed.
    LinkFault,
    /// The connections of users failed as a whole.
    UsersFault,
    /// Memory ran out.
    NoMemory,
}

/// Why the ports gave no link.
pub(crate) fn port_fault(e: AttachError) -> GateError
    ensures { result ≡ port_fault e }
{
    match e {
        AttachError::Failed => GateError::PortFault,
        AttachError::NoMemory => GateError::NoMemory,
    }
}

/// Why a link gave nothing.
pub(crate) fn link_fault(e: LinkError) -> GateError
    ensures { result ≡ link_fault e }
{
    match e {
        LinkError::Failed => GateError::LinkFault,
        LinkError::NoMemory => GateError::NoMemory,
    }
}

/// Why users gave nothing.
pub(crate) fn users_fault(e: DeviceError) -> GateError
    ensures { result ≡ users_fault e }
{
    match e {
        DeviceError::Failed => GateError::UsersFault,
        DeviceError::NoMemory => GateError::NoMemory,
    }
}
