//! Why a load on a service ended: a port, a link, or no memory.
ghost use Rattle.service_load.specs.declared.errors.LoadError.TheVariants as errors;
ghost use Rattle.std.specs.Prelude.{◌≡◌};
ghost use Rattle.service_load.specs.Errors.{link_fault, port_fault};

use nop_types::NoMemory as OutOfMemory;
use outside::DeviceError;

/// Why a load ended.
#[derive(Clone, Copy, PartialEq, Eq)]
pub enum LoadError {
    /// A port could not be opened.
    PortFault,
    /// A poll failed.
    LinkFault,
    NoMemory,
}

impl From<OutOfMemory> for LoadError {
    ghost from_gives = { λ _ e. e ≡ errors.NoMemory };

    fn from(_e: OutOfMemory) -> LoadError {
        LoadError::NoMemory
    }
}

/// Why no link was attached.
pub(crate) fn port_fault(e: DeviceError) -> LoadError
    ensures { result ≡ port_fault e }
{
    match e {
        DeviceError::Failed => LoadError::PortFault,
        DeviceError::NoMemory => LoadError::NoMemory,
    }
}

/// Why a poll gave nothing.
pub(crate) fn link_fault(e: DeviceError) -> LoadError
    ensures { result ≡ link_fault e }
{
    match e {
        DeviceError::Failed => LoadError::LinkFault,
        DeviceError::NoMemory => LoadError::NoMemory,
    }
}
