//! What is told on standard error.

use outside::{WriteError, write_all};
use service_tool::{Status, Tool};
use standard_io::StandardOut;

/// Tells a reason on standard error.
pub(crate) fn tell(rt: &HostRuntime, tool: &Tool<'_>, reason: &str, status: Status) -> Status {
    let mut err = StandardOut::new(rt.stderr());
    let program = tool.program;
    match format!(in rt.alloc(); "{program}: {reason}\n") {
        Ok(text) => match write_all(&mut err, text.as_str().as_bytes()) {
            Ok(()) => status,
            Err(_) => Status::WriteFault,
        },
        Err(_) => Status::NoMemory,
    }
}

/// The status of a command that was done, or of a write that failed.
pub(crate) fn status_of(ended: Result<Status, WriteError>) -> Status {
    match ended {
        Ok(status) => status,
        Err(WriteError::Failed) => Status::WriteFault,
        Err(WriteError::NoMemory) => Status::NoMemory,
    }
}
