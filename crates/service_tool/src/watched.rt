//! How a watch of the service ended.

ghost use Rattle.std.specs.Prelude.{◌≡◌, IfOk};
ghost use Rattle.outside.specs.Causes.{CountsFor};
ghost use Rattle.outside.specs.declared.errors.DeviceError.TheVariants as devices;
ghost use Rattle.service_tool.specs.Watched.{TellsWatch, unseen_text, watch_status, watch_text};

use crate::calling::tell;
use crate::status::Status;
use crate::telling::Tool;
use outside::{Sink, WriteError};
use std::alloc::Global;
use watching::WatchError;

const UNSEEN: &str =
    "no leader told anything. Is the service up, and does it know of this observer?";

/// What is told where no state was shown.
fn unseen_text() -> &'static str
    ensures { result.now ≡ unseen_text }
{
    UNSEEN
}

/// Why a watch ended before a state was shown.
fn watch_text(e: WatchError) -> &'static str
    ensures { result.now ≡ watch_text e }
{
    match e {
        WatchError::PortFault => "the observer's port is in use: take another one by --observer",
        WatchError::LinkFault => "the link failed",
        WatchError::WriteFault => "a write failed",
        WatchError::NoMemory => "memory ran out",
    }
}

fn watch_status(e: WatchError) -> Status
    ensures { result ≡ watch_status e }
{
    match e {
        WatchError::PortFault | WatchError::LinkFault => Status::LinkFault,
        WatchError::WriteFault => Status::WriteFault,
        WatchError::NoMemory => Status::NoMemory,
    }
}

/// The status of a watch that ended so; where no state was shown, it is told why.
#[tactic(auto, using(outside::proofs::Counts::counts_none))]
pub fn tell_watch<E: Sink>(
    alloc: Global,
    tool: &Tool<'_>,
    ended: Result<bool, WatchError>,
    err: &mut E,
) -> Result<Status, WriteError>
    ensures tells { IfOk result (TellsWatch tool.now.program.now ended (E.held err.old)
        (E.held err.new)) }
    ensures faults { CountsFor (E.fault_count err.old) (E.fault_count err.new)
        devices.Failed result }
{
    match ended {
        Ok(true) => Ok(Status::Done),
        Ok(false) => {
            tell(alloc, tool, unseen_text(), err)?;
            Ok(Status::Unanswered)
        }
        Err(e) => {
            tell(alloc, tool, watch_text(e), err)?;
            Ok(watch_status(e))
        }
    }
}
