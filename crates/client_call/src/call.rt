//! The service that is called, and what a call of it gives.

ghost use Rattle.std.specs.Prelude.{◌≡◌};
ghost use Rattle.client_quorum.specs.Opens.{accepted_in};
ghost use Rattle.client_call.specs.Calls.{GivesAccepted, error_of};

use crate::CallError;
use client_quorum::Client;
use nop_types::{Accept, Config};
use udp_node::{BasePort, ServeError};

/// A replicated service: the port of replica 0, and how many actors there are.
#[derive(Clone, Copy, PartialEq, Eq)]
pub struct Service {
    pub base: BasePort,
    pub config: Config,
}

/// The acceptance of the request of an id.
pub(crate) fn accepted(core: &Client, id: u64) -> Result<Accept, CallError>
    ensures { GivesAccepted (accepted_in core.now.state.requests.recent id) result }
{
    match core.accepted(id) {
        Some(accept) => Ok(Accept {
            id: accept.id,
            slot: accept.slot,
            result: accept.result.try_clone()?,
        }),
        None => Err(CallError::Unanswered),
    }
}

/// Why there is no result. The client's lines are kept in memory, so that a write fails only where
/// memory runs out.
pub(crate) fn error_of(e: ServeError) -> CallError
    ensures { result ≡ error_of e }
{
    match e {
        ServeError::LinkFault => CallError::LinkFault,
        ServeError::WriteFault | ServeError::NoMemory => CallError::NoMemory,
    }
}
