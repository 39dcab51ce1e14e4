ghost use Rattle.client_call.specs.declared.errors.CallError.TheVariants as errors;
ghost use Rattle.std.specs.Prelude.{◌≡◌};

use nop_types::NoMemory;

/// Why a call has no result.
#[derive(Clone, Copy, Debug, PartialEq, Eq)]
pub enum CallError {
    /// The client's port could not be opened. Nothing was sent.
    PortFault,
    /// A poll of the link failed. The op may still be executed.
    LinkFault,
    /// The turns ended before the request was accepted. The op may still be executed.
    Unanswered,
    /// Memory ran out. The op may still be executed.
    NoMemory,
}

impl From<NoMemory> for CallError {
    ghost from_gives = { λ _ e. e ≡ errors.NoMemory };

    fn from(_e: NoMemory) -> CallError {
        CallError::NoMemory
    }
}
