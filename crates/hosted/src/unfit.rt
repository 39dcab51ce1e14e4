//! Why a program of a list of hosts runs nothing: its words, the list, or no memory.
ghost use Rattle.std.specs.Prelude.{◌≡◌};
ghost use Rattle.hosted.specs.declared.unfit.Unfit.TheVariants as unfits;

use host_list::Refusal;
use nop_types::NoMemory;

/// Why nothing is run.
#[derive(Clone, Copy)]
pub(crate) enum Unfit {
    /// The list does not have the actor, or `commands` does not take the words as a command that runs it.
    Usage,
    List(Refusal),
    NoMemory,
}

impl From<NoMemory> for Unfit {
    ghost from_gives = { λ _ e. e ≡ unfits.NoMemory };

    fn from(_e: NoMemory) -> Unfit {
        Unfit::NoMemory
    }
}
