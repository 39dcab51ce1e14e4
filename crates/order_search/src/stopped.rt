//! Why a search decided nothing.

use nop_types::NoMemory as OutOfMemory;

/// Why nothing was decided.
#[derive(Clone, Copy, PartialEq, Eq)]
pub enum Stopped {
    /// The steps that were left are spent.
    Spent,
    NoMemory,
}

impl From<OutOfMemory> for Stopped {
    ghost use Rattle.std.specs.Prelude.{◌≡◌};
    ghost use Rattle.order_search.specs.declared.stopped.Stopped.TheVariants.{NoMemory};

    ghost from_gives = { λ _ e. e ≡ NoMemory };

    fn from(_e: OutOfMemory) -> Stopped {
        Stopped::NoMemory
    }
}
