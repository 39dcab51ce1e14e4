use nop_types::NoMemory as OutOfMemory;
use std::alloc::{AllocError, AllocFailed};

/// Why claims have no pairs: the first of them that is such, counted from 0.
#[derive(Clone, Copy, PartialEq, Eq)]
pub enum Unpaired {
    /// This claim submits a client and id that an earlier one submits.
    Repeated(usize),
    /// This claim accepts what no earlier one submits, or what an earlier one accepts.
    Groundless(usize),
    NoMemory,
}

impl From<OutOfMemory> for Unpaired {
    ghost use Rattle.std.specs.Prelude.{◌≡◌};
    ghost use Rattle.pairs.specs.declared.unpaired.Unpaired.TheVariants.{NoMemory};

    ghost from_gives = { λ _ e. e ≡ NoMemory };

    fn from(_e: OutOfMemory) -> Unpaired {
        Unpaired::NoMemory
    }
}

impl From<AllocError> for Unpaired {
    ghost use Rattle.std.specs.Prelude.{◌≡◌};
    ghost use Rattle.pairs.specs.declared.unpaired.Unpaired.TheVariants.{NoMemory};

    ghost from_gives = { λ _ e. e ≡ NoMemory };

    fn from(_e: AllocError) -> Unpaired {
        Unpaired::NoMemory
    }
}

impl<T: Drop> From<AllocFailed<T>> for Unpaired {
    ghost use Rattle.std.specs.Prelude.{◌≡◌};
    ghost use Rattle.pairs.specs.declared.unpaired.Unpaired.TheVariants.{NoMemory};

    ghost from_gives = { λ _ e. e ≡ NoMemory };

    fn from(_e: AllocFailed<T>) -> Unpaired {
        Unpaired::NoMemory
    }
}
