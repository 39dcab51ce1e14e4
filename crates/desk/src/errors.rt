ghost use Rattle.desk.specs.declared.errors.DeskError.TheVariants as errors;
ghost use Rattle.std.specs.Prelude.{◌≡◌};

use nop_types::NoMemory;

/// Why an op got no ticket.
#[derive(Clone, Copy, Debug, PartialEq, Eq)]
pub enum DeskError {
    /// As many ops wait as may.
    Full,
    /// Memory ran out.
    NoMemory,
}

impl From<NoMemory> for DeskError {
    ghost from_gives = { λ _ e. e ≡ errors.NoMemory };

    fn from(_e: NoMemory) -> DeskError {
        DeskError::NoMemory
    }
}
