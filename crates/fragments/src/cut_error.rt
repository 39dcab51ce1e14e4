use nop_types::NoMemory as OutOfMemory;

/// Why a message was not cut.
#[derive(Clone, Copy, Debug, PartialEq, Eq)]
pub enum CutError {
    /// It has no bytes, or needs more than `MAX_FRAGMENTS` fragments.
    Size,
    NoMemory,
}

impl From<OutOfMemory> for CutError {
    ghost use Rattle.std.specs.Prelude.{◌≡◌};
    ghost use Rattle.fragments.specs.declared.cut_error.CutError.TheVariants.{NoMemory};

    ghost from_gives = { λ _ e. e ≡ NoMemory };

    fn from(_e: OutOfMemory) -> CutError {
        CutError::NoMemory
    }
}
