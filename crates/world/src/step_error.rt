use nop_types::NoMemory as OutOfMemory;

/// Why an event was not carried out. One that is refused changes nothing; where several causes hold, the first of them is
/// told. `NoMemory` is no refusal: the world has failed then, and each later step answers it too.
#[derive(Clone, Copy, PartialEq, Eq)]
pub enum StepError {
    /// The actor is not of the configuration, or has no such input.
    NoSuchActor,
    /// No datagram with this index was sent yet.
    NoSuchDatagram { index: u64, sent: u64 },
    /// The junk spells a datagram.
    Forged,
    NoMemory,
}

impl From<OutOfMemory> for StepError {
    ghost use Rattle.std.specs.Prelude.{◌≡◌};
    ghost use Rattle.world.specs.declared.step_error.StepError.TheVariants.{NoMemory};

    ghost from_gives = { λ _ e. e ≡ NoMemory };

    fn from(_e: OutOfMemory) -> StepError {
        StepError::NoMemory
    }
}
