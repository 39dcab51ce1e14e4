use nop_types::NoMemory as OutOfMemory;

/// Why bytes are no datagram: the first of these tests that they fail. Four bytes are there, the first two are N and O, the
/// version is 3, the kind is 1 to 10, all fields of a fixed size are there, all of them are in range, the counted bytes or
/// the least payload are there, nothing follows.
#[derive(Clone, Copy, Debug, PartialEq, Eq)]
pub enum Bad {
    /// Bytes are missing.
    Short,
    Magic,
    Version,
    Kind,
    /// A field is out of its range.
    Field,
    /// Bytes follow the last field, or the payload is too long.
    Trailing,
    NoMemory,
}

impl From<OutOfMemory> for Bad {
    ghost use Rattle.std.specs.Prelude.{◌≡◌};
    ghost use Rattle.oum_codec.specs.declared.bad.Bad.TheVariants.{NoMemory};

    ghost from_gives = { λ _ e. e ≡ NoMemory };

    fn from(_e: OutOfMemory) -> Bad {
        Bad::NoMemory
    }
}
