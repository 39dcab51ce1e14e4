ghost use Rattle.std.specs.Prelude.{◌≡◌};
ghost use Rattle.schedule_text.specs.Rules.{rule_number};

/// A rule of a schedule's lines. `LineTooLong` to `WrongActor` and `TooManyLines` are tested as a
/// line is read, the last one first. When the event is carried out, `WrongActor` is tested again,
/// and then `NoSuchDatagram` and `Forged`.
#[derive(Clone, Copy, PartialEq, Eq)]
pub enum Rule {
    /// More than 4,096 bytes.
    LineTooLong,
    /// A byte that is no printable character of ASCII.
    WrongByte,
    /// The first field is no word of a line in this place.
    WrongWord,
    WrongFieldCount,
    /// A field of the header, an index, the length of an op, of junk or of a key, or a key without
    /// bytes.
    WrongField,
    /// An op, junk or a key is empty, odd or has another character.
    WrongHex,
    /// The actor is not there, or takes no such word or tick.
    WrongActor,
    /// No datagram with this index was sent.
    NoSuchDatagram,
    /// Junk spells a datagram.
    Forged,
    /// More than 1,000,000 lines.
    TooManyLines,
}

impl Rule {
    /// The number that an error line has for it.
    pub fn number(self) -> u8
        ensures { result ≡ rule_number self }
    {
        match self {
            Rule::LineTooLong => 1,
            Rule::WrongByte => 2,
            Rule::WrongWord => 3,
            Rule::WrongFieldCount => 4,
            Rule::WrongField => 5,
            Rule::WrongHex => 6,
            Rule::WrongActor => 7,
            Rule::NoSuchDatagram => 8,
            Rule::Forged => 9,
            Rule::TooManyLines => 10,
        }
    }
}
