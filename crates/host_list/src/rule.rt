ghost use Rattle.std.specs.Prelude.{◌≡◌};
ghost use Rattle.host_list.specs.Reading.{rule_number};

/// What a list of hosts has to keep to. A line is refused by the first rule that it breaks.
#[derive(Clone, Copy, Debug, PartialEq, Eq)]
pub enum Rule {
    /// A line has two words, or none.
    WrongWords,
    /// The first one is `cluster`, or the name of an actor.
    WrongName,
    /// The number of a cluster is one of 64 bits, in decimal.
    WrongNumber,
    /// The address of an actor is `IPV4:PORT` or `[IPV6]:PORT`, and no port or address is zero.
    WrongAddress,
    /// Each name stands on one line at most, `cluster` too.
    NameTwice,
    /// Each address is that of one actor at most.
    AddressTwice,
    /// Of the whole text: there is a cluster number.
    NoCluster,
    /// Replicas, sequencers, controllers and observers are numbered from 0 without a hole.
    Hole,
    /// There are 1, 3, 5 or 7 replicas, at least one sequencer, one controller and one place of clients.
    WrongCount,
}

impl Rule {
    /// The number that an error line has.
    pub fn number(self) -> u8
        ensures { result ≡ rule_number self }
    {
        match self {
            Rule::WrongWords => 1,
            Rule::WrongName => 2,
            Rule::WrongNumber => 3,
            Rule::WrongAddress => 4,
            Rule::NameTwice => 5,
            Rule::AddressTwice => 6,
            Rule::NoCluster => 7,
            Rule::Hole => 8,
            Rule::WrongCount => 9,
        }
    }
}

/// The first rule that a text breaks, and the line, counted from 1, that breaks it: of rules 7 to 9 the last one, which may be empty.
#[derive(Clone, Copy, Debug, PartialEq, Eq)]
pub struct Refusal {
    pub line: usize,
    pub rule: Rule,
}
