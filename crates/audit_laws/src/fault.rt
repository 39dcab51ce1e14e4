ghost use Rattle.std.specs.Prelude.{◌≡◌};
ghost use Rattle.audit_laws.specs.Audits.{fault_number};

/// Why a line of a trace is refused.
#[derive(Clone, Copy, PartialEq, Eq)]
pub enum Fault {
    /// It is no line of a trace, or one more than there may be.
    Misspelled,
    /// Its actor is not of the configuration, or does not take this input.
    Misplaced,
    /// It takes a datagram that no step before it sent.
    Unsent,
    /// It is not the next output of the step, or an output is missing before it.
    Unlike,
}

impl Fault {
    /// Its number, as the answer of an audit has it.
    pub fn number(self) -> u8
        ensures { result ≡ fault_number self }
    {
        match self {
            Fault::Misspelled => 1,
            Fault::Misplaced => 2,
            Fault::Unsent => 3,
            Fault::Unlike => 4,
        }
    }
}
