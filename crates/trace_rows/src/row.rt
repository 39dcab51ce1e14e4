use nop_types::{Bytes, Key, Op, Tick};

/// A number behind the letter of a name: digits without leading zeros, however many.
#[derive(Clone, Copy, Debug, PartialEq, Eq)]
pub enum Number {
    Is(u64),
    /// More than 64 bits, which no actor's number has.
    Past,
}

/// An actor's name, as it is spelled: whether any configuration has the actor is not said.
#[derive(Clone, Copy, Debug, PartialEq, Eq)]
pub enum Name {
    Replica(Number),
    Sequencer(Number),
    Client(Number),
    /// `ctl` is controller 0, and the others are `ctl1`, `ctl2` and `ctl3`.
    Controller(u8),
    Observer(Number),
}

/// Where a datagram was sent.
#[derive(Clone, Copy, Debug, PartialEq, Eq)]
pub enum To {
    Replicas,
    Sequencers,
    One(Name),
}

/// What an actor took.
#[derive(Debug, Drop)]
pub enum Taken {
    /// A tick that a schedule has a word for.
    Tick(Tick),
    Packet(Bytes),
    Submit(Op),
    /// A client is to ask the observer with this number for a key.
    Read(Number, Key),
    /// A controller is to move to the sequencer with this number.
    Install(Number),
}

/// What an actor gave.
#[derive(Debug, Drop)]
pub enum Gave {
    Send(To, Bytes),
    /// The id of a request that a client began, and its op.
    Submit(u64, Op),
    /// The id of a request, and the result that its client accepted.
    Accept(u64, Bytes),
    /// The id of a read, the observer's number and the key.
    Read(u64, Number, Key),
    /// The id of a read, the observer's number, the position and the result.
    Answer(u64, Number, u32, Bytes),
}

/// A line of a trace behind the first one: whose it is, and what it took or gave.
#[derive(Debug, Drop)]
pub enum Row {
    In(Name, Taken),
    Out(Name, Gave),
}
