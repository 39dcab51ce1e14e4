use nop_types::Actor;

/// What happened to an actor in a step, where it shows.
#[derive(Clone, Copy)]
pub enum Mark {
    /// A client began with a request.
    Submitted,
    /// A client took a result.
    Accepted,
    /// A client had eight open requests, or an actor had crashed.
    Refused,
    /// A sequencer stamped a request.
    Stamped,
    /// A controller orders a session, or a sequencer confirms one.
    Session,
    /// A request is in a slot of a replica's log.
    Logged,
    /// A NO-OP is in a slot of a replica's log.
    NoOp,
    /// A replica took a checkpoint in place of the slots up to it.
    Checkpoint,
    /// A replica entered a view and waits for its start.
    Entered,
    /// A replica takes part in a new view.
    Started,
    /// A replica's sync point moved.
    Synced,
    Crashed,
    /// Something was sent, and nothing else shows.
    Acted,
    /// Nothing shows.
    Idle,
}

impl Mark {
    pub fn is(self, other: Mark) -> bool {
        self as u8 == other as u8
    }
}

/// A mark with its label.
#[derive(Drop)]
pub struct Note {
    pub mark: Mark,
    pub text: String,
}

/// One event: the number of its line in the schedule, the actor whose step it is, its words, what was delivered or
/// submitted, and what happened, at least one note.
#[derive(Drop)]
pub struct Row {
    pub line: u32,
    pub actor: Actor,
    pub event: String,
    pub detail: String,
    pub notes: Vec<Note>,
}

/// What a datagram is for.
#[derive(Clone, Copy)]
pub enum Purpose {
    /// A request, stamped or not.
    Request,
    Reply,
    /// A part of a message between replicas.
    Peer,
    /// Installing and pinging sequencers.
    Session,
}

impl Purpose {
    pub fn is(self, other: Purpose) -> bool {
        self as u8 == other as u8
    }
}

/// A datagram that was delivered: from the actor and the row that sent it to those that took it, and whether that actor had
/// taken it before. Rows count from 0.
#[derive(Clone, Copy)]
pub struct Arrow {
    pub purpose: Purpose,
    pub again: bool,
    pub from: Actor,
    pub sent: usize,
    pub to: Actor,
    pub taken: usize,
}

/// Datagrams of one row that an actor never got, with their label.
#[derive(Drop)]
pub struct Loss {
    pub purpose: Purpose,
    pub from: Actor,
    pub sent: usize,
    pub to: Actor,
    pub text: String,
}

/// How a replica stands in its view.
#[derive(Clone, Copy)]
pub enum Role {
    Follows,
    Leads,
    /// The view has not started at this replica.
    Waits,
}

impl Role {
    pub fn is(self, other: Role) -> bool {
        self as u8 == other as u8
    }
}

/// A stretch of an actor's lane, from a row or the top to a row or the bottom.
#[derive(Clone, Copy)]
pub struct Stretch {
    pub actor: Actor,
    pub role: Role,
    pub from: Option<usize>,
    pub to: Option<usize>,
}

/// A run as a picture. Lanes stand in their order from left to right.
#[derive(Drop)]
pub struct Picture {
    pub lanes: Vec<Actor>,
    pub rows: Vec<Row>,
    pub arrows: Vec<Arrow>,
    pub losses: Vec<Loss>,
    pub stretches: Vec<Stretch>,
}
