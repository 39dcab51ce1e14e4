ghost use Rattle.std.specs.Prelude.{◌≡◌, IfOk};

use nop_types::{Bytes, NoMemory};

/// What comes from users, each with the number of its connection. Numbers rise: one that was opened is above all that were before.
#[derive(Drop)]
pub enum UserEvent {
    /// A user connected.
    Opened { user: u64 },
    /// It sent these bytes, at most `MAX_EVENT_BYTES`.
    Sent { user: u64, bytes: Bytes },
    /// Its connection ended, or failed.
    Left { user: u64 },
}

/// What a call of `next` answers: an event, nothing, or that the device failed.
#[derive(Drop)]
pub enum UserAnswer {
    Came(UserEvent),
    Nothing,
    Failure,
}

/// A call on the connections: one that gave an event, a reply, or the close of a connection.
#[derive(Drop)]
pub enum UserCall {
    Came(UserEvent),
    Replied { user: u64, bytes: Bytes },
    Closed { user: u64 },
}

impl UserEvent {
    pub fn try_clone(&self) -> Result<UserEvent, NoMemory>
        ensures { IfOk result (λ e. e ≡ self.now) }
    {
        match self {
            UserEvent::Opened { user } => Ok(UserEvent::Opened { user: *user }),
            UserEvent::Sent { user, bytes } => Ok(UserEvent::Sent {
                user: *user,
                bytes: bytes.try_clone()?,
            }),
            UserEvent::Left { user } => Ok(UserEvent::Left { user: *user }),
        }
    }
}
