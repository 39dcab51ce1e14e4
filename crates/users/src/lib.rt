//! Connections of users as a device: the trait `Users`, and its form in memory.
//!
//! A user is a connection with a number that is never used again; the numbers rise. `next` gives what came: a connection, bytes, or that one
//! ended. `reply` gives bytes to a user, in the order of the calls, and `close` ends a connection once all its replies are sent. The device
//! keeps what a connection does not take yet, so no call waits for a user.
//!
//! As of the devices of `outside`, contents are `Some` where contracts can see them, as in memory, and `None` where not, as those of
//! sockets. Contents are the answers to come, and one trace of the events that were given, the replies and the closes, in order. The count
//! of faults rises by one exactly where `next` failed.
//!
//! Calls: the trait; `UsersMem`, for tests.
//!
//! Files: `event`, `limits`, `users`, `users_mem`. Definitions: `specs/Events`, `Memory`.
#![tactic(auto)]

mod event;
mod limits;
mod users;
mod users_mem;

pub use event::{UserAnswer, UserCall, UserEvent};
pub use limits::MAX_EVENT_BYTES;
pub use users::Users;
pub use users_mem::UsersMem;
