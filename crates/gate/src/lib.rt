//! A gateway over its devices: links of the client cores, connections of users, and a clock.
//!
//! `serve` attaches a link for each client number at that client's port, and takes turns. In a turn
//! the cores whose time has come send their open requests and reads again, cores without a read ask
//! for those that wait, datagrams and events of users are taken, and requests are read, of each
//! user in turn; what the core (`gate_core`) gives is carried out at once, in order. A turn in
//! which nothing comes waits for users, where nothing came in the turns before it either.
//!
//! A request is sent again after the smoothed round trip and four times its deviation, as RFC 6298
//! has it, but after 5 ms at least and 200 ms at most, and after twice as long each time without an
//! answer (`retry`); so is a read of an observer. It is sent again at once where as many requests
//! were answered that were submitted later as are open, of all cores, and three at least: since the
//! service goes on, it was lost. Each core asks one observer, those of all cores are spread over
//! all. A read whose answer was from a state that is too old is asked for again after 10 ms; one
//! that is not answered for a second goes to another core, where there are several observers
//! (`readers`). Where the gateway has an observer's place of its own, it reads at a near observer
//! there, and asks no other one. Where nobody asked for anything for half a second, the gateway
//! asks for a value itself: so a service whose leader failed finds it out while nobody asks. In a
//! turn the link of the watch and those of cores that wait for an answer are polled, and of the
//! others one, each in its turn.
//!
//! A gateway with a place of an observer has a watch there, over one more link, behind those of the
//! cores; each turn is one of the watch, and so is each datagram that comes over its link. The
//! cores ask the other observers.
//!
//! Proved: over any devices what `serve` takes and does is a run of the core over some events, in
//! order (`Runs` in `specs/Carrying`):
//! - `serves`: among these events, those of users, the datagrams of each core and those of the
//!   watch are what the devices gave, each in its order, where they are observable. The trace of
//!   users holds the events that came, and the replies and closes that the core gives in its steps,
//!   in order and no others. So the laws of `gate_core` hold: replies are those to the requests
//!   that a user sent.
//! - The same clause: at an error it is a first part of that, with its cause: LinkFault where one
//!   poll of one link failed, UsersFault where the users failed as a whole; else no call failed.
//!   Where not all links were attached, nothing was done for users.
//! - `attaches`: PortFault exactly where an attach failed. `back`: as many links are given back as
//!   were attached; those over which the gateway ran, in the order of the cores.
//! - `RoundTrip::timeout`: 5 ms at least, 200 ms at most.
//!
//! No clause says which datagrams are sent, when a request is sent again, or how many turns were
//! taken.
//!
//! Calls: `serve`, at some `Seats`.
//!
//! Files: `serving`, `attaching`, `turn`, `datagrams`, `user_events`, `site`, `lines`, `readers`,
//! `retry`, `errors`.
//! Definitions: `specs/Sides`, `Carrying`, `Attaching`, `Serving`, `Faults`; of links,
//! `attached_links/specs/Attaching`.
#![tactic(auto)]

mod attaching;
mod datagrams;
mod errors;
mod lines;
mod readers;
mod retry;
mod serving;
mod site;
mod turn;
mod user_events;

pub use attaching::Seats;
pub use errors::GateError;
pub use retry::{RetryTimer, RoundTrip};
pub use serving::serve;
