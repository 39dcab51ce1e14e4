//! Links that are attached in order, each with what its holder keeps with it, and given back.
//!
//! `attach_all` attaches a link at the port of each seat; `detach_all` gives all back, in order.
//! Between them `AttachedLink::send` and `poll` count the datagrams that could not be sent, and
//! `lost_of` adds these up.
//!
//! Proved, over any ports: at Ok there is a link for each seat, in order, at its port, on which no
//! call was made, with the seat's state; where ports are observable these are the next links
//! (`AllAttached`). `Failed` comes exactly where an attach failed. At Ok and at an error as many links
//! are held as were attached and not given back (`Holds`), and there is room to give these back
//! (`HasRoom`).
//!
//! Files: `attached`, `attaching`. Definitions: `specs/Attaching`.
#![tactic(auto)]

mod attached;
mod attaching;

pub use attached::{AttachedLink, Seat};
pub use attaching::{attach_all, detach_all, lost_of};
