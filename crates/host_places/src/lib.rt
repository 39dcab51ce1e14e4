//! Who is where by a list of hosts, in the form that `udp_ports` takes, and what a process needs of
//! its own to run an actor of it.
//!
//! Proved: the table of places has for each actor of the list its address, under the port that
//! nodes send to (`places_of`, in `specs/Tables`); an actor's address among those of the list
//! (`address_in`); whether a list has a place for each of so many clients, and their homes, in
//! order (`has_clients`, `homes_of`, in `specs/Clients`); and the line of a list that is refused
//! (`refusal_line`, in `specs/Refusals`). That a mark lasts, and that no two processes draw one
//! number, is tested and trusted.
//!
//! Calls: `places_of` and `address_in`; `has_clients` and `homes_of`; `refusal_line`; `own_of`, the
//! number that tells a process from others under the number of its actor; `is_marked`, which makes
//! the mark of an actor in a folder. Files: `tables`, `clients`, `refusals`, `own`. Definitions:
//! `specs/Tables`, `Clients`, `Refusals`.
#![tactic(auto)]

mod clients;
mod own;
mod refusals;
mod tables;

pub use clients::{has_clients, homes_of};
pub use own::{is_marked, own_of};
pub use refusals::refusal_line;
pub use tables::{HOSTS_BASE, address_in, places_of};
