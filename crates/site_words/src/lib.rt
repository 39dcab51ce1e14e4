//! Where words say that a service is, for programs whose client cores are its clients; and what the
//! words of the gateway's program ask for.
//!
//! Three words name a service on this machine: the port of replica 0, how many replicas and how
//! many sequencers there are. A gateway has one of
//!
//!     LISTEN PORT REPLICAS SEQUENCERS [--observers M [--at K]] FIRST COUNT
//!     LISTEN LIST [--marks FOLDER] [--at K] FIRST COUNT
//!
//! LISTEN is the address for users, `IPV4:PORT` or `[IPV6]:PORT`. The service is on this machine,
//! at the ports from that of replica 0 on, or where the list of hosts in a file says. FIRST is the
//! first of COUNT numbers of clients, 1 to 16, so that each has a place of its own. M is how many
//! observers there are, 0 to 4, as nodes are told: 0 without the option. K is the observer at whose
//! place the gateway watches the service itself, if it does: below M, or one of the list of hosts,
//! which has the observers in it.
//!
//! Proved: words name the service that `service_of` says, and a word the number of a range that
//! `number_in` says (`specs/Services`); words ask for the task that `task_of` says (`specs/Tasks`).
//! No others do.
//!
//! Calls: `service_of`, `number_in`; `task_of`. Files: `services`; `task`, `ends`, `near_sites`,
//! `listed_sites`, `reading`.
#![tactic(auto)]

mod ends;
mod listed_sites;
mod near_sites;
mod reading;
mod services;
mod task;

pub use reading::task_of;
pub use services::{number_in, service_of};
pub use task::{MAX_NUMBERS, Numbers, Site, Task};
