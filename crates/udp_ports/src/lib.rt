//! The network and the clock of the operating system: UDP sockets at ports of the loopback address as the devices `Ports` and
//! `Link` of `outside`, and the monotonic clock as its `Clock`. `main` makes them and hands them to `commands::run`.
//!
//! Links acknowledge the parts of long messages, and send those again that are lost (`resending`). A socket's receive buffer holds some
//! 90 fragments, and a message with a checkpoint and a log has up to 3,310: so a link sends only the first ones to each port at once, and
//! the others by and by, while it is polled, as the link of that port names those that it took. Messages of one fragment and all other
//! datagrams never wait. A poll has the memory for a datagram before it receives one.
//!
//! With a table of places (`UdpPorts::at_hosts`) actors are on several machines: a port is then only the name of an actor. A link is
//! bound to the address of its own one, and sends to that of a port's. What comes from an address that is in no place is dropped, and
//! so is what the actor there may not send (`comes_from`). Before it is attached, a process asks the others whether it may have
//! its number, and links answer such greetings (`admission`). A link may also only listen at a place (`Home`, without `claims`): such a
//! one asks nobody and answers no greeting, but hears those that come, so who polls it may ask others whether they are there.
//!
//! Proved: the contracts of the traits, so that counts of faults and losses rise exactly where they have to. `is_part` tells which
//! datagrams are parts (that those are the fragments of messages that have several, is a law of `oum_codec`, `parts_are_told`). Each
//! call does what its definition says: how a part goes that is to be sent (`Goes`), what goes in a turn, and again (`IsTurn`), what an
//! acknowledgement takes out of flight (`HeedsAck`), and what is noted of a part that came (`recorded`); ports of other lanes are left as
//! they are. How many parts are in flight to a port at most, and wait for it, `resending` says. A poll that has nothing owes no
//! acknowledgement then (`all_settled`), and gives none to the node, nor what is not heard (`IsHeard`, `specs/Places`). A guard goes on
//! by times and greetings as `admission` says, from its start and in each poll (`Ran`, `GoesOn`); a link is attached at a place only
//! where the process was admitted so, by the answers of all that count or of most of them (`IsAdmitted`), and without a guard exactly
//! where there are no places, or it only listens there (`MayAttach`). What follows for two processes
//! under one number, and for what a link noted, say the laws `admitted_guards_are_one` and `links_keep_numbers`. The clock never falls,
//! and where a reading fails it answers the last value (`later`). The contracts of std don't say what a socket carries or what a clock
//! shows. So it is only tested that datagrams are sent and arrive whole, at the loopback address alone or at that of a place, how long
//! a poll takes, and that the clock counts milliseconds.
//!
//! For others: `UdpPorts::new`, or `UdpPorts::at_hosts` with `Home` and `Place`; `UdpPorts::without_waits`,
//! and the descriptors of links, for who waits for several devices at once; `SystemClock::new`, `is_part`, and the methods of the traits. Files, in reading
//! order: `system_clock`; `places`; `socket`; `parts`; `flows`, the parts to all ports; `guard`, `laws`; `link`; `ports`.
//! Definitions: `specs/Turns`, `Places`, `Guards`, `Silence`. Tests are in `socket_tests`.
#![tactic(auto)]

mod flows;
mod guard;
mod laws;
mod link;
mod parts;
mod places;
mod ports;
mod socket;
mod system_clock;

pub use guard::Home;
pub use laws::{admitted_guards_are_one, links_keep_numbers};
pub use link::UdpLink;
pub use parts::is_part;
pub use places::Place;
pub use ports::UdpPorts;
pub use system_clock::SystemClock;
