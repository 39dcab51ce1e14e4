//! How the parts of long messages go to ports: which of them are sent when, which are acknowledged, and which are sent again. There is no
//! socket here and no clock: calls take times, in microseconds, and say what is to be sent (`udp_ports` sends it).
//!
//! A `Flow` has the parts that go to a port: those that wait, and those in flight, which were sent and not acknowledged. As many are in
//! flight as the port's buffer takes, and as are on the way. Each is sent again when its time is over, which follows the round trip
//! (`RoundTrip`, RFC 6298). `Receipts` are what came, and what is to be acknowledged. `Repeats` is the last request for a view change,
//! which a replica's link repeats.
//!
//! Proved: each call does what its definition says, exactly (`specs/Sending`, `Flights`, `Topics`, `RoundTrips`, `Receiving`, `Repeating`).
//! So at most `MOST_IN_FLIGHT` parts are in flight to a port, and `MOST_WAITING` wait; one goes only where there is room (`has_room`); what
//! an acknowledgement names is in flight no more, and is not sent again (`acknowledged_is_gone`); what it does not name stays
//! (`others_stay`); a part goes again only when its time is over (`is_due`); and a part that waits is forgotten only where all that is on
//! its way is given up, for a message of another view or a port that is silent (`made_way`, `turn_begun`). An acknowledgement has one
//! spelling of 27 bytes, which is read back (`spelled_is_read`).
//!
//! Calls: `Flow::new`, `admit`, `advance`, `begin_turn`, `resend`, `acknowledge`, `set_time`, `is_at_rest`, `is_pressing`, `waiting` and
//! `flight`; `Receipts::new`, `record` and `take`; `Ack::read` and `to_bytes`; `Repeats::new`, `note`, `is_due`, `request` and `ports`;
//! `name_of`, `lane_of`, `is_request`.
//!
//! Files, in reading order: `names`, `acks`, `lanes`, `round_trip`, `topics`, `backlog`, `flight`, `flow`, `receipts`, `repeats`, `laws`;
//! definitions beside them in `specs/`. Tests of its public calls are in `socket_tests`.
#![tactic(auto)]

mod acks;
mod backlog;
mod flight;
mod flow;
mod lanes;
mod laws;
mod names;
mod receipts;
mod repeats;
mod round_trip;
mod topics;

pub use acks::{ACK_BYTES, Ack, NAMED};
pub use backlog::{Backlog, MOST_WAITING, Part};
pub use flight::{Flight, MOST_IN_FLIGHT, MOST_WINDOW, Sending, Sent};
pub use flow::{FIRST_WINDOW, Flow, MOST_AT_ONCE, SILENCE_MICROS};
pub use lanes::{LANES, lane_of};
pub use laws::{acknowledged_is_gone, others_stay, spelled_is_read};
pub use names::{Name, Topic, name_of, topic_of};
pub use receipts::{ACK_EVERY, Answer, Receipt, Receipts};
pub use repeats::{MOST_PORTS, REPEAT_MICROS, Repeats, is_request};
pub use round_trip::RoundTrip;
pub use topics::{Begun, Choice, Topics};
