//! Requests and replies of RESP 2, the protocol that clients of Redis speak: bytes alone, no sockets.
//!
//! A request is an array of byte strings, `*2\r\n$3\r\nGET\r\n$1\r\nk\r\n`: its arguments, the first of which names a command. There
//! are at most `MAX_ARGUMENTS`, of at most `MAX_ARGUMENT_BYTES` bytes each. Numbers are in decimal without leading zeros; there is no
//! other form, so each request has one spelling.
//!
//! Proved: `parse` answers Complete, with the arguments and how many bytes they are, exactly where the bytes begin with a request;
//! Incomplete exactly where they are a request but for some bytes at its end; and else Broken, and then no request comes, whatever
//! follows (`Means` in `specs/Parsed`, over the spelling in `specs/Spelling`). What is read step by step, with the fault that is met
//! first, is `read_request` (`specs/Reading`); the laws say that this is the same. No request has more than `MAX_REQUEST_BYTES`
//! bytes, and what is Incomplete has fewer (`requests_are_limited`). `put_reply` appends the bytes of a reply (`specs/Replies`).
//!
//! Calls: `parse`, `put_reply`.
//!
//! To read in this order: `limits`, `parsed`, `reading`, `requests`, `replies`, `laws`; then `specs/Spelling`, `Reading`, `Parsed`,
//! `Replies`.
#![tactic(auto)]

mod laws;
mod limits;
mod parsed;
mod reading;
mod replies;
mod requests;

pub use laws::{
    fronts_are_too_few, read_requests_are_spelled, requests_are_limited, spelled_requests_are_read,
};
pub use limits::{MAX_ARGUMENT_BYTES, MAX_ARGUMENTS, MAX_REQUEST_BYTES};
pub use parsed::{Fault, Parsed, Request, Stop};
pub use replies::{Reply, put_reply};
pub use requests::parse;
