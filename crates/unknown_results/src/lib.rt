//! Results that nobody noted: a service that takes any answer where one is unknown, and what its orders say
//! of lines with all results filled in.
//!
//! `AnyResult` is a service over the ops of another one with a byte in front. Where this is 1 the answer has no
//! byte, whatever the op is answered; else it is that of the service. The op takes effect either way. So a
//! search of an order need not know of results that are unknown: it is asked for one of other lines
//! (`asked_line`), whose requests have the byte, and which accept no byte where the result is unknown.
//!
//! Proved: `AnyResult` is a `Host`, and `AnyResultOf` is `Parted` as its service is. A history that is legal for
//! what is asked is, without the bytes, legal for the lines with its own answers filled in
//! (`filled_orders_are_legal`); one that is legal for lines with any results is so for what is asked
//! (`asked_orders_are_legal`). So where what is asked has no order, no results give the lines one
//! (`none_whatever_results`).
//!
//! For `filled_orders`. Files: `any_result`, `laws`. Definitions: `specs/Asking`, `AnyResults`, `Filling`.
#![tactic(auto)]

mod any_result;
mod laws;

pub use any_result::{ANY, AnyResult, AnyResultOf};
pub use laws::{asked_orders_are_legal, filled_orders_are_legal, none_whatever_results};
