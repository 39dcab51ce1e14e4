//! What a request of RESP 2 asks of the key-value service, and how its result is replied.
//!
//! | request | op | reply |
//! |---|---|---|
//! | `GET k`; `EXISTS k` | get | the value or nil; 1 or 0 |
//! | `SET k v`; `SET k v GET`, `GETSET k v` | put | `+OK`; the former value or nil |
//! | `DEL k`; `GETDEL k` | delete | 1 or 0; the former value or nil |
//! | `CAS k old new` | swap | 1 or 0 |
//! | `GETAT k` | none: a read of an observer | the value or nil |
//! | `INFO ..` | none | what is known of the cluster, as the caller says |
//! | `PING`, `PING text`, `ECHO text`, `SELECT 0`, `QUIT ..`, `CLIENT ..`, `COMMAND ..`, `CONFIG ..` | none | what clients of Redis expect |
//!
//! Commands and the option are words in letters of any case. All else is answered with an error, and nothing of it is done: other
//! commands, other numbers of arguments, other options, keys and values that no op may have, and puts that are answered `full`.
//!
//! Proved: `asked` gives what the table says (`asked` in `specs/Table`, one page), and `reply_to`
//! what that of results says (`specs/Results`). The bytes of each op that is asked for spell one,
//! and a key that is read may be that of one (`asked_ops_are_spelled`); the replies say what the
//! map of the service has and had (`gets_say_what_the_map_has` and the three laws after it).
//!
//! Calls: `asked`, then `reply_to` with its form.
//!
//! To read in this order: `demand`, `requests`, `results`, `laws`; then `specs/Table`, `Results`, `Laws`.
#![tactic(auto)]

mod demand;
mod laws;
mod requests;
mod results;

pub use demand::{Demand, Form};
pub use laws::{
    asked_ops_are_spelled, deletes_say_what_the_map_had, gets_say_what_the_map_has,
    puts_say_whether_they_are_done, swaps_say_whether_they_are_done,
};
pub use requests::asked;
pub use results::reply_to;
