//! The list of hosts of a cluster: a text that says where each actor is.
//!
//! A line is `cluster NUMBER`, which tells clusters apart, or `NAME ADDRESS`, with the name that an actor has in schedules and
//! `IPV4:PORT` or `[IPV6]:PORT`. What follows a `#` is a comment; lines without words are passed over.
//!
//! Proved: `read` gives the list that a text is, or the first line that breaks a rule and the first rule that it breaks there,
//! exactly as `list_of` says (`specs/Reading`); there is no other answer. In a list that is read no two actors have one address, and
//! no two lines one name (`addresses_are_apart`, `names_are_apart`); it says what its lines say, and nothing else
//! (`lists_say_what_lines_say`). Two lines next to each other may change places (`order_says_nothing`); so lines in any order give
//! one list, and one digest, which is computed from the list alone (`specs/Digests`). The words that are addresses are those of the
//! library's grammar (`addresses_are_of_the_grammar`).
//!
//! Calls: `read`; `HostList::cluster`, `config`, `address_of`, `actor_of`, `digest`; `Refusal` and `Rule::number`; `spelled_address`, for
//! addresses that stand elsewhere.
//!
//! To read in this order: `rule`, `list`, `words`, `places`, `addresses`, `entry`, `found`, `counts`, `reading`, `digest`, `laws`;
//! then `specs/Words`, `Addresses`, `Places`, `Reading`, `Lists`, `Digests`.
#![tactic(auto)]

mod addresses;
mod counts;
mod digest;
mod entry;
mod found;
mod laws;
mod list;
mod places;
mod reading;
mod rule;
mod words;

pub use addresses::spelled_address;
pub use laws::{
    addresses_are_apart, addresses_are_of_the_grammar, lists_say_what_lines_say, names_are_apart,
    order_says_nothing,
};
pub use list::HostList;
pub use places::PLACES;
pub use reading::read;
pub use rule::{Refusal, Rule};
