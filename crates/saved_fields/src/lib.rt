//! Values as bytes, for the ops, the answers and the saved states of a service: numbers, short
//! texts, and lists of any kind of value.
//!
//! A number has eight bytes, the highest first (`number_bytes`, `number_at`); a text its length
//! in a byte and its bytes (`text_bytes`, `text_at`); a list its length as a number and its
//! elements (`list_bytes`, `list_at`), of which there are at most so many. A reader gives the
//! value with which bytes begin, and what follows it. A state that is read `whole` is one that
//! nothing follows.
//!
//! Laws, over all lists of numbers, so also where they are above 255, which code never meets and
//! the laws of a `Host` speak of: each is a field (`IsField`), so a value that fits is read as it
//! is spelled, whatever follows, and what is read fits and is what the bytes spell. Numbers and
//! texts are (`numbers_are_a_field`, `texts_are_a_field`), and lists of what is one
//! (`lists_are_a_field`). For the laws of a service: `whole_saved` and `whole_only`, from any
//! field, are `loads_saved` and `loads_only` (`specs/Reading`); `list_short`, the most bytes of a
//! list, is `saves_short`; and `list_is_bytes` (`specs/ListReading`).
//!
//! Calls: `put_number`, `number`; `put_text`, `text`; `put_list`, `list`, of what implements
//! `Field`, as numbers do; `whole`. `counter_host` is the smallest service that has them;
//! `kv_host` and `lock_host` have their own, from before.
//!
//! Files: `field`, `number_field`, `text_field`, `saved_list`, `saved_whole`, `laws`;
//! `specs/Fields`, `Numbers`, `Texts`, `Lists`, and the proofs of the laws, `specs/Reading`,
//! `ListReading`.
#![tactic(auto)]

mod field;
mod laws;
mod number_field;
mod saved_list;
mod saved_whole;
mod text_field;

pub use field::Field;
pub use laws::{lists_are_a_field, numbers_are_a_field, texts_are_a_field};
pub use number_field::{number, put_number};
pub use saved_list::{list, put_list};
pub use saved_whole::whole;
pub use text_field::{put_text, text};
