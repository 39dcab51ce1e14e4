//! Schedules as text: their reader, and the line of an event.
//!
//! `Reader::next` answers the event of the next line, the first rule that it breaks, or that there
//! is none, however the source cuts its bytes: for an observable source of its bytes (clause
//! `takes`), for any other of some bytes behind those that were left over (`reads`). A line that
//! breaks a rule is not taken, and is refused again; after a fault or NoMemory nothing that was
//! taken is lost. A read that failed is always told: the source's count of faults rises by one at
//! ReadFault, and stays at every other answer (`count`); it is read only while no further line is
//! decided. What is read is in its ranges (laws `read_events_fit`, `read_headers_fit`,
//! `read_junk_fits`).
//!
//! `event_line` appends the line of an event, and nothing on an error; in each configuration that
//! has the actors of the event and takes its tick, this line means the event (clause `means`).
//!
//! Line 1 is a header of one of three forms: without a count of controllers, which means one, with
//! it, or with it and a count of observers. `Reader::form` is the number of its form.
//!
//! Calls: `Reader::new`, `open` (line 1), `next`, `has_line` (whether `next` will leave the source
//! as it is), `config`, `form`, `line`; `Event`; `Rule::number`; `event_line`; `takes_tick`, which
//! ticks a schedule may give; `tick_named`, `tick_word`.
//!
//! Where a line ends, and when it is decided, is said in `line_reader`, which cuts them.
//!
//! Files: `event`, `reader`, `rules`, `words`; `event_text`, `ticks`. Definitions:
//! `specs/Cutting` (`lines_of`), `Rules` (`header_of`, `event_of`), `Reading` (`TakesOf`),
//! `EventText` (`Means`), `Ticks`.
#![tactic(auto)]

mod event;
mod event_text;
mod laws;
mod line_error;
mod next_error;
mod reader;
mod rule;
mod rules;
mod split;
mod ticks;
mod words;

pub use event::Event;
pub use event_text::event_line;
pub use laws::{read_events_fit, read_headers_fit, read_junk_fits};
pub use next_error::NextError;
pub use reader::Reader;
pub use rule::Rule;
pub use ticks::{takes_tick, tick_named, tick_word};
