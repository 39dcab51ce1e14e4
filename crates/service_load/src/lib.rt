//! A load on a service: the ops of a pattern, submitted again and again through several client
//! numbers, and how long each took.
//!
//! The ops go through the client cores of a desk (`desk`), each of which has up to eight requests
//! open. A turn submits ops as long as a core has room, polls once each link at which an answer is
//! awaited, and sends the open requests of a core again that waited for long (`RETRY_MICROS`).
//! Times are those of the clock, which counts microseconds here.
//!
//! Proved, over any devices, whatever comes (`IsLoad`, `Reports` in `specs/Loads`): what was taken
//! are the first ops of the pattern, in order, each once and no others; and as many ops are
//! reported as answered as the desk answers. So the laws of `desk` hold: what is submitted for a
//! ticket is the ticket's op, and each is answered at most once, with a result that its core
//! accepted. A load that is open holds a link for each of its clients; where it could not be
//! opened, each link that was attached is given back, and PortFault comes exactly where an attach
//! failed. A call takes at most the turns that it may. No clause says which datagrams are sent,
//! when a request is sent again, when LinkFault comes, or what the times are.
//!
//! Calls: `Pattern::new`; `open_load`, `Loading::take_turns`, `close_load`; `Report` with `p50` and
//! `p99`.
//!
//! Files: `pattern`, `tally`, `load` (no devices); `resends`, `loading`, `report`, `errors`.
//! Definitions: `specs/Loads`, `Ranks`; of links, `attached_links/specs/Attaching`.
#![tactic(auto)]

mod errors;
mod load;
mod loading;
mod pattern;
mod report;
mod resends;
mod tally;

pub use errors::LoadError;
pub use loading::{Loading, close_load, open_load};
pub use pattern::Pattern;
pub use report::Report;
