//! The observer core, over any host: a service as far as it is synchronised, and read.
//!
//! An observer hears what leaders tell at synchronisation, in fragments. A SyncPrepare brings a log,
//! which becomes the candidate where it is better than the one before: of a greater view, or of the same
//! and longer. A checkpoint in it is taken where it is further than the position. A SyncCommit of the
//! candidate's view has the slots up to its length executed, and the position rise to there. A Read is
//! answered by the state at the position, to the client that it names, and changes nothing. Nothing is
//! ever undone, and nothing else is sent.
//!
//! The rows are `specs/Observing`, over whole and trimmed logs: the state is a log that ends with its
//! sync point, which is the position, and a candidate. The code keeps a host and a client table in place
//! of that log; the log that they stand for is that of the checkpoint which they are saved as
//! (`specs/Known`, `observing_of`). `Observer` meets `Core` with the step table `next`, from `opening`
//! on, whatever comes, forged datagrams too. A log whose checkpoint doesn't load changes nothing. No
//! position falls, by a message (`positions_rise`) or a step (`positions_never_fall`). Who has the
//! observer in its own process asks it by `answer_of`, without datagrams: the result is the one that a
//! Read of this key is answered.
//!
//! What the messages mean, and that the answers are those of the one history, is in `observer_laws` and
//! `safety`.
//!
//! Calls: `Observer::new`, `step` by the trait, `position`, `answer_of`.
//!
//! Files: `told`, `entering` (entries and checkpoints executed), `synced`, `asking` (the op for a key),
//! `observer`, `laws`. Definitions: `specs/ObserverSteps` (`next`), `Hearing`, `Observing`, `Known`; the op is
//! `get_of` of `nop_types`.
#![tactic(auto)]

mod asking;
mod entering;
mod laws;
mod observer;
mod synced;
mod told;

pub use laws::{positions_never_fall, positions_rise};
pub use observer::Observer;
