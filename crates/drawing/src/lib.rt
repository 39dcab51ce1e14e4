//! Draws runs of any service: what a program does that reads a schedule and writes a picture as SVG.
//!
//! It steps the same `world` as the replay does, with a service and the words of its ops, and is
//! outside the theorem. What is proved: at Ok a picture was written up to its end, and nothing is
//! written where the schedule is bad or cannot be read; a fault is told exactly where its device
//! failed (`run`). Each error has its status and its line
//! (`status_of`, `complaint`). A row has the number of its line, its event's words and the actor
//! whose step it is, as the world has it (`AddsRow`, `shown_text`), all notes that were gathered for
//! it (`RowShows`), and the arrow of its delivery (`arrows_after`). Where memory ran out for a note,
//! an arrow or anything else that the recorder keeps, it has failed for good, and neither a row nor a
//! picture comes (`IsIntact`). That the record goes with the world's network, and the picture as a
//! whole, are tested (`checks/pictures.sh`, `checks/stories.sh`).
//!
//! Calls, for `spacetime` and `lock_spacetime`: `run_program`. `run` does the same over any
//! `Source` and `Sink`; `status_of` and `complaint` say what becomes of its errors.
//!
//! Files: `program`; `running` steps the world; `observing` tells `recorder` what a step shows, in
//! the words of `picture_labels`; `recorder` keeps it, and sees no world; `standing` (how replicas stand in
//! their views), `events`, `notes`; `error`, `status`. `specs/Errors`, `Rows`,
//! `Gathered`, `Words`.
#![tactic(auto)]

mod error;
mod events;
mod notes;
mod observing;
mod program;
mod recorder;
mod running;
mod standing;
mod status;

pub use error::DrawError;
pub use program::run_program;
pub use running::{complaint, run};
pub use status::{Status, status_of};
