//! A window on a running cluster: what is seen of it at the place of an observer, as lines.
//!
//! Leaders tell observers what is synchronised, in three messages: StartView, SyncPrepare and SyncCommit. Of such a message of the
//! leader of its view, joined of its fragments, a watch keeps the view, the length that it says is synchronised, and when it came
//! (`specs/Tellings`). It shows a view that is greater than the one before by a line of its own, and each second the state, where
//! something else is to be shown, or nothing came for a second (`specs/Watching`). Of a roll of nodes it also shows which answer
//! (`roll_call`), and a warning where the controller that gave out the session in use is silent.
//!
//! Proved: `Watch` is exactly its definition, whatever comes, and over any list of turns so is what was written, also where a device
//! fails (`WatchedBy`, in `specs/Turns`). Its laws: the length that is shown never falls, and is one that was told; the age counts from
//! when something was told last of the view that is shown; a change is told of exactly where the view rises; lines are read back as
//! what they show; and where lines are written over those before, a screen shows the last change, how nodes stand, the warning and the
//! last state, and nothing else.
//! That a length which a leader tells is synchronised is a fact of runs (`observer_laws`); here forged messages may come as well.
//!
//! Calls: `watch_cluster`, for programs; `Watch` with `hear`, `round` and `tick`, `ask` before a round, and
//! `put_last_lines`; `state_line` and `change_line`.
//!
//! Files: `telling` (messages), `seen` (what is kept of them), `watch`, `lines`, `turns`, `running`; `asked` and `status`,
//! of programs; `laws`. Definitions: `specs/Tellings`, `Watching`, `Lines`, `Screens`, `Turns`, `Laws`; `Asked`, `Statuses`.
#![tactic(auto)]

mod asked;
mod laws;
mod lines;
mod running;
mod seen;
mod status;
mod telling;
mod turns;
mod watch;

pub use asked::{Asked, asked_of};
pub use laws::{
    changes_are_read, changes_are_rises, lengths_never_fall, screens_show_the_last,
    states_are_read, what_is_known_was_told,
};
pub use lines::{Change, State, change_line, state_line};
pub use running::{WatchError, watch_cluster};
pub use status::{Status, status_of};
pub use telling::Telling;
pub use turns::{ask, put_last_lines};
pub use watch::Watch;
