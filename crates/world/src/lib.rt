//! All actors, the network, and the archive of what moved out of logs. One event is one step of one
//! actor.
//!
//! `World::step` carries out `step` of the definition: at Ok world and lines are those of it, and
//! an event that it refuses is refused so, and changes nothing. After NoMemory each later step
//! gives that answer again. `World::step_outs` does the same, and gives what the event's actor gave in
//! place of the text of its lines. In each world that events lead to, an event is refused exactly where a
//! cause holds, by the first that does (`refuses_by_first_cause`). An event of a crashed actor that
//! is not refused changes nothing and gives one line (`crashed_actors_take_no_step`), and malformed
//! bytes change nothing (`junk_changes_nothing`).
//!
//! The other calls read what the definition of their name reads: `config`, `sent`, `sent_to`,
//! `sent_count`, `replica`, `observer`, `entry`, `crashed`, `timer`, `history`, `main_view`, `main_log`,
//! `replica_lines`, `observer_lines`. `actor_of` is the actor whose step an event is. `final_lines` appends the lines at the end of a transcript, or nothing on an
//! error. `find` is the first index of a datagram with the given bytes. `takes(client)`:
//! whether a submit would be accepted: the client exists, is up, has room for one more open request,
//! and an id is left. `with_index` is `new` with an index for `find`.
//!
//! Files: `world_state`, `actors`, `stimulus` (what an event delivers, and to whom), `seat` (any
//! core, and whether it crashed), `archive`, `main_log`, `history`, `state_lines`, `ending`. Definitions:
//! `specs/WorldSteps` (`WorldState`, `step`, `run`, `history`), `Others` (sequencers, clients and controllers), `Archive`,
//! `Refusals`.
#![tactic(auto)]

mod actors;
mod archive;
mod ending;
mod history;
mod laws;
mod main_log;
mod seat;
mod state_lines;
mod step_error;
mod stimulus;
mod world_state;

pub use ending::final_lines;
pub use laws::{crashed_actors_take_no_step, junk_changes_nothing, refuses_by_first_cause};
pub use main_log::LogParts;
pub use network::Lines;
pub use step_error::StepError;
pub use stimulus::actor_of;
pub use world_state::World;
