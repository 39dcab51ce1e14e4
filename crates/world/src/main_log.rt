ghost use Rattle.std.specs.Prelude.{◌≡◌, ◌≤◌, map, slice_get, take, length};
ghost use Rattle.world.specs.Actors.{world_of};
ghost use Rattle.world.specs.Parts.{parts_of};
ghost use Rattle.world.specs.SeatOutcomes.{seated_of};
ghost use Rattle.world.specs.WorldSteps.{greatest_view, greatest_of, log_of, main_view, main_log};

use crate::actors::Actors;
use crate::seat::{Seat, seat_at};
use nop_types::{Entry, Host, View, greater, leader_of};
use replica_core::Replica;

fn greatest_after<H: Host>(first: View, seats: &[Seat<Replica<H>>]) -> View
    ensures { result ≡ greatest_view first
        (map (λ p. p.core.state.state.last_normal) seats.now) }
{
    let mut view = first;
    for seat in seats {
        view = greater(view, seat.core.last_normal());
    }
    view
}

/// The greatest last normal view among the replicas.
fn greatest_last_normal<H: Host>(seats: &[Seat<Replica<H>>]) -> View
    ensures { result ≡ greatest_of (map (λ p. p.core.state.state.last_normal) seats.now) }
{
    match seats {
        [first, rest @ ..] => greatest_after(first.core.last_normal(), rest),
        [] => View {
            leader: 0,
            session: 1,
        },
    }
}

/// The greatest last normal view among all replicas.
pub fn main_view<H: Host>(actors: &Actors<H>) -> View
    ensures { result ≡ main_view (world_of actors.now) }
{
    greatest_last_normal(&actors.replicas)
}

/// A log in two parts: what is synchronised, from the archive, and what the replica keeps above.
#[derive(Clone, Copy)]
pub struct LogParts<'a> {
    pub synchronised: &'a [Entry],
    pub kept: &'a [Entry],
}

/// The first entries, all where there are fewer.
pub fn prefix(entries: &[Entry], count: u32) -> &[Entry]
    ensures prefix { result.now ≡ take count entries.now }
    ensures count { length result.now ≤ count }
{
    let count = (count as usize).min(entries.len());
    &entries[..count]
}

/// The log of a replica, empty where there is none.
pub fn log_at<'a, H: Host>(
    archive: &'a [Entry],
    seats: &'a [Seat<Replica<H>>],
    i: u8,
) -> LogParts<'a>
    ensures { parts_of result
        ≡ log_of archive.now (slice_get (map (seated_of (λ r. r.state)) seats.now) i) }
{
    match seat_at(seats, i as usize) {
        Some(seat) => {
            let log = seat.core.log();
            LogParts {
                synchronised: prefix(archive, log.sync_point()),
                kept: log.entries(),
            }
        }
        None => LogParts {
            synchronised: &[],
            kept: &[],
        },
    }
}

/// The log of the leader of the greatest last normal view.
#[tactic(auto, unfolding(crate::specs::WorldSteps::main_view, crate::specs::WorldSteps::main_log))]
pub fn main_log<H: Host>(actors: &Actors<H>) -> LogParts<'_>
    ensures { parts_of result ≡ main_log (world_of actors.now) }
{
    let view = greatest_last_normal(&actors.replicas);
    let leader = leader_of(view, actors.config.replicas());
    log_at(actors.archive.entries(), &actors.replicas, leader)
}
