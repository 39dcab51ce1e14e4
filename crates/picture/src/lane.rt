//! The lanes of a picture.

ghost use Rattle.std.specs.Prelude.{◌≡◌, ◌↔◌, IsTrue};
ghost use Rattle.picture.specs.Actors.{same};
ghost use Rattle.picture.specs.Lanes.{lane_of};

use nop_types::Actor;

/// A lane: its actor and the middle of its line.
#[derive(Clone, Copy)]
pub struct Lane {
    pub actor: Actor,
    pub x: u32,
}

/// Whether two actors are the same.
pub fn same(a: Actor, b: Actor) -> bool
    ensures value { result ≡ same a b }
    ensures equal { IsTrue result ↔ (a ≡ b) }
{
    match (a, b) {
        (Actor::Replica(i), Actor::Replica(j)) => i == j,
        (Actor::Sequencer(i), Actor::Sequencer(j)) => i == j,
        (Actor::Client(i), Actor::Client(j)) => i == j,
        (Actor::Controller(i), Actor::Controller(j)) => i == j,
        (Actor::Observer(i), Actor::Observer(j)) => i == j,
        _ => false,
    }
}

/// The middle of an actor's lane, 0 where it has none.
pub fn lane_of(lanes: &[Lane], actor: Actor) -> u32
    ensures { result ≡ lane_of lanes.now actor }
{
    for lane in lanes {
        if same(lane.actor, actor) {
            return lane.x;
        }
    }
    0
}
