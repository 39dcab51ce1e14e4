ghost use Rattle.std.specs.Prelude.{◌≡◌, IfOk, IfErr, false};
ghost use Rattle.world.specs.WorldSteps.{run};
ghost use Rattle.safety.specs.Following.{RunsFollowWhole};
ghost use Rattle.safety.specs.Observers.{ObserversReadTheHistory};
ghost use Rattle.safety.specs.Safe.{RunsAreSafe, LeadTo, IsRefusedBy};

use nop_types::{Config, Host};
use schedule_text::Event;
use std::alloc::Global;
use world::{StepError, World};

/// The world that the events lead to, one after the other, from the opening. In it replicas agree as far as they are
/// synchronised, what clients accepted is of the one history, and all that was stamped, logged and replied is sound. It has
/// not failed. Else the refusal of the first event that is refused.
pub fn run_events<H: Host>(
    alloc: Global,
    config: Config,
    events: &[Event],
) -> Result<World<H>, StepError>
    ensures ok { IfOk result (λ w. LeadTo H.meaning config events.now w.state) }
    ensures well { IfOk result (λ w. w.failed ≡ false) }
    ensures err { IfErr result (λ e. IsRefusedBy e (run H.meaning config events.now)) }
{
    // for the limits of a configuration
    let _ = config.replicas();
    let mut world = World::new(alloc, config)?;
    for event in events {
        world.step(event)?;
    }
    Ok(world)
}

/// Each run is safe: over any host, and for every list of events that are in their ranges and not refused.
pub fn runs_are_safe<H: Host>()
    ensures { RunsAreSafe H.meaning }
{}

/// Each run follows the whole world, in which replicas keep all of their logs and messages travel whole: over any host and such
/// events it has the same datagrams, lines and history after what the events bring, and the same actors, but that each log is
/// trimmed: its checkpoint is the execution of the entries up to the sync point, and the others are kept.
pub fn runs_follow_whole<H: Host>()
    ensures { RunsFollowWhole H.meaning }
{}

/// At the end of each run: an observer that took any of what was sent, in any order and any number of times, answers each read as a
/// map does after those members of the history that stand in the first slots of the main log, up to its position.
pub fn observers_read_the_history<H: Host>()
    ensures { ObserversReadTheHistory H.meaning }
{}
