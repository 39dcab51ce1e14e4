ghost use Rattle.std.specs.Prelude.{◌≡◌, ◌≤◌, ◌∷◌, [], map, length, IfOk};
ghost use Rattle.udp_node.specs.Nodes.{Takes};
ghost use Rattle.udp_node.specs.Timing.{armed, due_ticks, rearmed};

use crate::node::Node;
use nop_types::{Core, Input, NoMemory, Tick};
use outside::{Link, Sink, WriteError};
use std::alloc::Global;

/// A timer of the core, with its period and the time at which it is due, both in milliseconds of the clock.
#[derive(Clone, Copy, PartialEq, Eq)]
pub struct Timer {
    pub tick: Tick,
    pub period: u64,
    pub due: u64,
}

/// The core's timers, each due a period after now.
pub(crate) fn first_timers<C: Core>(
    alloc: Global,
    core: &C,
    now: u64,
) -> Result<Vec<Timer>, NoMemory>
    requires { length C.timers ≤ 255 }
    ensures { IfOk result (λ timers. timers.items ≡ map (armed now) C.timers) }
{
    let mut timers = Vec::new(alloc);
    let mut i = 0;
    while let Some((tick, period)) = core.timer(i) {
        timers.push(Timer {
            tick,
            period,
            due: now.saturating_add(period),
        })?;
        i += 1;
    }
    Ok(timers)
}

impl<C: Core, L: Link, W: Sink> Node<'_, '_, '_, C, L, W> {
    /// Fires a timer where it is due.
    fn fire(&mut self, timer: Timer, now: u64) -> Result<(), WriteError>
        ensures { Takes C.Core L.Link W.Sink self.old self.new (due_ticks now (timer ∷ []))
            result }
    {
        if timer.due <= now {
            self.take_step(Input::Tick(timer.tick))
        } else {
            Ok(())
        }
    }

    /// Fires the timers that are due, in order.
    pub(crate) fn fire_due(&mut self, timers: &[Timer], now: u64) -> Result<(), WriteError>
        ensures { Takes C.Core L.Link W.Sink self.old self.new (due_ticks now timers.now) result }
    {
        for timer in timers {
            if let Err(e) = self.fire(*timer, now) {
                return Err(e);
            }
        }
        Ok(())
    }
}

fn rearmed(timer: Timer, now: u64) -> Timer
    ensures { result ≡ rearmed now timer }
{
    if timer.due <= now {
        Timer {
            due: now.saturating_add(timer.period),
            ..timer
        }
    } else {
        timer
    }
}

/// Each timer that is due is due again a period after now.
pub fn rearm_due(timers: &mut Vec<Timer>, now: u64)
    ensures { timers.new.items ≡ map (rearmed now) timers.old.items }
{
    for i in 0..timers.len() {
        timers[i] = rearmed(timers[i], now);
    }
}
