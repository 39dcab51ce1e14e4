ghost use Rattle.std.specs.Prelude.{◌≡◌, ◌++◌, ℕ, List, Bool, true, OnOk, OnErr, IsErr, slice_get};
ghost use Rattle.nop_types.specs.declared.output.Out.{Out};
ghost use Rattle.nop_types.specs.declared.input.Tick.{Tick};
ghost use Rattle.nop_types.specs.Given.{Given, given};

use crate::{Input, NoMemory, Outbox, Tick};

/// A state machine: one step takes one input and gives a new state and outputs. No clock, socket or thread is inside.
pub trait Core {
    /// What the step table speaks of. Of a core that has failed no clause says what it is: a step that runs out of memory may stop
    /// anywhere.
    ghost State: { Type 0 };

    ghost state: { Self → State };

    /// Whether a step ran out of memory before.
    ghost has_failed: { Self → Bool };

    /// The step table: the state after an input, and the outputs in order.
    ghost next: { State → Given → State × List Out };

    /// The core's timers in order, with their periods in milliseconds.
    ghost timers: { List (Tick × ℕ) };

    /// Whether nothing is left to do.
    ghost is_done: { State → Bool };

    /// One step. Where memory runs out, the outputs are as before, and each later step answers NoMemory too.
    fn step(&mut self, input: Input<'_>, out: &mut Outbox) -> Result<(), NoMemory>
        ensures state { OnOk result (state self.new
            ≡ (next (state self.old) (given input.entry)).0) }
        ensures outputs { OnOk result (out.new ≡ out.old
            ++ (next (state self.old) (given input.entry)).1) }
        ensures well { OnOk result (has_failed self.new ≡ has_failed self.old) }
        ensures failed { OnErr result (has_failed self.new ≡ true) }
        ensures kept { OnErr result (out.new ≡ out.old) }
        ensures for_good { has_failed self.old ≡ true → IsErr result };

    /// The timer with this index and its period in milliseconds, None past the last.
    fn timer(&self, i: u8) -> Option<(Tick, u64)>
        ensures { result ≡ slice_get timers i };

    /// Whether nothing is left to do.
    fn done(&self) -> bool
        ensures { result ≡ is_done (state self.now) };
}
