//! What holds of each schedule that is drawn.

ghost use Rattle.std.specs.Prelude.{◌≡◌, ℕ, List, true, Ok};
ghost use Rattle.nop_types.specs.Configuration.{Configuration, is_configuration};
ghost use Rattle.nop_types.specs.Lists.{Has};
ghost use Rattle.schedule_text.specs.declared.event.Event.{Event};
ghost use Rattle.schedule_text.specs.Fits.{EventsFit};
ghost use Rattle.network.specs.Network.{Sent};
ghost use Rattle.world.specs.WorldSteps.{Happened, run};
ghost use Rattle.replay.specs.Destinations.{IsDestOf};
ghost use Rattle.replay.specs.Generated.{drawn_config, drawn_events, RunsFrom};

use nop_types::Host;

/// Each datagram that was sent in a run goes to an actor of its configuration.
pub fn datagrams_go_to_actors<H: Host>()
    ensures { (c : Configuration) → is_configuration c ≡ true
        → (es : List Event) (h : Happened) → EventsFit es → run H.meaning c es ≡ Ok h
        → (s : Sent) → Has h.world.sent s → IsDestOf c s.dest }
{}

/// No event that is drawn is refused, whatever the number and the count.
pub fn drawn_schedules_run<H: Host>()
    ensures { (number count : ℕ)
        → RunsFrom H.meaning drawn_config (drawn_events H.meaning number count) }
{}
