//! The ticks that a schedule may give, and their words.

ghost use Rattle.std.specs.Prelude.{◌≡◌};
ghost use Rattle.schedule_text.specs.EventText.{HasWord, tick_text};
ghost use Rattle.schedule_text.specs.Ticks.{tick_named, takes_tick};

use line_fields::is_word;
use nop_types::{Actor, Tick};

/// The tick that the field names.
pub fn tick_named(field: &[u8]) -> Option<Tick>
    ensures { result ≡ tick_named field.now }
{
    if is_word(field, "suspect") {
        return Some(Tick::Suspect);
    }
    if is_word(field, "watch") {
        return Some(Tick::Watch);
    }
    if is_word(field, "resend") {
        return Some(Tick::Resend);
    }
    if is_word(field, "sync") {
        return Some(Tick::Sync);
    }
    if is_word(field, "retry") {
        return Some(Tick::Retry);
    }
    if is_word(field, "probe") {
        return Some(Tick::Probe);
    }
    None
}

/// The word of a tick that a schedule may give.
pub fn tick_word(tick: Tick) -> &'static str
    ensures { HasWord tick → result.now ≡ tick_text tick }
{
    match tick {
        Tick::Suspect => "suspect",
        Tick::Watch => "watch",
        Tick::Resend => "resend",
        Tick::Sync => "sync",
        Tick::Retry => "retry",
        Tick::Next => "next",
        Tick::Probe => "probe",
        Tick::Install(_) => "install",
    }
}

/// Whether a schedule may give the actor this tick. No actor is given Next, which is a timer of
/// nodes alone, or Install, which is an event of its own.
pub fn takes_tick(actor: Actor, tick: Tick) -> bool
    ensures { result ≡ takes_tick actor tick }
{
    match actor {
        Actor::Replica(_) => {
            matches!(
                tick,
                Tick::Suspect | Tick::Watch | Tick::Resend | Tick::Sync
            )
        }
        Actor::Client(_) => matches!(tick, Tick::Retry),
        Actor::Controller(_) => matches!(tick, Tick::Probe | Tick::Resend),
        _ => false,
    }
}
