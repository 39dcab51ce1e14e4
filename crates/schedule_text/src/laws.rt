//! What the rules of a schedule's lines say of the events that they give.

ghost use Rattle.std.specs.Prelude.{◌≡◌, ◌≤◌, ℕ, List, length, Ok, true};
ghost use Rattle.nop_types.specs.declared.limits.TheConstants.{MAX_DATAGRAM_BYTES};
ghost use Rattle.nop_types.specs.declared.output.Actor.{Actor};
ghost use Rattle.nop_types.specs.Configuration.{Configuration};
ghost use Rattle.nop_types.specs.Headers.{is_header};
ghost use Rattle.nop_types.specs.declared.header.Header.{Header};
ghost use Rattle.schedule_text.specs.declared.event.Event.{Event};
ghost use Rattle.schedule_text.specs.declared.event.Event.TheVariants.{Junk};
ghost use Rattle.schedule_text.specs.Fits.{EventFits};
ghost use Rattle.schedule_text.specs.Rules.{event_of, header_of, junk_of};

/// An event of a line is in its ranges.
#[tactic(auto, using(crate::proofs::Fitting::events_fit))]
pub fn read_events_fit()
    ensures { (c : Configuration) (before : ℕ) (line : List ℕ) (e : Event)
        → event_of c before line ≡ Ok e → EventFits e }
{}

/// Junk of a line has at most `MAX_DATAGRAM_BYTES` bytes.
#[tactic(auto, using(crate::proofs::Fitting::junk_fits))]
pub fn read_junk_fits()
    ensures { (c : Configuration) (rest : List (List ℕ)) (to : Actor) (bytes : List ℕ)
        → junk_of c rest ≡ Ok (Junk to bytes) → length bytes ≤ MAX_DATAGRAM_BYTES }
{}

/// The header of a schedule is of its form, and within the limits of a configuration.
#[tactic(auto, using(crate::proofs::Fitting::headers_fit))]
pub fn read_headers_fit()
    ensures { (line : List ℕ) (h : Header) → header_of line ≡ Ok h → is_header h ≡ true }
{}
