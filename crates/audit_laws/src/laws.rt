ghost use Rattle.std.specs.Prelude.{◌≡◌, List, true, Ok};
ghost use Rattle.std.specs.List.{flat_map};
ghost use Rattle.nop_types.specs.Configuration.{Configuration, is_configuration};
ghost use Rattle.schedule_text.specs.declared.event.Event.{Event};
ghost use Rattle.schedule_text.specs.Fits.{EventsFit};
ghost use Rattle.safety.specs.Safe.{SafelyPassed};
ghost use Rattle.trace_rows.specs.declared.row.Row.{Row};
ghost use Rattle.world.specs.WorldSteps.{Happened, opening, run};
ghost use Rattle.audit_laws.specs.Audits.{Audits, Claims, Follows, Passes, SoFar, Step};
ghost use Rattle.audit_laws.specs.Audits.{audited, happened_in, starts, step_rows};
ghost use Rattle.audit_laws.specs.Braids.{OrdersRun, RunsAreCausal};

use nop_types::Host;

/// Rows that are audited without a fault are those of steps, each its actor's in the world of the steps before, and rows of such
/// steps have no fault. Their events are a run. It is safe, and what the rows claim is what the run tells, and legal of its history.
pub fn audited_is_a_run<H: Host>()
    ensures steps { (c : Configuration) (rows : List Row) (s : SoFar)
        → audited H.meaning 0 (starts c) rows ≡ Ok s → Audits H.meaning c rows s }
    ensures again { (c : Configuration) (steps : List Step) (es : List Event) (h : Happened)
        → Follows H.meaning (opening c) steps es h
        → Passes H.meaning 0 (starts c) (flat_map step_rows steps) es h }
    ensures run { (c : Configuration) (rows : List Row) (s : SoFar) → Audits H.meaning c rows s
        → run H.meaning c s.events ≡ Ok (happened_in s) }
    ensures safe { (c : Configuration) (rows : List Row) (s : SoFar) → is_configuration c ≡ true
        → EventsFit s.events → Audits H.meaning c rows s
        → SafelyPassed H.meaning c s.events (happened_in s) }
    ensures claims { (c : Configuration) (rows : List Row) (s : SoFar) → is_configuration c ≡ true
        → EventsFit s.events → (a : Audits H.meaning c rows s)
        → Claims H.meaning a.steps (happened_in s) }
{}

/// Each order of a run's steps in which each actor's own stay in theirs, and each datagram that is taken was sent before, is a run;
/// and in each run it was.
pub fn braided_is_audited<H: Host>()
    ensures orders { OrdersRun H.meaning }
    ensures causal { RunsAreCausal H.meaning }
{}
