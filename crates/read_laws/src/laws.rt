ghost use Rattle.read_laws.specs.Runs.{RunsReceive, RunsReadRight};

use nop_types::Host;

/// In each world to which events lead, each observer is one that took some list of inputs, of which each packet was sent by then or
/// spells no datagram.
pub fn observers_received<H: Host>()
    ensures { RunsReceive H.meaning }
{}

/// Where whatever an observer may have received by the end of a run reads right of a log, the lines of the run do: each answer stands
/// behind the one line that asks for it, is right of the log's first slots up to its position, and no answer goes back behind what
/// was told before it was asked for.
pub fn runs_read_right<H: Host>()
    ensures { RunsReadRight H.meaning }
{}
