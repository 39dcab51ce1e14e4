ghost use Rattle.printed_runs.specs.Printing.{PrintsAgain};

use nop_types::Host;

/// The printed schedule of a run has no bad line: it is read as the events of the run, and what is
/// written for it is the run's transcript.
pub fn printed_is_read<H: Host>()
    ensures { PrintsAgain H.meaning }
{}
