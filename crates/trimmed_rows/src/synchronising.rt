ghost use Rattle.nop_types.specs.Logs.{Whole, Trimmed};
ghost use Rattle.nop_types.specs.Meaning.{Meaning};
ghost use Rattle.trimmed_rows.specs.WorkedSteps.{WorkedSteps};

use nop_types::Host;

/// The worked steps over whole logs.
pub fn steps_of_whole_logs<S>()
    ensures { (m : Meaning S) → WorkedSteps m Whole }
{}

/// The same steps over trimmed logs.
pub fn steps_of_trimmed_logs<H: Host>()
    ensures { WorkedSteps H.meaning Trimmed }
{}
