//! The first line of a schedule.

ghost use Rattle.std.specs.Prelude.{◌≡◌, ◌++◌, OnOk, OnErr};
ghost use Rattle.trace_text.specs.Traces as traces;

use nop_types::{Config, NoMemory};
use transcript_text::counts_line;

/// Appends the first line of a schedule of this form.
#[tactic(auto, unfolding(crate::specs::Traces::header_line))]
pub fn header_line(form: u8, config: Config, to: &mut Vec<u8>) -> Result<(), NoMemory>
    ensures ok { OnOk result (to.new.items ≡ to.old.items ++ traces.header_line form config) }
    ensures err { OnErr result (to.new.items ≡ to.old.items) }
{
    counts_line("nopaxos", form, config, to)
}
