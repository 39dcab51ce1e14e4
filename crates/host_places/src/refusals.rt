//! What the user is told of a list that is refused.

ghost use Rattle.std.specs.Prelude.{◌≡◌, IfOk};
ghost use Rattle.host_places.specs.Refusals.{refusal_line};

use host_list::Refusal;
use nop_types::NoMemory;
use std::alloc::Global;
use transcript_text::{Field, write_line};

/// The line of a list that is refused: the first of its lines that breaks a rule, and the rule.
#[tactic(auto, unfolding(crate::specs::Refusals::refusal_line))]
pub fn refusal_line(alloc: Global, refusal: Refusal) -> Result<Vec<u8>, NoMemory>
    ensures { IfOk result (λ line. line.items ≡ refusal_line refusal) }
{
    let fields = [
        Field::Word("line"),
        Field::Number(refusal.line as u64),
        Field::Word("rule"),
        Field::Number(u64::from(refusal.rule.number())),
    ];
    let mut line = Vec::new(alloc);
    write_line("error", &fields, &mut line)?;
    Ok(line)
}
