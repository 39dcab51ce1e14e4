use crate::rule::Rule;
use nop_types::NoMemory as OutOfMemory;

/// Why a line gave nothing.
#[derive(Clone, Copy)]
pub enum LineError {
    /// The first rule that the line breaks.
    Breaks(Rule),
    NoMemory,
}

impl From<OutOfMemory> for LineError {
    ghost use Rattle.std.specs.Prelude.{◌≡◌};
    ghost use Rattle.schedule_text.specs.declared.line_error.LineError.TheVariants.{NoMemory};

    ghost from_gives = { λ _ e. e ≡ NoMemory };

    fn from(_e: OutOfMemory) -> LineError {
        LineError::NoMemory
    }
}

impl From<Rule> for LineError {
    ghost use Rattle.std.specs.Prelude.{◌≡◌};
    ghost use Rattle.schedule_text.specs.declared.line_error.LineError.TheVariants.{Breaks};

    ghost from_gives = { λ rule e. e ≡ Breaks rule };

    fn from(rule: Rule) -> LineError {
        LineError::Breaks(rule)
    }
}
