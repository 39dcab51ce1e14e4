//! What the arguments ask for.

ghost use Rattle.std.specs.Prelude.{◌≡◌, map, string_bytes};
ghost use Rattle.linearize.specs.Words.{asked, steps_of};

use line_fields::{is_word, number};

/// The most steps where no argument says otherwise.
pub const DEFAULT_STEPS: u64 = 100_000_000;

// A number that both code and contracts name would be proved whatever it was; so here it stands once more.
const _: () = prove!(DEFAULT_STEPS == 100_000_000);

fn steps_of(words: &[String]) -> Option<u64>
    ensures { result ≡ steps_of (map string_bytes words.now) }
{
    match words {
        [] => Some(DEFAULT_STEPS),
        [option, steps] if is_word(option.as_bytes(), "--most") => number(steps.as_bytes()),
        _ => None,
    }
}

/// The most steps that the words allow, of which the first is the program's name; None where they are not taken.
pub(crate) fn asked(words: &[String]) -> Option<u64>
    ensures { result ≡ asked (map string_bytes words.now) }
{
    match words {
        [] => None,
        [_program, words @ ..] => steps_of(words),
    }
}
