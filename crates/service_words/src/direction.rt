ghost use Rattle.std.specs.Prelude.{◌≡◌};
ghost use Rattle.service_words.specs.Directions.{direction_of};

use line_fields::is_word;
use nop_types::Bytes;

/// Which way lines are turned.
#[derive(Clone, Copy, PartialEq, Eq)]
pub enum Direction {
    ToWords,
    ToHex,
}

/// What the words behind a command ask for: none is to words, `--back` to hexadecimal; None for any
/// others.
pub fn direction_of(words: &[Bytes]) -> Option<Direction>
    ensures { result ≡ direction_of words.now }
{
    match words {
        [] => Some(Direction::ToWords),
        [word] if is_word(word.as_slice(), "--back") => Some(Direction::ToHex),
        _ => None,
    }
}
