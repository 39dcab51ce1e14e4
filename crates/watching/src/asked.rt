//! What words ask of a watch.

ghost use Rattle.std.specs.Prelude.{◌≡◌};
ghost use Rattle.watching.specs.Asked.{asked_of, from_one, turns_of, with_turns};

use line_fields::{is_word, number};
use nop_types::Bytes;

/// Whether one state is asked for, or that lines are written over those before; and the most turns, at least 1.
#[derive(Clone, Copy, PartialEq, Eq)]
pub struct Asked {
    pub once: bool,
    pub redraws: bool,
    pub turns: u64,
}

/// A number from 1 to 2^64 - 1.
fn from_one(word: &[u8]) -> Option<u64>
    ensures { result ≡ from_one word.now }
{
    let n = number(word)?;
    if n == 0 { None } else { Some(n) }
}

/// How many turns words ask for: none, or `--turns` and a number.
fn turns_of(words: &[Bytes]) -> Option<u64>
    ensures { result ≡ turns_of words.now }
{
    match words {
        [] => Some(u64::MAX),
        [option, n] => {
            if is_word(option.as_slice(), "--turns") {
                from_one(n.as_slice())
            } else {
                None
            }
        }
        _ => None,
    }
}

fn with_turns(once: bool, redraws: bool, words: &[Bytes]) -> Option<Asked>
    ensures { result ≡ with_turns once redraws words.now }
{
    let turns = turns_of(words)?;
    Some(Asked {
        once,
        redraws,
        turns,
    })
}

/// What the words ask for: `[--once | --redraw] [--turns T]`.
pub fn asked_of(words: &[Bytes]) -> Option<Asked>
    ensures { result ≡ asked_of words.now }
{
    let [option, others @ ..] = words else {
        return with_turns(false, false, words);
    };
    if is_word(option.as_slice(), "--once") {
        return with_turns(true, false, others);
    }
    if is_word(option.as_slice(), "--redraw") {
        return with_turns(false, true, others);
    }
    with_turns(false, false, words)
}
