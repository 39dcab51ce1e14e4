//! A key in hexadecimal.

ghost use Rattle.std.specs.Prelude.{◌≡◌, IfOk};
ghost use Rattle.command_line.specs.Commands.{key_in, key_of, text_in};

use nop_types::{Key, MAX_KEY_BYTES, NoMemory};
use std::alloc::Global;

/// A key. None where the text is no hexadecimal, empty, or too long.
fn key(alloc: Global, text: &str) -> Result<Option<Key>, NoMemory>
    ensures { IfOk result (λ key. key ≡ key_of text.now) }
{
    match hex::decode(alloc, text.as_bytes()) {
        Ok(bytes) => {
            if 1 <= bytes.len() && bytes.len() <= MAX_KEY_BYTES {
                Ok(Some(Key::from_vec(bytes)))
            } else {
                Ok(None)
            }
        }
        Err(hex::FromHexError::OutOfMemory) => Err(NoMemory),
        Err(_) => Ok(None),
    }
}

/// The text as a key. None where there is no text, or it is no key.
pub(crate) fn read_key(alloc: Global, text: Option<&str>) -> Result<Option<Key>, NoMemory>
    ensures { IfOk result (λ key. key ≡ key_in (text_in text.entry)) }
{
    match text {
        Some(text) => key(alloc, text),
        None => Ok(None),
    }
}
