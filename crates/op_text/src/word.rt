//! One word.

ghost use Rattle.std.specs.Prelude.{◌≡◌, ◌++◌, drop, IfOk, OnOk};
ghost use Rattle.std.specs.List.{list_all};
ghost use Rattle.hex.specs.Hex.{decode_of};
ghost use Rattle.line_fields.specs.Fields.{as_option};
ghost use Rattle.op_text.specs.Words.{is_hex, is_mark, is_plain, bytes_of, word_of};

use nop_types::{Bytes, NoMemory};
use std::alloc::Global;

fn is_hex(word: &[u8]) -> bool
    ensures { result ≡ is_hex word.now }
{
    match word {
        [a, b, ..] => *a == b'0' && *b == b'x',
        _ => false,
    }
}

fn is_mark(b: u8) -> bool
    ensures { result ≡ is_mark b }
{
    b'!' <= b && b <= b'~'
}

fn are_marks(bytes: &[u8]) -> bool
    ensures { result ≡ list_all is_mark bytes.now }
{
    bytes.iter().all(|b| is_mark(*b))
}

/// Whether the bytes are a word that stands for itself.
fn is_plain(bytes: &[u8]) -> bool
    ensures { result ≡ is_plain bytes.now }
{
    1 <= bytes.len() && !is_hex(bytes) && are_marks(bytes)
}

pub(crate) fn decoded(alloc: Global, digits: &[u8]) -> Result<Option<Bytes>, NoMemory>
    ensures { IfOk result (λ bytes. bytes ≡ as_option (decode_of digits.now)) }
{
    match hex::decode(alloc, digits) {
        Ok(bytes) => Ok(Some(Bytes::from_vec(bytes))),
        Err(hex::FromHexError::OutOfMemory) => Err(NoMemory),
        Err(_) => Ok(None),
    }
}

/// The bytes that a word stands for: `0x` and hexadecimal digits, or the word itself.
#[tactic(auto, unfolding(crate::specs::Words::bytes_of))]
pub fn bytes_of(alloc: Global, word: &[u8]) -> Result<Option<Bytes>, NoMemory>
    ensures { IfOk result (λ bytes. bytes ≡ bytes_of word.now) }
{
    if is_hex(word) {
        return decoded(alloc, &word[2..]);
    }
    Ok(Some(Bytes::new(alloc, word)?))
}

/// Appends the word for these bytes.
#[tactic(auto, unfolding(crate::specs::Words::word_of))]
pub(crate) fn put_word_of(alloc: Global, bytes: &[u8], to: &mut Vec<u8>) -> Result<(), NoMemory>
    ensures { OnOk result (to.new.items ≡ to.old.items ++ word_of bytes.now) }
{
    if is_plain(bytes) {
        to.extend_from_slice(bytes)?;
        return Ok(());
    }
    let digits = hex::encode(alloc, bytes)?;
    to.extend_from_slice(b"0x")?;
    to.extend_from_slice(digits.as_bytes())?;
    Ok(())
}
