//! Results of the lock service, read from words.

ghost use Rattle.std.specs.Prelude.{◌≡◌, ◌++◌, IfOk};
ghost use Rattle.locks.specs.Results.{granted_of, held_of, result_of};
ghost use Rattle.saved_fields.specs.Numbers.{number_bytes};

use line_fields::{is_word, number};
use nop_types::{Bytes, NoMemory};
use op_text::bytes_of;
use saved_fields::put_number;
use service_words::ResultText;
use std::alloc::Global;

/// The results of the lock service.
pub struct LockResults;

/// A word and the bytes of a token.
fn with_token(alloc: Global, word: &str, token: u64) -> Result<Vec<u8>, NoMemory>
    ensures { IfOk result (λ bytes. bytes.items ≡ word.now ++ number_bytes token) }
{
    let mut bytes = Vec::from_slice(alloc, word.as_bytes())?;
    put_number(&mut bytes, token)?;
    Ok(bytes)
}

fn granted_of(alloc: Global, word: &[u8], token: &[u8]) -> Result<Option<Bytes>, NoMemory>
    ensures { IfOk result (λ bytes. bytes ≡ granted_of word.now token.now) }
{
    let Some(token) = number(token) else {
        return Ok(None);
    };
    if !is_word(word, "granted") {
        return Ok(None);
    }
    Ok(Some(Bytes::from_vec(with_token(alloc, "granted", token)?)))
}

fn held_of(
    alloc: Global,
    word: &[u8],
    token: &[u8],
    owner: &[u8],
) -> Result<Option<Bytes>, NoMemory>
    ensures { IfOk result (λ bytes. bytes ≡ held_of word.now token.now owner.now) }
{
    let Some(token) = number(token) else {
        return Ok(None);
    };
    let Some(owner) = bytes_of(alloc, owner)? else {
        return Ok(None);
    };
    if !is_word(word, "held") {
        return Ok(None);
    }
    let mut bytes = with_token(alloc, "held", token)?;
    bytes.extend_from_slice(owner.as_slice())?;
    Ok(Some(Bytes::from_vec(bytes)))
}

impl ResultText for LockResults {
    ghost result_of = { result_of };

    #[tactic(auto, unfolding(crate::specs::Results::result_of))]
    fn bytes(alloc: Global, words: &[Bytes]) -> Result<Option<Bytes>, NoMemory> {
        match words {
            [word] => bytes_of(alloc, word.as_slice()),
            [word, token] => granted_of(alloc, word.as_slice(), token.as_slice()),
            [word, token, owner] => {
                held_of(alloc, word.as_slice(), token.as_slice(), owner.as_slice())
            }
            _ => Ok(None),
        }
    }
}
