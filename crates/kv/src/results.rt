//! Results of the key-value service, read from words.

ghost use Rattle.std.specs.Prelude.{◌≡◌, IfOk};
ghost use Rattle.kv.specs.Results.{result_of, value_of};

use nop_types::{Bytes, NoMemory};
use op_text::bytes_of;
use service_words::ResultText;
use std::alloc::Global;

/// The results of the key-value service.
pub struct KvResults;

/// A value behind `=`.
fn value_of(alloc: Global, word: &[u8]) -> Result<Option<Bytes>, NoMemory>
    ensures { IfOk result (λ bytes. bytes ≡ value_of word.now) }
{
    let Some(value) = bytes_of(alloc, word)? else {
        return Ok(None);
    };
    let mut bytes = Vec::from_slice(alloc, b"=")?;
    bytes.extend_from_slice(value.as_slice())?;
    Ok(Some(Bytes::from_vec(bytes)))
}

impl ResultText for KvResults {
    ghost result_of = { result_of };

    fn bytes(alloc: Global, words: &[Bytes]) -> Result<Option<Bytes>, NoMemory> {
        let [word] = words else {
            return Ok(None);
        };
        match word.as_slice() {
            [b'=', value @ ..] => value_of(alloc, value),
            _ => bytes_of(alloc, word.as_slice()),
        }
    }
}
