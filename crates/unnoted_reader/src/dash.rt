//! A `?` in place of a result, read as the result of no byte.

ghost use Rattle.std.specs.Prelude.{◌≡◌, ◌-◌, ◌==◌, length, slice_index, IfOk};
ghost use Rattle.transcript_rows.specs.Reading.{IsRowOf};
ghost use Rattle.unnoted_reader.specs.Unnoted.{as_read, is_unnoted, with_dash};

use line_fields::is_word;
use nop_types::NoMemory;
use std::alloc::Global;
use transcript_rows::{Row, read_row};

/// Whether the last byte is `?`.
fn ends_so(text: &[u8]) -> bool
    ensures { result ≡ (slice_index text.now (length text.now - 1) == 63) }
{
    if text.is_empty() {
        return false;
    }
    text[text.len() - 1] == b'?'
}

/// Whether the line accepts a result that nobody noted.
pub(crate) fn is_unnoted(text: &[u8]) -> bool
    ensures { result ≡ is_unnoted text.now }
{
    is_word(&text[..text.len().min(7)], "accept ") && ends_so(text)
}

/// The text with `-` for its last byte.
fn with_dash(alloc: Global, text: &[u8]) -> Result<Vec<u8>, NoMemory>
    ensures { IfOk result (λ v. v.items ≡ with_dash text.now) }
{
    let mut bytes = Vec::from_slice(alloc, text)?;
    if !bytes.is_empty() {
        let last = bytes.len() - 1;
        bytes[last] = b'-';
    }
    Ok(bytes)
}

/// The row that a line is as it is read; None if it is none.
pub(crate) fn row_as_read(
    alloc: Global,
    text: &[u8],
    unnoted: bool,
    scratch: &mut Vec<u8>,
) -> Result<Option<Row>, NoMemory>
    requires { unnoted ≡ is_unnoted text.now }
    ensures { IfOk result (IsRowOf (as_read text.now)) }
{
    if !unnoted {
        return read_row(alloc, text, scratch);
    }
    let bytes = with_dash(alloc, text)?;
    read_row(alloc, &bytes, scratch)
}
