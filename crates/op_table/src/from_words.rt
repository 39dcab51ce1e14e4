//! The op that words name.

ghost use Rattle.std.specs.Prelude.{◌≡◌, [], map, option_map, IfOk};
ghost use Rattle.op_table.specs.Shapes.{by_name, field_of, fields_of, op_of, op_shape};

use crate::table::{FieldShape, OpRow};
use line_fields::{is_word, number};
use nop_types::{Bytes, MAX_OP_BYTES, NoMemory, Op};
use op_text::bytes_of;
use saved_fields::{put_number, put_text};
use std::alloc::Global;

fn by_name(rows: &[OpRow], word: &[u8]) -> Option<OpRow>
    ensures { option_map op_shape result ≡ by_name (map op_shape rows.now) word.now }
{
    match rows {
        [row, ..] if is_word(word, row.name) => Some(*row),
        [_row, rest @ ..] => by_name(rest, word),
        [] => None,
    }
}

/// The bytes of a field.
#[tactic(auto, unfolding(crate::specs::Shapes::field_of))]
fn field(alloc: Global, shape: FieldShape, word: &[u8]) -> Result<Option<Bytes>, NoMemory>
    ensures { IfOk result (λ bytes. bytes ≡ field_of shape word.now) }
{
    let mut bytes = Vec::new(alloc);
    match shape {
        FieldShape::Number => {
            let Some(number) = number(word) else {
                return Ok(None);
            };
            put_number(&mut bytes, number)?;
        }
        FieldShape::Text(least, most) => {
            let Some(text) = bytes_of(alloc, word)? else {
                return Ok(None);
            };
            let text = text.as_slice();
            if text.len() < least as usize || text.len() > most as usize {
                return Ok(None);
            }
            put_text(&mut bytes, text)?;
        }
        FieldShape::Rest => return bytes_of(alloc, word),
    }
    Ok(Some(Bytes::from_vec(bytes)))
}

/// The bytes of no fields, which no words name.
#[tactic(auto, unfolding(crate::specs::Shapes::fields_of))]
fn no_fields(alloc: Global, words: &[Bytes]) -> Result<Option<Bytes>, NoMemory>
    ensures { IfOk result (λ bytes. bytes ≡ fields_of [] words.now) }
{
    if words.is_empty() {
        Ok(Some(Bytes::new(alloc, b"")?))
    } else {
        Ok(None)
    }
}

/// The bytes of fields, one after the other.
#[tactic(auto, unfolding(crate::specs::Shapes::fields_of))]
fn fields(alloc: Global, shapes: &[FieldShape], words: &[Bytes]) -> Result<Option<Bytes>, NoMemory>
    ensures { IfOk result (λ bytes. bytes ≡ fields_of shapes.now words.now) }
{
    let [shape, shapes @ ..] = shapes else {
        return no_fields(alloc, words);
    };
    let [word, words @ ..] = words else {
        return Ok(None);
    };
    let Some(prefix) = field(alloc, *shape, word.as_slice())? else {
        return Ok(None);
    };
    let Some(rest) = fields(alloc, shapes, words)? else {
        return Ok(None);
    };
    let mut bytes = prefix.into_vec();
    bytes.extend_from_slice(rest.as_slice())?;
    Ok(Some(Bytes::from_vec(bytes)))
}

/// The op that words name by these rows.
#[tactic(auto, unfolding(crate::specs::Shapes::op_of))]
pub(crate) fn op_in(alloc: Global, rows: &[OpRow], words: &[Bytes]) -> Result<Option<Op>, NoMemory>
    ensures { IfOk result (λ op. op ≡ op_of (map op_shape rows.now) words.now) }
{
    let [word, words @ ..] = words else {
        return Ok(None);
    };
    let Some(row) = by_name(rows, word.as_slice()) else {
        return Ok(None);
    };
    let Some(fields) = fields(alloc, row.fields, words)? else {
        return Ok(None);
    };
    let mut bytes = Vec::new(alloc);
    bytes.push(row.kind)?;
    bytes.extend_from_slice(fields.as_slice())?;
    if bytes.len() > MAX_OP_BYTES {
        return Ok(None);
    }
    Ok(Some(Op::from_vec(bytes)))
}
