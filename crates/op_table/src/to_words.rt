//! The words of an op and of an answer.

ghost use Rattle.std.specs.Prelude.{◌≡◌, map, option_map, IfOk};
ghost use Rattle.op_table.specs.Shapes.{PutsWord, PutsWords, answer_shape, by_kind, op_shape};
ghost use Rattle.op_table.specs.Shapes.{named_words, result_words, row_words, word_at, words_at};
ghost use Rattle.op_table.specs.Shapes.{words_of};

use crate::table::{AnswerRow, FieldShape, OpRow};
use nop_types::{MAX_OP_BYTES, NoMemory};
use op_text::Words;
use saved_fields::{number, text};
use std::alloc::Global;

fn by_kind(rows: &[OpRow], kind: u8) -> Option<OpRow>
    ensures { option_map op_shape result ≡ by_kind (map op_shape rows.now) kind }
{
    match rows {
        [row, ..] if row.kind == kind => Some(*row),
        [_row, rest @ ..] => by_kind(rest, kind),
        [] => None,
    }
}

/// Appends the word of the field with which bytes begin, and gives what follows it.
#[tactic(auto, unfolding(crate::specs::Shapes::word_at))]
fn put_word<'a>(
    shape: FieldShape,
    bytes: &'a [u8],
    to: &mut Words,
) -> Result<Option<&'a [u8]>, NoMemory>
    ensures { IfOk result (λ rest. PutsWord to.old to.new (option_map (λ r. r.now) rest)
        (word_at shape bytes.now)) }
{
    match shape {
        FieldShape::Number => match number(bytes) {
            Some((number, rest)) => {
                to.put_number(number)?;
                Ok(Some(rest))
            }
            None => Ok(None),
        },
        FieldShape::Text(least, most) => match text(bytes, most as usize) {
            Some((text, rest)) if least as usize <= text.len() => {
                to.put_bytes("", text)?;
                Ok(Some(rest))
            }
            _ => Ok(None),
        },
        FieldShape::Rest => {
            to.put_bytes("", bytes)?;
            Ok(Some(&[]))
        }
    }
}

/// Appends the words of fields; false where the bytes are no such fields.
#[tactic(auto, unfolding(crate::specs::Shapes::words_at))]
fn put_words(shapes: &[FieldShape], bytes: &[u8], to: &mut Words) -> Result<bool, NoMemory>
    ensures { IfOk result (λ done. PutsWords to.old to.new done (words_at shapes.now bytes.now)) }
{
    let [shape, shapes @ ..] = shapes else {
        return Ok(bytes.is_empty());
    };
    match put_word(*shape, bytes, to)? {
        Some(rest) => put_words(shapes, rest, to),
        None => Ok(false),
    }
}

#[tactic(auto, unfolding(crate::specs::Shapes::named_words))]
fn named_words(alloc: Global, rows: &[OpRow], op: &[u8]) -> Result<Option<Words>, NoMemory>
    ensures { IfOk result (λ words. words ≡ named_words (map op_shape rows.now) op.now) }
{
    let [kind, fields @ ..] = op else {
        return Ok(None);
    };
    let Some(row) = by_kind(rows, *kind) else {
        return Ok(None);
    };
    let mut words = Words::new(alloc);
    words.put(row.name.as_bytes())?;
    if put_words(row.fields, fields, &mut words)? {
        Ok(Some(words))
    } else {
        Ok(None)
    }
}

/// The words of an op by these rows.
#[tactic(auto, unfolding(crate::specs::Shapes::words_of))]
pub(crate) fn words_in(alloc: Global, rows: &[OpRow], op: &[u8]) -> Result<Option<Words>, NoMemory>
    ensures { IfOk result (λ words. words ≡ words_of (map op_shape rows.now) op.now) }
{
    if op.len() > MAX_OP_BYTES {
        return Ok(None);
    }
    named_words(alloc, rows, op)
}

/// The words of an answer by one row.
#[tactic(auto, unfolding(crate::specs::Shapes::row_words))]
fn row_words(alloc: Global, row: &AnswerRow, answer: &[u8]) -> Result<Option<Words>, NoMemory>
    ensures { IfOk result (λ words. words ≡ row_words (answer_shape row.now) answer.now) }
{
    let name = row.name.as_bytes();
    if answer.len() < name.len() || &answer[..name.len()] != name {
        return Ok(None);
    }
    let mut words = Words::new(alloc);
    if !name.is_empty() {
        words.put(name)?;
    }
    if put_words(row.fields, &answer[name.len()..], &mut words)? {
        Ok(Some(words))
    } else {
        Ok(None)
    }
}

/// The words of an answer by these rows.
#[tactic(auto, unfolding(crate::specs::Shapes::result_words))]
pub(crate) fn result_in(alloc: Global, rows: &[AnswerRow], answer: &[u8]) -> Result<Words, NoMemory>
    ensures { IfOk result (λ words. words ≡ result_words (map answer_shape rows.now) answer.now) }
{
    let [row, rows @ ..] = rows else {
        let mut words = Words::new(alloc);
        words.put_bytes("", answer)?;
        return Ok(words);
    };
    match row_words(alloc, row, answer)? {
        Some(words) => Ok(words),
        None => result_in(alloc, rows, answer),
    }
}
