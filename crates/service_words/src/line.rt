//! One line, in words and in hexadecimal.

ghost use Rattle.std.specs.Prelude.{◌≡◌, ◌∷◌, [], ◌++◌, ◌<◌, length, IfOk, OnOk};
ghost use Rattle.service_words.specs.Lines.{behind, in_hex, in_words, key_in, key_words, line_or};
ghost use Rattle.service_words.specs.Lines.{named, shown, shown_line, texts, translated, with_hex};
ghost use Rattle.service_words.specs.Lines.{with_words};
ghost use Rattle.transcript_text.specs.Transcript.{hex_text};

use crate::direction::Direction;
use crate::fields::{fields_of, put_all};
use crate::result_text::ResultText;
use crate::row::{Kind, Row, row_of};
use nop_types::{Bytes, NoMemory};
use op_text::{OpText, Words};
use std::alloc::Global;

/// Appends bytes in hexadecimal, as a field.
fn put_hex(alloc: Global, bytes: &[u8], to: &mut Words) -> Result<(), NoMemory>
    ensures { OnOk result (to.new ≡ to.old ++ hex_text bytes.now ∷ []) }
{
    if bytes.is_empty() {
        return to.put(b"-");
    }
    let digits = hex::encode(alloc, bytes)?;
    to.put(digits.as_bytes())
}

/// The word of a key; None of no bytes.
fn key_words(alloc: Global, key: &[u8]) -> Result<Option<Words>, NoMemory>
    ensures { IfOk result (λ words. words ≡ key_words key.now) }
{
    if key.is_empty() {
        return Ok(None);
    }
    let mut words = Words::new(alloc);
    words.put_bytes("", key)?;
    Ok(Some(words))
}

fn shown<T: OpText, R: ResultText>(
    alloc: Global,
    kind: Kind,
    bytes: &[u8],
) -> Result<Option<Words>, NoMemory>
    ensures { let t = texts T.op_of T.words_of T.result_words R.result_of in
        IfOk result (λ words. words ≡ shown t kind bytes.now) }
{
    match kind {
        Kind::Op => T::words(alloc, bytes),
        Kind::Answer => Ok(Some(T::result(alloc, bytes)?)),
        Kind::Key => key_words(alloc, bytes),
    }
}

fn with_words<T: OpText, R: ResultText>(
    alloc: Global,
    fields: &[Bytes],
    row: Row,
) -> Result<Option<Words>, NoMemory>
    requires { row.place < length fields.now }
    ensures { let t = texts T.op_of T.words_of T.result_words R.result_of in
        IfOk result (λ words. words ≡ with_words t fields.now row) }
{
    let Some(bytes) = line_fields::bytes(alloc, fields[row.place].as_slice())? else {
        return Ok(None);
    };
    let Some(shown) = shown::<T, R>(alloc, row.kind, bytes.as_slice())? else {
        return Ok(None);
    };
    let mut words = Words::new(alloc);
    put_all(&fields[..row.place], &mut words)?;
    put_all(shown.as_slice(), &mut words)?;
    put_all(&fields[row.place + 1..], &mut words)?;
    Ok(Some(words))
}

fn key_in(alloc: Global, words: &[Bytes]) -> Result<Option<Bytes>, NoMemory>
    ensures { IfOk result (λ bytes. bytes ≡ key_in words.now) }
{
    match words {
        [word, ..] => op_text::bytes_of(alloc, word.as_slice()),
        [] => Ok(None),
    }
}

fn named<T: OpText, R: ResultText>(
    alloc: Global,
    kind: Kind,
    words: &[Bytes],
) -> Result<Option<Bytes>, NoMemory>
    ensures { let t = texts T.op_of T.words_of T.result_words R.result_of in
        IfOk result (λ bytes. bytes ≡ named t kind words.now) }
{
    match kind {
        Kind::Op => match T::op(alloc, words)? {
            Some(op) => Ok(Some(Bytes::new(alloc, op.as_slice())?)),
            None => Ok(None),
        },
        Kind::Answer => R::bytes(alloc, words),
        Kind::Key => key_in(alloc, words),
    }
}

fn behind(kind: Kind, words: &[Bytes]) -> &[Bytes]
    ensures { result.now ≡ behind kind words.now }
{
    match (kind, words) {
        (Kind::Key, [_word, rest @ ..]) => rest,
        _ => &words[..0],
    }
}

fn with_hex<T: OpText, R: ResultText>(
    alloc: Global,
    fields: &[Bytes],
    row: Row,
) -> Result<Option<Words>, NoMemory>
    requires { row.place < length fields.now }
    ensures { let t = texts T.op_of T.words_of T.result_words R.result_of in
        IfOk result (λ words. words ≡ with_hex t fields.now row) }
{
    let given = &fields[row.place..];
    let Some(bytes) = named::<T, R>(alloc, row.kind, given)? else {
        return Ok(None);
    };
    let mut words = Words::new(alloc);
    put_all(&fields[..row.place], &mut words)?;
    put_hex(alloc, bytes.as_slice(), &mut words)?;
    put_all(behind(row.kind, given), &mut words)?;
    Ok(Some(words))
}

/// The line whose fields these are, or else the line itself.
fn line_or(alloc: Global, line: &[u8], fields: Option<Words>) -> Result<Bytes, NoMemory>
    ensures { IfOk result (λ text. text ≡ line_or line.now fields) }
{
    match fields {
        Some(fields) => Ok(Bytes::from_vec(fields.text()?)),
        None => Bytes::new(alloc, line),
    }
}

#[tactic(auto, unfolding(crate::specs::Lines::in_hex))]
fn in_hex<T: OpText, R: ResultText>(alloc: Global, line: &[u8]) -> Result<Bytes, NoMemory>
    ensures { let t = texts T.op_of T.words_of T.result_words R.result_of in
        IfOk result (λ text. text ≡ in_hex t line.now) }
{
    let fields = fields_of(alloc, line)?;
    match row_of(fields.as_slice()) {
        Some(row) => {
            let words = with_hex::<T, R>(alloc, fields.as_slice(), row)?;
            line_or(alloc, line, words)
        }
        None => Bytes::new(alloc, line),
    }
}

#[tactic(auto, unfolding(crate::specs::Lines::shown_line))]
fn shown_line<T: OpText, R: ResultText>(alloc: Global, line: &[u8]) -> Result<Bytes, NoMemory>
    ensures { let t = texts T.op_of T.words_of T.result_words R.result_of in
        IfOk result (λ text. text ≡ shown_line t line.now) }
{
    let fields = fields_of(alloc, line)?;
    match row_of(fields.as_slice()) {
        Some(row) => {
            let words = with_words::<T, R>(alloc, fields.as_slice(), row)?;
            line_or(alloc, line, words)
        }
        None => Bytes::new(alloc, line),
    }
}

#[tactic(auto, unfolding(crate::specs::Lines::in_words))]
fn in_words<T: OpText, R: ResultText>(alloc: Global, line: &[u8]) -> Result<Bytes, NoMemory>
    ensures { let t = texts T.op_of T.words_of T.result_words R.result_of in
        IfOk result (λ text. text ≡ in_words t line.now) }
{
    let words = shown_line::<T, R>(alloc, line)?;
    let back = in_hex::<T, R>(alloc, words.as_slice())?;
    if back.as_slice() == line {
        return Ok(words);
    }
    Bytes::new(alloc, line)
}

/// The line, turned this way.
pub(crate) fn translated<T: OpText, R: ResultText>(
    alloc: Global,
    direction: Direction,
    line: &[u8],
) -> Result<Bytes, NoMemory>
    ensures { let t = texts T.op_of T.words_of T.result_words R.result_of in
        IfOk result (λ text. text ≡ translated t direction line.now) }
{
    match direction {
        Direction::ToWords => in_words::<T, R>(alloc, line),
        Direction::ToHex => in_hex::<T, R>(alloc, line),
    }
}
