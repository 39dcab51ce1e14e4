//! Which field of a line is hexadecimal.

ghost use Rattle.std.specs.Prelude.{◌≡◌, ◌<◌, length, IfSome};
ghost use Rattle.service_words.specs.Rows.{any_row, given_row, has_number, is_at, plain_row};
ghost use Rattle.service_words.specs.Rows.{read_place, row_at, row_of, submit_place, taken_row};

use line_fields::{is_word, number};
use nop_types::Bytes;

/// What the bytes of a field are.
#[derive(Clone, Copy, PartialEq, Eq)]
pub enum Kind {
    Op,
    Answer,
    Key,
}

/// The place of the field, counted from 0, and what its bytes are.
#[derive(Clone, Copy, PartialEq, Eq)]
pub struct Row {
    pub place: usize,
    pub kind: Kind,
}

fn row_at(place: usize, kind: Kind) -> Option<Row>
    ensures { result ≡ row_at place kind }
{
    Some(Row { place, kind })
}

fn is_at(place: usize, word: &str, fields: &[Bytes]) -> bool
    ensures { result ≡ is_at place word.now fields.now }
{
    match fields.get(place) {
        Some(field) => is_word(field.as_slice(), word),
        None => false,
    }
}

fn has_number(fields: &[Bytes]) -> bool
    ensures { result ≡ has_number fields.now }
{
    match fields.get(2) {
        Some(field) => number(field.as_slice()).is_some(),
        None => false,
    }
}

/// A `submit` line of a transcript has an ID, one of a schedule none.
fn submit_place(fields: &[Bytes]) -> usize
    ensures { result ≡ submit_place fields.now }
{
    if fields.len() > 3 && has_number(fields) {
        3
    } else {
        2
    }
}

/// A `read` line of a transcript has an ID, one of a schedule none.
fn read_place(fields: &[Bytes]) -> usize
    ensures { result ≡ read_place fields.now }
{
    if fields.len() == 4 { 3 } else { 4 }
}

fn plain_row(fields: &[Bytes]) -> Option<Row>
    ensures { result ≡ plain_row fields.now }
{
    if is_at(0, "submit", fields) {
        row_at(submit_place(fields), Kind::Op)
    } else if is_at(0, "accept", fields) {
        row_at(3, Kind::Answer)
    } else if is_at(0, "read", fields) {
        row_at(read_place(fields), Kind::Key)
    } else if is_at(0, "answer", fields) {
        row_at(5, Kind::Answer)
    } else if is_at(0, "history", fields) {
        row_at(4, Kind::Op)
    } else if is_at(0, "entry", fields) {
        row_at(5, Kind::Op)
    } else if is_at(0, "none", fields) {
        row_at(2, Kind::Key)
    } else {
        None
    }
}

/// A line of a trace: what an actor took.
fn taken_row(fields: &[Bytes]) -> Option<Row>
    ensures { result ≡ taken_row fields.now }
{
    if is_at(2, "submit", fields) {
        row_at(3, Kind::Op)
    } else if is_at(2, "read", fields) {
        row_at(4, Kind::Key)
    } else {
        None
    }
}

/// A line of a trace: what an actor gave.
fn given_row(fields: &[Bytes]) -> Option<Row>
    ensures { result ≡ given_row fields.now }
{
    if is_at(2, "submit", fields) {
        row_at(4, Kind::Op)
    } else if is_at(2, "accept", fields) {
        row_at(4, Kind::Answer)
    } else if is_at(2, "read", fields) {
        row_at(5, Kind::Key)
    } else if is_at(2, "answer", fields) {
        row_at(6, Kind::Answer)
    } else {
        None
    }
}

fn any_row(fields: &[Bytes]) -> Option<Row>
    ensures { result ≡ any_row fields.now }
{
    if is_at(0, "in", fields) {
        taken_row(fields)
    } else if is_at(0, "out", fields) {
        given_row(fields)
    } else {
        plain_row(fields)
    }
}

/// Which of these fields is hexadecimal, if one is.
#[tactic(auto, unfolding(crate::specs::Rows::row_of))]
pub(crate) fn row_of(fields: &[Bytes]) -> Option<Row>
    ensures row { result ≡ row_of fields.now }
    ensures within { IfSome result (λ row. row.place < length fields.now) }
{
    match any_row(fields) {
        Some(row) if row.place < fields.len() => Some(row),
        _ => None,
    }
}
