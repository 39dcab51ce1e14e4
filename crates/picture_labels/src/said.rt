//! The lines that a client's step writes in a transcript, read back.

ghost use Rattle.std.specs.Prelude.{◌≡◌, All, IfOk, IfSome};
ghost use Rattle.picture_labels.specs.Clients.{IsOfClient};

use crate::naming::{note_of, put_result};
use nop_types::NoMemory;
use op_text::OpText;
use picture::{Mark, Note, Text};
use std::alloc::Global;

/// A result in hexadecimal as bytes; what is no hexadecimal as it is.
fn answer_of(alloc: Global, hex: &str) -> Result<Vec<u8>, NoMemory> {
    match hex::decode(alloc, hex.as_bytes()) {
        Ok(bytes) => Ok(bytes),
        Err(hex::FromHexError::OutOfMemory) => Err(NoMemory),
        Err(_) => Ok(Vec::from_slice(alloc, hex.as_bytes())?),
    }
}

fn mark_of(word: &str) -> Option<Mark>
    ensures { IfSome result IsOfClient }
{
    match word {
        "submit" | "read" => Some(Mark::Submitted),
        "accept" | "answer" => Some(Mark::Accepted),
        "busy" | "dead" => Some(Mark::Refused),
        _ => None,
    }
}

fn put_said(word: &str, id: &str, to: &mut Text) {
    match word {
        "busy" => to.put("busy"),
        "dead" => to.put("crashed"),
        "read" | "answer" => {
            to.put(word);
            to.put(" ");
            to.put(id);
        }
        _ => {
            to.put("#");
            to.put(id);
        }
    }
}

/// The first word of a line, and what follows it.
fn first_word(line: &str) -> (&str, &str) {
    match line.split_once(' ') {
        Some(pair) => pair,
        None => (line, ""),
    }
}

/// What was read of an observer, and at which position.
fn put_answered<T: OpText>(alloc: Global, rest: &str, to: &mut Text) -> Result<(), NoMemory> {
    let (_observer, rest) = first_word(rest);
    let (position, hex) = first_word(rest);
    to.put(" at ");
    to.put(position);
    put_result::<T>(alloc, &answer_of(alloc, hex)?, to)
}

fn line_note<T: OpText>(alloc: Global, mark: Mark, word: &str, rest: &str) -> Result<Note, NoMemory>
    ensures { IfOk result (λ n. n.mark ≡ mark) }
{
    let (_client, rest) = first_word(rest);
    let (id, rest) = first_word(rest);
    let mut text = Text::new(alloc);
    put_said(word, id, &mut text);
    match word {
        "accept" => put_result::<T>(alloc, &answer_of(alloc, rest)?, &mut text)?,
        "answer" => put_answered::<T>(alloc, rest, &mut text)?,
        _ => {}
    }
    note_of(mark, text)
}

/// The notes of the lines that have one.
fn line_notes<T: OpText>(alloc: Global, text: &str) -> Result<Vec<Note>, NoMemory>
    ensures { IfOk result (λ notes. All (λ n. IsOfClient n.mark) notes.items) }
{
    let mut notes = Vec::new(alloc);
    for line in text.lines() {
        let (word, rest) = first_word(line);
        if let Some(mark) = mark_of(word) {
            notes.push(line_note::<T>(alloc, mark, word, rest)?)?;
        }
    }
    Ok(notes)
}

/// What a client did, by the lines of an event.
pub fn read_lines<T: OpText>(alloc: Global, text: &[u8]) -> Result<Vec<Note>, NoMemory>
    ensures { IfOk result (λ notes. All (λ n. IsOfClient n.mark) notes.items) }
{
    match str::from_utf8(text) {
        Ok(text) => line_notes::<T>(alloc, text),
        Err(_) => Ok(Vec::new(alloc)),
    }
}
