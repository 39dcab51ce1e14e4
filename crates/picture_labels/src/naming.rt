//! Short texts for what is in a picture.

ghost use Rattle.std.specs.Prelude.{◌≡◌, IfOk};

use nop_types::{Actor, Bytes, NoMemory, View};
use op_text::OpText;
use picture::{Mark, Note, Text};
use std::alloc::Global;

/// The most characters of one word of an op or a result.
const MAX_SHOWN: usize = 12;

/// A note with this text.
pub fn note_of(mark: Mark, text: Text) -> Result<Note, NoMemory>
    ensures { IfOk result (λ n. n.mark ≡ mark) }
{
    Ok(Note {
        mark,
        text: text.finish()?,
    })
}

/// A request by its client and its id.
pub fn put_request(client: u32, id: u64, to: &mut Text) {
    to.actor(Actor::Client(client));
    to.numbered("#", id);
}

/// A session by its count, behind its epoch and a point where that is not 0.
pub fn put_session(session: u64, to: &mut Text) {
    let epoch = session / 0x1_0000_0000;
    if epoch != 0 {
        to.number(epoch);
        to.put(".");
    }
    to.number(session % 0x1_0000_0000);
}

/// A view: its leader number and its session.
pub fn put_view(word: &str, view: View, to: &mut Text) {
    to.put(word);
    to.numbered("(", u64::from(view.leader));
    to.put(",");
    put_session(view.session, to);
    to.put(")");
}

/// Appends a character of a word; one that is not printable ASCII as a question mark.
fn put_character(b: u8, to: &mut Text) {
    to.character(if b.is_ascii_graphic() { b as char } else { '?' });
}

/// Appends as many characters as show, and dots where there are more.
fn put_prefix(characters: &[u8], to: &mut Text) {
    for b in characters.iter().take(MAX_SHOWN) {
        put_character(*b, to);
    }
    if characters.len() > MAX_SHOWN {
        to.put("..");
    }
}

/// Appends the front of a word; of one that begins with `0x` the digits alone.
fn put_word(word: &[u8], to: &mut Text) {
    match word {
        [b'0', b'x', digits @ ..] => put_prefix(digits, to),
        _ => put_prefix(word, to),
    }
}

/// Appends words, each after a space.
fn put_spaced(words: &[Bytes], to: &mut Text) {
    for word in words {
        to.put(" ");
        put_word(word.as_slice(), to);
    }
}

/// Appends the words of an op: the first one whole, since it says what the op does.
fn put_op_words(words: &[Bytes], to: &mut Text) {
    if let [name, fields @ ..] = words {
        for b in name.as_slice() {
            put_character(*b, to);
        }
        put_spaced(fields, to);
    }
}

fn hex_digit(n: u8) -> char {
    char::from_digit(u32::from(n), 16).unwrap_or('0')
}

fn put_hex(bytes: &[u8], to: &mut Text) {
    for b in bytes.iter().take(MAX_SHOWN / 2) {
        to.character(hex_digit(*b / 16));
        to.character(hex_digit(*b % 16));
    }
}

/// Appends the front of a key.
pub fn put_key(key: &[u8], to: &mut Text) {
    put_prefix(key, to);
}

/// Appends an op in the words of its service; of bytes that are none the first, in hexadecimal.
pub fn put_op<T: OpText>(alloc: Global, op: &[u8], to: &mut Text) -> Result<(), NoMemory> {
    match T::words(alloc, op)? {
        Some(words) => put_op_words(words.as_slice(), to),
        None => put_hex(op, to),
    }
    Ok(())
}

/// Appends a result after a space, in the words of its service.
pub fn put_result<T: OpText>(alloc: Global, answer: &[u8], to: &mut Text) -> Result<(), NoMemory> {
    put_spaced(T::result(alloc, answer)?.as_slice(), to);
    Ok(())
}
