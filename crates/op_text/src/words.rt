//! A list of words.

ghost use Rattle.std.specs.Prelude.{◌≡◌, ◌∷◌, [], ◌++◌, decimal, drop, map, string_bytes, IfOk, OnOk};
ghost use Rattle.std.specs.List.{flat_map};
ghost use Rattle.op_text.specs.Words.{after_space, text_of, word_of};

use crate::word::put_word_of;
use nop_types::{Bytes, NoMemory};
use std::alloc::Global;
use std::marker::Model;

/// Words in order, seen as the list of their bytes.
#[derive(Drop)]
pub struct Words {
    words: Vec<Bytes>,
}

impl Model for Words {
    ghost use Rattle.std.specs.Prelude.{List, ℕ};

    ghost Value = { List (List ℕ) };

    ghost view = { λ w. w.words.items };
}

impl Words {
    pub fn new(alloc: Global) -> Words
        ensures { result ≡ [] }
    {
        Words {
            words: Vec::new(alloc),
        }
    }

    /// The arguments of a program, without its name.
    pub fn of_arguments(alloc: Global, arguments: &[String]) -> Result<Words, NoMemory>
        ensures { IfOk result (λ words. words ≡ drop 1 (map string_bytes arguments.now)) }
    {
        let mut words = Words::new(alloc);
        if let [_program, texts @ ..] = arguments {
            put_texts(texts, &mut words)?;
        }
        Ok(words)
    }

    /// Appends a word as it stands.
    pub fn put(&mut self, word: &[u8]) -> Result<(), NoMemory>
        ensures { OnOk result (self.new ≡ self.old ++ word.now ∷ []) }
    {
        let word = Bytes::new(*self.words.allocator(), word)?;
        self.words.push(word)?;
        Ok(())
    }

    /// Appends the word for these bytes, after some characters of its own.
    pub fn put_bytes(&mut self, prefix: &str, bytes: &[u8]) -> Result<(), NoMemory>
        ensures { OnOk result (self.new ≡ self.old ++ (prefix.now ++ word_of bytes.now) ∷ []) }
    {
        let alloc = *self.words.allocator();
        let mut word = Vec::from_slice(alloc, prefix.as_bytes())?;
        put_word_of(alloc, bytes, &mut word)?;
        self.words.push(Bytes::from_vec(word))?;
        Ok(())
    }

    /// Appends a number in decimal.
    pub fn put_number(&mut self, n: u64) -> Result<(), NoMemory>
        ensures { OnOk result (self.new ≡ self.old ++ decimal n ∷ []) }
    {
        let mut buffer = itoa::Buffer::new();
        self.put(buffer.format(n).as_bytes())
    }

    pub fn as_slice(&self) -> &[Bytes]
        ensures { result.now ≡ self.now }
    {
        &self.words
    }

    /// The words, with a space between each and the next.
    pub fn text(&self) -> Result<Vec<u8>, NoMemory>
        ensures { IfOk result (λ text. text.items ≡ text_of self.now) }
    {
        let mut text = Vec::new(*self.words.allocator());
        if let [first, others @ ..] = self.as_slice() {
            text.extend_from_slice(first.as_slice())?;
            put_spaced(others, &mut text)?;
        }
        Ok(text)
    }
}

/// Appends each text as a word.
fn put_texts(texts: &[String], to: &mut Words) -> Result<(), NoMemory>
    ensures { OnOk result (to.new ≡ to.old ++ map string_bytes texts.now) }
{
    for text in texts {
        to.put(text.as_bytes())?;
    }
    Ok(())
}

/// Appends each word after a space.
fn put_spaced(words: &[Bytes], to: &mut Vec<u8>) -> Result<(), NoMemory>
    ensures { OnOk result (to.new.items ≡ to.old.items ++ flat_map after_space words.now) }
{
    for word in words {
        to.push(b' ')?;
        to.extend_from_slice(word.as_slice())?;
    }
    Ok(())
}
