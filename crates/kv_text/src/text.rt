//! From words to an op, and back.

ghost use Rattle.std.specs.Prelude.{◌≡◌, ◌∷◌, [], IfOk};
ghost use Rattle.std.specs.Option.{option_and_then};
ghost use Rattle.kv_host.specs.View as view;
ghost use Rattle.kv_spelling.specs.Spell.{spell};
ghost use Rattle.kv_text.specs.Text.{named, key_op, value_op, swap_op};
ghost use Rattle.kv_text.specs.Text.{op_of, words_in, words_of, result_words};
ghost use Rattle.op_text.specs.Words.{word_of};
ghost use Rattle.kv_text.specs.Laws.{reads_back};

use kv_host::{KvOp, read};
use kv_spelling::spell;
use line_fields::is_word;
use nop_types::{Bytes, NoMemory, Op};
use op_text::{OpText, Words, bytes_of};
use std::alloc::Global;

/// The text form of the key-value service.
pub struct KvText;

fn key_op(alloc: Global, word: &[u8], key: &[u8]) -> Result<Option<Op>, NoMemory>
    ensures { IfOk result (λ op. op ≡ option_and_then spell (key_op word.now key.now)) }
{
    if is_word(word, "get") {
        spell(alloc, KvOp::Get(key))
    } else if is_word(word, "delete") {
        spell(alloc, KvOp::Delete(key))
    } else {
        Ok(None)
    }
}

#[tactic(auto, unfolding(crate::specs::Text::named))]
fn with_key(alloc: Global, word: &Bytes, key: &Bytes) -> Result<Option<Op>, NoMemory>
    ensures { IfOk result (λ op. op ≡ op_of (word.now ∷ key.now ∷ [])) }
{
    match bytes_of(alloc, key.as_slice())? {
        Some(key) => key_op(alloc, word.as_slice(), key.as_slice()),
        None => Ok(None),
    }
}

fn value_op(alloc: Global, word: &[u8], key: &[u8], value: &[u8]) -> Result<Option<Op>, NoMemory>
    ensures { IfOk result (λ op. op
        ≡ option_and_then spell (value_op word.now key.now value.now)) }
{
    if is_word(word, "put") {
        spell(alloc, KvOp::Put(key, value))
    } else {
        Ok(None)
    }
}

#[tactic(auto, unfolding(crate::specs::Text::named))]
fn with_value(
    alloc: Global,
    word: &Bytes,
    key: &Bytes,
    value: &Bytes,
) -> Result<Option<Op>, NoMemory>
    ensures { IfOk result (λ op. op ≡ op_of (word.now ∷ key.now ∷ value.now ∷ [])) }
{
    let Some(key) = bytes_of(alloc, key.as_slice())? else {
        return Ok(None);
    };
    match bytes_of(alloc, value.as_slice())? {
        Some(value) => value_op(alloc, word.as_slice(), key.as_slice(), value.as_slice()),
        None => Ok(None),
    }
}

fn swap_op(
    alloc: Global,
    word: &[u8],
    key: &[u8],
    old: &[u8],
    new: &[u8],
) -> Result<Option<Op>, NoMemory>
    ensures { IfOk result (λ op. op
        ≡ option_and_then spell (swap_op word.now key.now old.now new.now)) }
{
    if is_word(word, "compare-and-set") || is_word(word, "swap") {
        spell(alloc, KvOp::Swap(key, old, new))
    } else {
        Ok(None)
    }
}

#[tactic(auto, unfolding(crate::specs::Text::named))]
fn with_values(
    alloc: Global,
    word: &Bytes,
    key: &Bytes,
    old: &Bytes,
    new: &Bytes,
) -> Result<Option<Op>, NoMemory>
    ensures { IfOk result (λ op.
        op ≡ op_of (word.now ∷ key.now ∷ old.now ∷ new.now ∷ [])) }
{
    let Some(key) = bytes_of(alloc, key.as_slice())? else {
        return Ok(None);
    };
    let Some(old) = bytes_of(alloc, old.as_slice())? else {
        return Ok(None);
    };
    match bytes_of(alloc, new.as_slice())? {
        Some(new) => swap_op(
            alloc,
            word.as_slice(),
            key.as_slice(),
            old.as_slice(),
            new.as_slice(),
        ),
        None => Ok(None),
    }
}

fn key_words(alloc: Global, word: &str, key: &[u8]) -> Result<Words, NoMemory>
    ensures { IfOk result (λ words. words ≡ word.now ∷ word_of key.now ∷ []) }
{
    let mut words = Words::new(alloc);
    words.put(word.as_bytes())?;
    words.put_bytes("", key)?;
    Ok(words)
}

fn value_words(alloc: Global, word: &str, key: &[u8], value: &[u8]) -> Result<Words, NoMemory>
    ensures { IfOk result (λ words. words
        ≡ word.now ∷ word_of key.now ∷ word_of value.now ∷ []) }
{
    let mut words = key_words(alloc, word, key)?;
    words.put_bytes("", value)?;
    Ok(words)
}

fn words_in(alloc: Global, op: KvOp<'_>) -> Result<Option<Words>, NoMemory>
    ensures { IfOk result (λ words. words ≡ words_in (view.op_of op.entry)) }
{
    match op {
        KvOp::Get(key) => Ok(Some(key_words(alloc, "get", key)?)),
        KvOp::Put(key, value) => Ok(Some(value_words(alloc, "put", key, value)?)),
        KvOp::Delete(key) => Ok(Some(key_words(alloc, "delete", key)?)),
        KvOp::Swap(key, old, new) => {
            let mut words = value_words(alloc, "compare-and-set", key, old)?;
            words.put_bytes("", new)?;
            Ok(Some(words))
        }
        KvOp::Bad => Ok(None),
    }
}

impl OpText for KvText {
    ghost op_of = { op_of };

    ghost words_of = { words_of };

    ghost result_words = { result_words };

    ghost reads_back = { reads_back };

    #[tactic(auto, unfolding(crate::specs::Text::named))]
    fn op(alloc: Global, words: &[Bytes]) -> Result<Option<Op>, NoMemory> {
        match words {
            [word, key] => with_key(alloc, word, key),
            [word, key, value] => with_value(alloc, word, key, value),
            [word, key, old, new] => with_values(alloc, word, key, old, new),
            _ => Ok(None),
        }
    }

    fn words(alloc: Global, op: &[u8]) -> Result<Option<Words>, NoMemory> {
        words_in(alloc, read(op))
    }

    fn result(alloc: Global, answer: &[u8]) -> Result<Words, NoMemory> {
        let mut words = Words::new(alloc);
        match answer {
            [b'=', value @ ..] => words.put_bytes("=", value)?,
            _ => words.put_bytes("", answer)?,
        }
        Ok(words)
    }
}
