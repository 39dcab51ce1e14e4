//! What is told of words that are not taken, and of what words there are.

ghost use Rattle.std.specs.Prelude.{◌≡◌, ◌++◌, IfOk, OnOk};
ghost use Rattle.std.specs.Option.{option_copied};
ghost use Rattle.std.specs.List.{flat_map, list_any};
ghost use Rattle.service_tool.specs.Telling.{fault_text, forms_of, front_text, help_text};
ghost use Rattle.service_tool.specs.Telling.{is_about, reason_line, row_text, rows_text};
ghost use Rattle.service_tool.specs.Telling.{texts_about, told_line, usage_text, usage_words};
ghost use Rattle.service_tool.specs.Telling.{version_text, versions, word_text};

use crate::reason::{Fault, Reason};
use nop_types::{Bytes, NoMemory};
use std::alloc::Global;

/// A word of a tool: how it is written with what follows it, and what it does.
#[derive(Clone, Copy)]
pub struct Row<'a> {
    pub word: &'a str,
    pub form: &'a str,
    pub about: &'a str,
}

/// A tool of a service: its name, and its words.
#[derive(Clone, Copy)]
pub struct Tool<'a> {
    pub program: &'a str,
    pub rows: &'a [Row<'a>],
}

fn is_about(word: &[u8], row: &Row<'_>) -> bool
    ensures { result ≡ is_about word.now row.now }
{
    row.word.as_bytes() == word
}

fn put_row(row: &Row<'_>, to: &mut Vec<u8>) -> Result<(), NoMemory>
    ensures { OnOk result (to.new.items ≡ to.old.items ++ row_text row.now) }
{
    to.extend_from_slice(b"  ")?;
    to.extend_from_slice(row.form.as_bytes())?;
    to.extend_from_slice(b": ")?;
    to.extend_from_slice(row.about.as_bytes())?;
    to.push(b'\n')?;
    Ok(())
}

fn put_rows(rows: &[Row<'_>], to: &mut Vec<u8>) -> Result<(), NoMemory>
    ensures { OnOk result (to.new.items ≡ to.old.items ++ flat_map row_text rows.now) }
{
    for row in rows {
        put_row(row, to)?;
    }
    Ok(())
}

fn put_row_about(word: &[u8], row: &Row<'_>, to: &mut Vec<u8>) -> Result<(), NoMemory>
    ensures { OnOk result (to.new.items ≡ to.old.items ++ texts_about word.now row.now) }
{
    if is_about(word, row) {
        put_row(row, to)?;
    }
    Ok(())
}

fn put_rows_about(word: &[u8], rows: &[Row<'_>], to: &mut Vec<u8>) -> Result<(), NoMemory>
    ensures { OnOk result (to.new.items
        ≡ to.old.items ++ flat_map (texts_about word.now) rows.now) }
{
    for row in rows {
        put_row_about(word, row, to)?;
    }
    Ok(())
}

fn is_among(word: &[u8], rows: &[Row<'_>]) -> bool
    ensures { result ≡ list_any (is_about word.now) rows.now }
{
    rows.iter().any(|row| is_about(word, row))
}

/// The rows about a word, or all where there is none.
fn put_help(word: Option<&Bytes>, rows: &[Row<'_>], to: &mut Vec<u8>) -> Result<(), NoMemory>
    ensures { OnOk result (to.new.items
        ≡ to.old.items ++ rows_text (option_copied word.entry) rows.now) }
{
    match word {
        Some(word) if is_among(word.as_slice(), rows) => put_rows_about(word.as_slice(), rows, to),
        _ => put_rows(rows, to),
    }
}

#[tactic(auto, unfolding(crate::specs::Telling::usage_words))]
fn put_usage_words(to: &mut Vec<u8>) -> Result<(), NoMemory>
    ensures { OnOk result (to.new.items ≡ to.old.items ++ usage_words) }
{
    to.extend_from_slice(b" [OPTION..] COMMAND [WORD..]\n")?;
    Ok(())
}

/// The first line of a help.
fn put_usage(program: &str, to: &mut Vec<u8>) -> Result<(), NoMemory>
    ensures { OnOk result (to.new.items ≡ to.old.items ++ usage_text program.now) }
{
    to.extend_from_slice(b"usage: ")?;
    to.extend_from_slice(program.as_bytes())?;
    put_usage_words(to)
}

/// What is told of the word with this index, or of all where there is no such word.
pub(crate) fn help(
    alloc: Global,
    tool: &Tool<'_>,
    words: &[Bytes],
    at: usize,
) -> Result<Vec<u8>, NoMemory>
    ensures { IfOk result (λ text. text.items ≡ help_text tool.now words.now at) }
{
    let mut text = Vec::new(alloc);
    put_usage(tool.program, &mut text)?;
    put_help(words.get(at), tool.rows, &mut text)?;
    Ok(text)
}

#[tactic(auto, unfolding(crate::specs::Telling::versions))]
fn put_versions(to: &mut Vec<u8>) -> Result<(), NoMemory>
    ensures { OnOk result (to.new.items ≡ to.old.items ++ versions) }
{
    to.extend_from_slice(b": datagrams of version 3\n")?;
    Ok(())
}

/// The versions of the formats.
pub(crate) fn version(alloc: Global, tool: &Tool<'_>) -> Result<Vec<u8>, NoMemory>
    ensures { IfOk result (λ text. text.items ≡ version_text tool.now) }
{
    let mut text = Vec::from_slice(alloc, tool.program.as_bytes())?;
    put_versions(&mut text)?;
    Ok(text)
}

/// A word before what is said of it.
fn put_word(word: Option<&Bytes>, to: &mut Vec<u8>) -> Result<(), NoMemory>
    ensures { OnOk result (to.new.items ≡ to.old.items ++ word_text (option_copied word.entry)) }
{
    if let Some(word) = word {
        to.extend_from_slice(word.as_slice())?;
        to.extend_from_slice(b": ")?;
    }
    Ok(())
}

/// How the words of an op are written, where there is none by this word.
fn put_forms(
    reason: Reason,
    word: Option<&Bytes>,
    rows: &[Row<'_>],
    to: &mut Vec<u8>,
) -> Result<(), NoMemory>
    ensures { OnOk result (to.new.items
        ≡ to.old.items ++ forms_of reason (option_copied word.entry) rows.now) }
{
    match (reason, word) {
        (Reason::BadOp, Some(word)) => put_rows_about(word.as_slice(), rows, to),
        _ => Ok(()),
    }
}

/// The program's name and the word.
#[tactic(auto, unfolding(crate::specs::Telling::front_text))]
fn put_front(program: &str, word: Option<&Bytes>, to: &mut Vec<u8>) -> Result<(), NoMemory>
    ensures { OnOk result (to.new.items
        ≡ to.old.items ++ front_text program.now (option_copied word.entry)) }
{
    to.extend_from_slice(program.as_bytes())?;
    to.extend_from_slice(b": ")?;
    put_word(word, to)
}

/// Why, as a line.
#[tactic(auto, unfolding(crate::specs::Telling::reason_line))]
fn put_reason(reason: Reason, to: &mut Vec<u8>) -> Result<(), NoMemory>
    ensures { OnOk result (to.new.items ≡ to.old.items ++ reason_line reason) }
{
    to.extend_from_slice(reason.text().as_bytes())?;
    to.push(b'\n')?;
    Ok(())
}

/// What is told of words that are not taken: the word, why, and how it is written.
pub(crate) fn fault(
    alloc: Global,
    tool: &Tool<'_>,
    words: &[Bytes],
    fault: Fault,
) -> Result<Vec<u8>, NoMemory>
    ensures { IfOk result (λ text. text.items ≡ fault_text tool.now words.now fault) }
{
    let mut text = Vec::new(alloc);
    put_front(tool.program, words.get(fault.at), &mut text)?;
    put_reason(fault.reason, &mut text)?;
    put_forms(fault.reason, words.get(fault.at), tool.rows, &mut text)?;
    Ok(text)
}

/// What is told of no word.
pub(crate) fn told_line(alloc: Global, program: &str, text: &str) -> Result<Vec<u8>, NoMemory>
    ensures { IfOk result (λ line. line.items ≡ told_line program.now text.now) }
{
    let mut line = Vec::from_slice(alloc, program.as_bytes())?;
    line.extend_from_slice(b": ")?;
    line.extend_from_slice(text.as_bytes())?;
    line.push(b'\n')?;
    Ok(line)
}
