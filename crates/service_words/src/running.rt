//! All lines of a source.

ghost use Rattle.std.specs.Prelude.{◌≡◌, ◌++◌, ◌∷◌, [], ◌≤◌, ◌<◌, ◌⊎◌, take, IfErr, IfOk, MatchBool};
ghost use Rattle.std.specs.Prelude.{OnErr, OnOk};
ghost use Rattle.std.specs.Io.KnownBytes.{Appends};
ghost use Rattle.line_reader.specs.Deciding.{cut_of};
ghost use Rattle.line_reader.specs.Reading.{IsFirst, Reaches, TakesFrom};
ghost use Rattle.nop_types.specs.declared.limits.TheConstants.{MAX_LINE_BYTES};
ghost use Rattle.outside.specs.Causes.{CountsFor};
ghost use Rattle.outside.specs.Prefixes.{AppendsPrefix};
ghost use Rattle.outside.specs.declared.errors.DeviceError.TheVariants as devices;
ghost use Rattle.service_words.specs.Lines.{texts, translated};
ghost use Rattle.service_words.specs.Translating.{Advances, Ends, IsNoLine, Puts};

use crate::direction::Direction;
use crate::error::WordsError;
use crate::limits::MAX_TEXT_LINES;
use crate::line::translated;
use crate::result_text::ResultText;
use line_reader::{FirstLine, LineReader, ReadError};
use nop_types::MAX_LINE_BYTES;
use op_text::OpText;
use outside::{Sink, Source, WriteError, write_all};
use std::alloc::Global;

fn next<S: Source>(lines: &mut LineReader, source: &mut S) -> Result<Option<FirstLine>, WordsError>
    ensures first { IfOk result (Reaches lines.new) }
    ensures takes { TakesFrom lines.old lines.new (S.left source.old) (S.left source.new) }
    ensures err { IfErr result (IsNoLine lines.new) }
    ensures count { CountsFor (S.fault_count source.old) (S.fault_count source.new)
        WordsError.ReadFault result }
{
    match lines.next_line(source) {
        Ok(first) => Ok(first),
        Err(ReadError::ReadFault) => Err(WordsError::ReadFault),
        Err(ReadError::NoMemory) => Err(WordsError::NoMemory),
    }
}

/// Whether a line behind so many is one too many, or too long.
pub fn is_too_much(before: u32, len: usize) -> bool
    ensures { MatchBool result
        ((MAX_TEXT_LINES ≤ before) ⊎ (MAX_LINE_BYTES < len))
        ((before < MAX_TEXT_LINES) × (len ≤ MAX_LINE_BYTES)) }
{
    before >= MAX_TEXT_LINES || len > MAX_LINE_BYTES
}

/// Writes bytes as a line.
#[tactic(auto, using(crate::proofs::LineLemmas::no_line))]
fn write_line<K: Sink>(alloc: Global, text: &[u8], sink: &mut K) -> Result<(), WriteError>
    ensures ok { OnOk result (Appends (K.held sink.old) (K.held sink.new) (text.now ++ 10 ∷ [])) }
    ensures err { OnErr result (AppendsPrefix (K.held sink.old) (K.held sink.new)
        (text.now ++ 10 ∷ [])) }
    ensures count { CountsFor (K.fault_count sink.old) (K.fault_count sink.new)
        devices.Failed result }
{
    let mut line = Vec::from_slice(alloc, text)?;
    line.push(b'\n')?;
    write_all(sink, &line)
}

/// Writes a line that is not too much.
#[tactic(auto, using(crate::proofs::LineLemmas::no_line))]
fn put_line<T: OpText, R: ResultText, K: Sink>(
    alloc: Global,
    direction: Direction,
    line: &[u8],
    sink: &mut K,
) -> Result<(), WriteError>
    ensures ok { let t = texts T.op_of T.words_of T.result_words R.result_of in
        OnOk result (Appends (K.held sink.old) (K.held sink.new)
        (translated t direction line.now ++ 10 ∷ [])) }
    ensures err { let t = texts T.op_of T.words_of T.result_words R.result_of in
        OnErr result (AppendsPrefix (K.held sink.old) (K.held sink.new)
        (translated t direction line.now ++ 10 ∷ [])) }
    ensures count { CountsFor (K.fault_count sink.old) (K.fault_count sink.new)
        devices.Failed result }
{
    match translated::<T, R>(alloc, direction, line) {
        Ok(text) => write_line(alloc, text.as_slice(), sink),
        Err(_) => Err(WriteError::NoMemory),
    }
}

/// Writes the next line, turned, and takes it.
fn put_next<T: OpText, R: ResultText, K: Sink>(
    alloc: Global,
    direction: Direction,
    lines: &mut LineReader,
    first: FirstLine,
    sink: &mut K,
) -> Result<(), WordsError>
    requires first { IsFirst lines.old first }
    requires most { lines.old.most ≡ MAX_TEXT_LINES }
    ensures advances { OnOk result (Advances lines.old lines.new first) }
    ensures puts { let t = texts T.op_of T.words_of T.result_words R.result_of in
        Puts (translated t direction) (K.held sink.old) (K.held sink.new) lines.old.line
        (cut_of first lines.old.pending) result }
    ensures count { CountsFor (K.fault_count sink.old) (K.fault_count sink.new)
        WordsError.WriteFault result }
{
    let before = lines.line();
    if is_too_much(before, first.len) {
        return Err(WordsError::Refused {
            line: before.saturating_add(1),
        });
    }
    put_line::<T, R, K>(alloc, direction, lines.text(first), sink)?;
    lines.take(first);
    Ok(())
}

/// Writes each line of the source in words, or in hexadecimal, as soon as it is there.
pub fn translate<T: OpText, R: ResultText, S: Source, K: Sink>(
    alloc: Global,
    direction: Direction,
    source: &mut S,
    sink: &mut K,
) -> Result<(), WordsError>
    ensures ends { let t = texts T.op_of T.words_of T.result_words R.result_of in
        Ends (translated t direction) (S.left source.old) (S.left source.new)
        (K.held sink.old) (K.held sink.new) result }
    ensures reads { CountsFor (S.fault_count source.old) (S.fault_count source.new)
        WordsError.ReadFault result }
    ensures writes { CountsFor (K.fault_count sink.old) (K.fault_count sink.new)
        WordsError.WriteFault result }
{
    let mut lines = LineReader::new(alloc, MAX_TEXT_LINES);
    loop {
        let Some(first) = next(&mut lines, source)? else {
            return Ok(());
        };
        put_next::<T, R, K>(alloc, direction, &mut lines, first, sink)?;
    }
}
