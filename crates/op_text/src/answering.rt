//! What the programs answer that turn words into ops, and ops and results into words.

ghost use Rattle.std.specs.Prelude.{◌≡◌, ◌∷◌, [], ◌++◌, IfOk, OnErr, OnOk};
ghost use Rattle.std.specs.Option.{unwrap_or};
ghost use Rattle.hex.specs.Hex.{encode_lower};
ghost use Rattle.std.specs.Io.KnownBytes.{Appends};
ghost use Rattle.outside.specs.Causes.{CountsFor};
ghost use Rattle.outside.specs.Prefixes.{AppendsPrefix};
ghost use Rattle.op_text.specs.Answers.{op_answer, text_answer, result_answer, by_digits};
ghost use Rattle.op_text.specs.Answers.{answer_of, status_of};
ghost use Rattle.outside.specs.declared.errors.DeviceError.TheVariants as devices;

use crate::op_text::OpText;
use crate::word::decoded;
use crate::words::Words;
use line_fields::is_word;
use nop_types::{Bytes, NoMemory};
use outside::{Sink, WriteError, write_all};
use std::alloc::Global;

/// How such a program ends; the number is its exit status, as that of `nopaxos`.
#[derive(Clone, Copy, PartialEq, Eq)]
pub enum Status {
    /// The answer was written.
    Done = 0,
    /// The arguments are none of these, or name no op: the usage line was written.
    Usage = 2,
    WriteFault = 4,
    NoMemory = 6,
}

fn in_hex(alloc: Global, bytes: &[u8]) -> Result<Bytes, NoMemory>
    ensures { IfOk result (λ text. text ≡ encode_lower bytes.now) }
{
    let digits = hex::encode(alloc, bytes)?;
    Bytes::new(alloc, digits.as_bytes())
}

fn op_answer<T: OpText>(alloc: Global, words: &[Bytes]) -> Result<Option<Bytes>, NoMemory>
    ensures { IfOk result (λ line. line ≡ op_answer T.op_of words.now) }
{
    match T::op(alloc, words)? {
        Some(op) => Ok(Some(in_hex(alloc, op.as_slice())?)),
        None => Ok(None),
    }
}

fn text_answer<T: OpText>(alloc: Global, digits: &[u8]) -> Result<Option<Bytes>, NoMemory>
    ensures { IfOk result (λ line. line ≡ text_answer T.words_of digits.now) }
{
    let Some(op) = decoded(alloc, digits)? else {
        return Ok(None);
    };
    match T::words(alloc, op.as_slice())? {
        Some(words) => Ok(Some(Bytes::from_vec(words.text()?))),
        None => Ok(None),
    }
}

fn result_answer<T: OpText>(alloc: Global, digits: &[u8]) -> Result<Option<Bytes>, NoMemory>
    ensures { IfOk result (λ line. line ≡ result_answer T.result_words digits.now) }
{
    match decoded(alloc, digits)? {
        Some(result) => {
            let words = T::result(alloc, result.as_slice())?;
            Ok(Some(Bytes::from_vec(words.text()?)))
        }
        None => Ok(None),
    }
}

fn by_digits<T: OpText>(
    alloc: Global,
    command: &[u8],
    words: &[Bytes],
) -> Result<Option<Bytes>, NoMemory>
    ensures { IfOk result (λ line. line
        ≡ by_digits T.words_of T.result_words command.now words.now) }
{
    let [digits] = words else {
        return Ok(None);
    };
    if is_word(command, "text") {
        return text_answer::<T>(alloc, digits.as_slice());
    }
    if is_word(command, "result") {
        return result_answer::<T>(alloc, digits.as_slice());
    }
    Ok(None)
}

/// The answer to arguments; None where they ask for nothing, or name no op.
fn answer<T: OpText>(alloc: Global, arguments: &[Bytes]) -> Result<Option<Bytes>, NoMemory>
    ensures { IfOk result (λ line. line
        ≡ answer_of T.op_of T.words_of T.result_words arguments.now) }
{
    let [command, words @ ..] = arguments else {
        return Ok(None);
    };
    let command = command.as_slice();
    if is_word(command, "op") {
        return op_answer::<T>(alloc, words);
    }
    by_digits::<T>(alloc, command, words)
}

#[tactic(auto, using(crate::proofs::LineLemmas::no_line))]
fn write_line<K: Sink>(alloc: Global, line: &[u8], sink: &mut K) -> Result<(), WriteError>
    ensures ok { OnOk result (Appends (K.held sink.old) (K.held sink.new) (line.now ++ 10 ∷ [])) }
    ensures err { OnErr result (AppendsPrefix (K.held sink.old) (K.held sink.new)
        (line.now ++ 10 ∷ [])) }
    ensures count { CountsFor (K.fault_count sink.old) (K.fault_count sink.new)
        devices.Failed result }
{
    let mut text = Vec::from_slice(alloc, line)?;
    text.push(b'\n')?;
    write_all(sink, &text)
}

/// Writes the answer to arguments, or the usage line where there is none.
#[tactic(auto, using(crate::proofs::LineLemmas::no_line))]
pub fn run<T: OpText, K: Sink>(
    alloc: Global,
    usage: &str,
    arguments: &Words,
    sink: &mut K,
) -> Result<Status, WriteError>
    ensures status { IfOk result (λ s. s
        ≡ status_of (answer_of T.op_of T.words_of T.result_words arguments.now)) }
    ensures written { let answer = answer_of T.op_of T.words_of T.result_words arguments.now in
        OnOk result (Appends (K.held sink.old) (K.held sink.new)
        (unwrap_or answer usage.now ++ 10 ∷ [])) }
    ensures prefix { let answer = answer_of T.op_of T.words_of T.result_words arguments.now in
        OnErr result (AppendsPrefix (K.held sink.old) (K.held sink.new)
        (unwrap_or answer usage.now ++ 10 ∷ [])) }

    // `Failed` comes exactly where a write failed.
    ensures count { CountsFor (K.fault_count sink.old) (K.fault_count sink.new)
        devices.Failed result }
{
    match answer::<T>(alloc, arguments.as_slice())? {
        Some(line) => {
            write_line(alloc, line.as_slice(), sink)?;
            Ok(Status::Done)
        }
        None => {
            write_line(alloc, usage.as_bytes(), sink)?;
            Ok(Status::Usage)
        }
    }
}
