//! What the words ask for.

ghost use Rattle.std.specs.Prelude.{◌≡◌, ◌+◌, ◌<◌, ◌^◌, IfOk, length};
ghost use Rattle.service_tool.specs.Asked.{asked_by, asked_of, command_of, is_turned, needs_id};
ghost use Rattle.service_tool.specs.Asked.{ends_in_help, lines_command, load_command, load_of, one_word, op_command};

use crate::options::{Options, options_in};
use crate::reason::{Fault, Reason};
use line_fields::is_word;
use nop_types::{Bytes, MAX_CLIENTS, NoMemory, Op};
use op_text::OpText;
use service_words::{Direction, direction_of};
use site_words::number_in;
use std::alloc::Global;

/// What a tool does.
#[derive(Drop)]
pub enum Command {
    /// What is written on the word with this index, or on all where there is no such word.
    Help(usize),
    Version,
    /// One op is executed.
    Execute(Op),
    /// Each line of the input is an op, and is executed.
    Repl,
    /// A state of the service is shown, as an observer sees it.
    Status,
    /// Through so many client numbers from the own one on, so many ops are executed.
    Load(u32, u64),
    /// The words from this index on are turned: an op into bytes, or bytes into words.
    Turn(usize),
    /// The lines of the input are written in words, or in hexadecimal.
    Lines(Direction),
}

/// A command, and what the options before it say.
#[derive(Drop)]
pub struct Asked {
    pub options: Options,
    pub command: Command,
}

/// Whether the word turns words and bytes into one another.
fn is_turned(word: &[u8]) -> bool
    ensures { result ≡ is_turned word.now }
{
    is_word(word, "op") || is_word(word, "text") || is_word(word, "result")
}

/// Whether the words are a command and the option `--help`.
fn ends_in_help(words: &[Bytes]) -> bool
    ensures { result ≡ ends_in_help words.now }
{
    match words {
        [_, last] => is_word(last.as_slice(), "--help"),
        _ => false,
    }
}

/// A command that is one word.
fn one_word(at: usize, words: &[Bytes], command: Command) -> Result<Command, Fault>
    requires { at + length words.now < 2 ^ 64 }
    ensures { result ≡ one_word at words.now command }
{
    match words {
        [_, _, ..] => Err(Fault {
            reason: Reason::ExtraWord,
            at: at + 1,
        }),
        _ => Ok(command),
    }
}

/// So many ops through so many clients.
fn load_of(at: usize, clients: &[u8], ops: &[u8]) -> Result<Command, Fault>
    requires { at + 2 < 2 ^ 64 }
    ensures { result ≡ load_of at clients.now ops.now }
{
    let Some(clients) = number_in(1, u64::from(MAX_CLIENTS), clients) else {
        return Err(Fault {
            reason: Reason::BadClients,
            at: at + 1,
        });
    };
    match number_in(1, 1_000_000_000, ops) {
        Some(ops) => Ok(Command::Load(clients as u32, ops)),
        None => Err(Fault {
            reason: Reason::BadOps,
            at: at + 2,
        }),
    }
}

/// The command `load`, with its two words.
fn load_command(at: usize, words: &[Bytes]) -> Result<Command, Fault>
    requires { at + length words.now < 2 ^ 64 }
    ensures { result ≡ load_command at words.now }
{
    match words {
        [_, clients, ops] => load_of(at, clients.as_slice(), ops.as_slice()),
        [_, _, _, _, ..] => Err(Fault {
            reason: Reason::ExtraWord,
            at: at + 3,
        }),
        _ => Err(Fault {
            reason: Reason::NoLoad,
            at,
        }),
    }
}

/// The command `words` that has this index, with the words behind it.
fn lines_command(at: usize, more: &[Bytes]) -> Result<Command, Fault>
    requires { at + length more.now < 2 ^ 64 }
    ensures { result ≡ lines_command at more.now }
{
    match direction_of(more) {
        Some(way) => Ok(Command::Lines(way)),
        None => Err(Fault {
            reason: Reason::ExtraWord,
            at: at + more.len(),
        }),
    }
}

fn op_command(at: usize, op: Option<Op>) -> Result<Command, Fault>
    ensures { result ≡ op_command at op }
{
    match op {
        Some(op) => Ok(Command::Execute(op)),
        None => Err(Fault {
            reason: Reason::BadOp,
            at,
        }),
    }
}

/// The command of words, the first of which has this index.
fn command_of<T: OpText>(
    alloc: Global,
    at: usize,
    words: &[Bytes],
) -> Result<Result<Command, Fault>, NoMemory>
    requires { at + length words.now < 2 ^ 64 }
    ensures { IfOk result (λ r. r ≡ command_of T.op_of at words.now) }
{
    let [word, more @ ..] = words else {
        return Ok(Err(Fault {
            reason: Reason::NoCommand,
            at,
        }));
    };
    if is_word(word.as_slice(), "repl") {
        return Ok(one_word(at, words, Command::Repl));
    }
    if is_word(word.as_slice(), "status") {
        return Ok(one_word(at, words, Command::Status));
    }
    if is_word(word.as_slice(), "load") {
        return Ok(load_command(at, words));
    }
    if is_word(word.as_slice(), "words") {
        return Ok(lines_command(at, more));
    }
    if is_turned(word.as_slice()) {
        return Ok(Ok(Command::Turn(at)));
    }
    Ok(op_command(at, T::op(alloc, words)?))
}

/// A command that submits ops has a client's number.
fn needs_id(options: Options, count: usize, command: Command) -> Result<Asked, Fault>
    ensures { result ≡ needs_id options count command }
{
    match command {
        Command::Execute(_) | Command::Repl | Command::Load(..) if options.id.is_none() => Err(
            Fault {
                reason: Reason::NoId,
                at: count,
            },
        ),
        _ => Ok(Asked { options, command }),
    }
}

/// What is asked for behind options, by the words from this index on, of so many in all.
fn asked_by<T: OpText>(
    alloc: Global,
    options: Options,
    at: usize,
    count: usize,
    words: &[Bytes],
) -> Result<Result<Asked, Fault>, NoMemory>
    requires { at + length words.now < 2 ^ 64 }
    ensures { IfOk result (λ r. r ≡ asked_by T.op_of options at count words.now) }
{
    if options.version {
        return Ok(Ok(Asked {
            options,
            command: Command::Version,
        }));
    }
    if options.help || ends_in_help(words) {
        return Ok(Ok(Asked {
            options,
            command: Command::Help(at),
        }));
    }
    match command_of::<T>(alloc, at, words)? {
        Ok(command) => Ok(needs_id(options, count, command)),
        Err(fault) => Ok(Err(fault)),
    }
}

/// What the words ask for.
pub fn asked_of<T: OpText>(alloc: Global, words: &[Bytes]) -> Result<Result<Asked, Fault>, NoMemory>
    ensures { IfOk result (λ r. r ≡ asked_of T.op_of words.now) }
{
    match options_in(words) {
        Ok((options, at)) => asked_by::<T>(alloc, options, at, words.len(), &words[at..]),
        Err(fault) => Ok(Err(fault)),
    }
}
