//! The program's command line, as clap takes it.

ghost use Rattle.std.specs.Prelude.{◌≡◌, IfOk, false, codes};
ghost use Rattle.clap.specs.Words.{app_of, rule_of, new_app, with_rule};
ghost use Rattle.clap.specs.declared.builder.command.Command.TheViews.{out-Command};
ghost use Rattle.command_line.specs.Program.{option_rule, flag_rule, value_rule, ops_rule};
ghost use Rattle.command_line.specs.Program.{program_app};
ghost use Rattle.command_line.specs.Rows.{HasApp, rule_for, with_words, row_app, with_row, with_rows};

use clap::{Arg, ArgAction, Command};
use std::alloc::{AllocError, Global};

/// What a command takes.
#[derive(Clone, Copy)]
enum Word<'a> {
    /// An option with a value.
    Required(&'a str),
    /// An option with a value, which may be left out.
    Optional(&'a str),
    /// An option without a value.
    Flag(&'a str),
    /// A value without a name.
    Value(&'a str),
    /// From 1 to 64 ops.
    Ops,
}

/// A command's name and what it takes: what it shares with others, and what is its own.
#[derive(Clone, Copy)]
struct Row<'a> {
    name: &'a str,
    shared: &'a [Word<'a>],
    own: &'a [Word<'a>],
}

/// The number of a replica, a sequencer, a controller, a client or an observer.
const ID: Word<'static> = Word::Required("id");

/// That a node writes a trace.
const TRACE: Word<'static> = Word::Flag("trace");

/// The options of a node and of a cluster.
const SITE: &[Word<'static>] = &[
    Word::Required("replicas"),
    Word::Required("sequencers"),
    Word::Optional("base"),
    Word::Optional("turns"),
];

/// The commands.
const COMMANDS: &[Row<'static>] = &[
    Row {
        name: "replay",
        shared: &[],
        own: &[],
    },
    Row {
        name: "gen",
        shared: &[],
        own: &[Word::Value("number"), Word::Value("count")],
    },
    Row {
        name: "node",
        shared: SITE,
        own: &[ID, TRACE, Word::Optional("observers")],
    },
    Row {
        name: "sequencer",
        shared: SITE,
        own: &[ID, TRACE],
    },
    Row {
        name: "controller",
        shared: SITE,
        own: &[ID, TRACE, Word::Optional("install")],
    },
    Row {
        name: "client",
        shared: SITE,
        own: &[ID, TRACE, Word::Ops],
    },
    Row {
        name: "cluster",
        shared: SITE,
        own: &[Word::Required("clients"), Word::Ops],
    },
    Row {
        name: "check",
        shared: &[],
        own: &[],
    },
    Row {
        name: "observer",
        shared: SITE,
        own: &[ID, TRACE],
    },
    Row {
        name: "read",
        shared: SITE,
        own: &[
            ID,
            TRACE,
            Word::Required("observer"),
            Word::Optional("position"),
            Word::Value("key"),
        ],
    },
    Row {
        name: "audit",
        shared: &[],
        own: &[],
    },
];

fn option<'a>(alloc: Global, name: &'a str, required: bool) -> Arg<'a>
    ensures rule { rule_of result ≡ option_rule name.entry.now required }
    ensures local { result.global ≡ false }
{
    Arg::new(alloc, name).long(name).required(required)
}

fn flag<'a>(alloc: Global, name: &'a str) -> Arg<'a>
    ensures rule { rule_of result ≡ flag_rule name.entry.now }
    ensures local { result.global ≡ false }
{
    Arg::new(alloc, name).long(name).action(ArgAction::SetTrue)
}

fn value<'a>(alloc: Global, name: &'a str) -> Arg<'a>
    ensures rule { rule_of result ≡ value_rule name.entry.now }
    ensures local { result.global ≡ false }
{
    Arg::new(alloc, name).required(true)
}

fn ops<'a>(alloc: Global) -> Arg<'a>
    ensures rule { rule_of result ≡ ops_rule }
    ensures local { result.global ≡ false }
{
    Arg::new(alloc, "ops").required(true).num_args(1..=64usize)
}

fn arg<'a>(alloc: Global, word: Word<'a>) -> Arg<'a>
    ensures rule { rule_of result ≡ rule_for word.entry }
    ensures local { result.global ≡ false }
{
    match word {
        Word::Required(name) => option(alloc, name, true),
        Word::Optional(name) => option(alloc, name, false),
        Word::Flag(name) => flag(alloc, name),
        Word::Value(name) => value(alloc, name),
        Word::Ops => ops(alloc),
    }
}

fn with_word<'a>(
    alloc: Global,
    command: Command<'a>,
    word: Word<'a>,
) -> Result<Command<'a>, AllocError>
    requires { (out-Command command).has_globals ≡ false }
    ensures { IfOk result (HasApp (with_rule (app_of command.entry) (rule_for word.entry))) }
{
    command.arg(arg(alloc, word))
}

fn with_words<'a>(
    alloc: Global,
    command: Command<'a>,
    words: &[Word<'a>],
) -> Result<Command<'a>, AllocError>
    requires { (out-Command command).has_globals ≡ false }
    ensures { IfOk result (HasApp (with_words (app_of command.entry) words.now)) }
{
    let mut command = command;
    for word in words {
        match with_word(alloc, command, *word) {
            Ok(more) => command = more,
            Err(e) => return Err(e),
        }
    }
    Ok(command)
}

fn command<'a>(alloc: Global, row: Row<'a>) -> Result<Command<'a>, AllocError>
    ensures { IfOk result (HasApp (row_app row.entry)) }
{
    match with_words(alloc, Command::new(alloc, row.name), row.shared) {
        Ok(command) => with_words(alloc, command, row.own),
        Err(e) => Err(e),
    }
}

fn with_row<'a>(
    alloc: Global,
    program: Command<'a>,
    row: Row<'a>,
) -> Result<Command<'a>, AllocError>
    requires { (out-Command program).has_globals ≡ false }
    ensures { IfOk result (HasApp (with_row (app_of program.entry) row.entry)) }
{
    match command(alloc, row) {
        Ok(command) => program.subcommand(command),
        Err(e) => Err(e),
    }
}

fn with_rows<'a>(alloc: Global, name: &'a str, rows: &[Row<'a>]) -> Result<Command<'a>, AllocError>
    ensures { IfOk result (HasApp (with_rows (new_app name.entry.now) rows.now)) }
{
    let mut program = Command::new(alloc, name);
    for row in rows {
        match with_row(alloc, program, *row) {
            Ok(more) => program = more,
            Err(e) => return Err(e),
        }
    }
    Ok(program)
}

/// The program, with a subcommand for each command.
pub(crate) fn program<'a>(alloc: Global) -> Result<Command<'a>, AllocError>
    ensures { IfOk result (HasApp program_app) }
{
    with_rows(alloc, "nopaxos", COMMANDS)
}
