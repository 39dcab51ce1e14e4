//! What the program's words ask for, and the words that ask the same of `commands`.

ghost use Rattle.std.specs.Prelude.{◌≡◌, [], ◌∷◌, ◌++◌, IfOk, OnOk, option_map};
ghost use Rattle.std.specs.Fmt.{decimal};
ghost use Rattle.command_line.specs.Commands.{texts_of};
ghost use Rattle.hosted.specs.Arguments.{asked_by, asked_of, option_words, own_words};

use crate::actors::command_of;
use nop_types::{Actor, NoMemory, number_of};
use std::alloc::Global;
use udp_node::Address;

/// What the program is asked for.
#[derive(Clone, Copy)]
pub(crate) struct Task<'a> {
    /// The file of the list of hosts.
    pub(crate) list: &'a str,
    /// The folder of marks.
    pub(crate) marks: Option<&'a str>,
    /// The name of an actor.
    pub(crate) actor: &'a str,
    /// Options and ops.
    pub(crate) rest: &'a [String],
}

/// What the words ask for; the first one is the program's name.
pub(crate) fn task_of(words: &[String]) -> Option<Task<'_>>
    ensures { option_map asked_of result ≡ asked_by (texts_of words.now) }
{
    match words {
        [_, list, option, folder, actor, rest @ ..] if option.as_str() == "--marks" => {
            Some(Task {
                list: list.as_str(),
                marks: Some(folder.as_str()),
                actor: actor.as_str(),
                rest,
            })
        }
        [_, list, actor, rest @ ..] => Some(Task {
            list: list.as_str(),
            marks: None,
            actor: actor.as_str(),
            rest,
        }),
        _ => None,
    }
}

/// Adds a word.
fn push(words: &mut Vec<String>, alloc: Global, word: &str) -> Result<(), NoMemory>
    ensures { OnOk result (texts_of words.new.items
        ≡ texts_of words.old.items ++ word.now ∷ []) }
{
    words.push(String::from_str(alloc, word)?)?;
    Ok(())
}

/// Adds a number in decimal.
fn push_number(words: &mut Vec<String>, alloc: Global, n: u32) -> Result<(), NoMemory>
    ensures { OnOk result (texts_of words.new.items
        ≡ texts_of words.old.items ++ decimal n ∷ []) }
{
    words.push(format!(in alloc; "{n}")?)?;
    Ok(())
}

/// Adds an option with a number.
fn push_option(words: &mut Vec<String>, alloc: Global, name: &str, n: u32) -> Result<(), NoMemory>
    ensures { OnOk result (texts_of words.new.items
        ≡ texts_of words.old.items ++ option_words name.now n) }
{
    push(words, alloc, name)?;
    push_number(words, alloc, n)
}

/// The command of the own actor of an address, with what the list says.
fn own_words(alloc: Global, at: &Address) -> Result<Vec<String>, NoMemory>
    ensures { IfOk result (λ words. texts_of words.items ≡ own_words at.now) }
{
    let config = at.config;
    let mut words = Vec::new(alloc);
    push(&mut words, alloc, "hosted")?;
    push(&mut words, alloc, command_of(at.own))?;
    push_option(&mut words, alloc, "--id", number_of(at.own))?;
    push_option(&mut words, alloc, "--base", u32::from(at.base.get()))?;
    push_option(
        &mut words,
        alloc,
        "--replicas",
        u32::from(config.replicas()),
    )?;
    push_option(
        &mut words,
        alloc,
        "--sequencers",
        u32::from(config.sequencers()),
    )?;
    if let Actor::Replica(_) = at.own {
        push_option(
            &mut words,
            alloc,
            "--observers",
            u32::from(config.observers()),
        )?;
    }
    Ok(words)
}

/// The words by which `commands` runs the own actor of an address: its command, and then the options and ops of the user.
pub(crate) fn words_of(
    alloc: Global,
    at: &Address,
    rest: &[String],
) -> Result<Vec<String>, NoMemory>
    ensures { IfOk result (λ words. texts_of words.items
        ≡ own_words at.now ++ texts_of rest.now) }
{
    let mut words = own_words(alloc, at)?;
    for word in rest {
        push(&mut words, alloc, word.as_str())?;
    }
    Ok(words)
}
