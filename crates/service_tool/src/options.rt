//! The options before the command.

ghost use Rattle.std.specs.Prelude.{◌≡◌, ◌+◌, ◌<◌, ◌≤◌, ◌^◌, length, IfOk};
ghost use Rattle.service_tool.specs.Options.{is_flag, is_option, opening, options_in};
ghost use Rattle.service_tool.specs.Options.{has_replicas, with_flag};
ghost use Rattle.service_tool.specs.Options.{with_number, with_site, with_value};

use crate::reason::{Fault, Reason};
use line_fields::is_word;
use nop_types::{Bytes, MAX_OBSERVERS, MAX_SEQUENCERS};
use site_words::number_in;

/// What the options say.
#[derive(Clone, Copy, PartialEq, Eq)]
pub struct Options {
    /// The port of replica 0.
    pub base: u16,
    pub replicas: u8,
    pub sequencers: u8,
    /// The word that names a list of hosts, by its index.
    pub hosts: Option<usize>,
    /// The client's number.
    pub id: Option<u32>,
    /// The observer at whose place a state is awaited.
    pub observer: u8,
    /// The most turns of an op.
    pub turns: u64,
    /// Whether the slot of an op is written too.
    pub slot: bool,
    pub help: bool,
    pub version: bool,
}

/// Without options.
fn opening() -> Options
    ensures { result ≡ opening }
{
    Options {
        base: 41000,
        replicas: 3,
        sequencers: 2,
        hosts: None,
        id: None,
        observer: 0,
        turns: 10_000,
        slot: false,
        help: false,
        version: false,
    }
}

/// An option without a value.
fn is_flag(word: &[u8]) -> bool
    ensures { result ≡ is_flag word.now }
{
    is_word(word, "--slot") || is_word(word, "--help") || is_word(word, "--version")
}

/// Whether a word begins as an option does.
fn is_option(word: &[u8]) -> bool
    ensures { result ≡ is_option word.now }
{
    match word {
        [b'-', b'-', ..] => true,
        _ => false,
    }
}

fn with_flag(options: Options, word: &[u8]) -> Options
    ensures { result ≡ with_flag options word.now }
{
    if is_word(word, "--slot") {
        Options {
            slot: true,
            ..options
        }
    } else if is_word(word, "--help") {
        Options {
            help: true,
            ..options
        }
    } else {
        Options {
            version: true,
            ..options
        }
    }
}

fn has_replicas(n: u64) -> bool
    ensures { result ≡ has_replicas n }
{
    n == 1 || n == 3 || n == 5 || n == 7
}

/// The options of a service at ports, with a value; None where the value is wrong.
fn with_site(options: Options, word: &[u8], value: &[u8]) -> Result<Options, Reason>
    ensures { result ≡ with_site options word.now value.now }
{
    if is_word(word, "--base") {
        match number_in(1024, 65000, value) {
            Some(n) => Ok(Options {
                base: n as u16,
                ..options
            }),
            None => Err(Reason::BadBase),
        }
    } else if is_word(word, "--replicas") {
        match number_in(1, 7, value) {
            Some(n) if has_replicas(n) => Ok(Options {
                replicas: n as u8,
                ..options
            }),
            _ => Err(Reason::BadReplicas),
        }
    } else if is_word(word, "--sequencers") {
        match number_in(1, u64::from(MAX_SEQUENCERS), value) {
            Some(n) => Ok(Options {
                sequencers: n as u8,
                ..options
            }),
            None => Err(Reason::BadSequencers),
        }
    } else {
        Err(Reason::UnknownOption)
    }
}

/// The options of who asks, with a value.
fn with_number(options: Options, word: &[u8], value: &[u8]) -> Result<Options, Reason>
    ensures { result ≡ with_number options word.now value.now }
{
    if is_word(word, "--id") {
        match number_in(0, 4_294_967_295, value) {
            Some(n) => Ok(Options {
                id: Some(n as u32),
                ..options
            }),
            None => Err(Reason::BadId),
        }
    } else if is_word(word, "--turns") {
        match number_in(1, u64::MAX, value) {
            Some(n) => Ok(Options {
                turns: n,
                ..options
            }),
            None => Err(Reason::BadTurns),
        }
    } else if is_word(word, "--observer") {
        match number_in(0, u64::from(MAX_OBSERVERS) - 1, value) {
            Some(n) => Ok(Options {
                observer: n as u8,
                ..options
            }),
            None => Err(Reason::BadObserver),
        }
    } else {
        with_site(options, word, value)
    }
}

/// With the option at this index and its value behind it.
fn with_value(options: Options, at: usize, word: &[u8], value: &[u8]) -> Result<Options, Fault>
    requires { at + 1 < 2 ^ 64 }
    ensures { result ≡ with_value options at word.now value.now }
{
    if is_word(word, "--hosts") {
        return Ok(Options {
            hosts: Some(at + 1),
            ..options
        });
    }
    match with_number(options, word, value) {
        Ok(options) => Ok(options),
        Err(Reason::UnknownOption) => Err(Fault {
            reason: Reason::UnknownOption,
            at,
        }),
        Err(reason) => Err(Fault { reason, at: at + 1 }),
    }
}

/// What the options say, and the index of the first word that is none.
#[tactic(auto, using(crate::proofs::OptionLemmas::first_word))]
pub(crate) fn options_in(words: &[Bytes]) -> Result<(Options, usize), Fault>
    ensures options { result ≡ options_in opening 0 words.now }
    ensures within { IfOk result (λ p. p.1 ≤ length words.now) }
{
    let mut options = opening();
    let mut at = 0;
    let mut left = words;
    while let [word, others @ ..] = left {
        let word = word.as_slice();
        if is_flag(word) {
            options = with_flag(options, word);
            at += 1;
            left = others;
        } else if !is_option(word) {
            return Ok((options, at));
        } else {
            let [value, others @ ..] = others else {
                return Err(Fault {
                    reason: Reason::NoValue,
                    at,
                });
            };
            match with_value(options, at, word, value.as_slice()) {
                Ok(more) => options = more,
                Err(fault) => return Err(fault),
            }
            at += 2;
            left = others;
        }
    }
    Ok((options, at))
}
