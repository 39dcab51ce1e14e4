//! The summary of a drawn schedule.

ghost use Rattle.std.specs.Prelude.{◌≡◌, ◌+◌, ◌++◌, IfOk, OnOk, length, count_by};
ghost use Rattle.world.specs.Parts.{parts_of};
ghost use Rattle.world.specs.WorldSteps.{main_view, main_log, history};
ghost use Rattle.replay.specs.Generated.{text_and_number, is_noop, gen_line, sends_line, view_line};
ghost use Rattle.replay.specs.Generated.{members_line, tally_text};
ghost use Rattle.transcript_text.specs.Transcript.{line_end};

use crate::generated::Counts;
use nop_types::{Entry, Host, NoMemory, View};
use transcript_text::put_number;
use world::{LogParts, World};

fn put_counted(text: &str, n: u64, to: &mut Vec<u8>) -> Result<(), NoMemory>
    ensures { OnOk result (to.new.items ≡ to.old.items ++ text_and_number text.now n) }
{
    to.extend_from_slice(text.as_bytes())?;
    put_number(n, to)
}

fn put_two(a: &str, m: u64, b: &str, n: u64, to: &mut Vec<u8>) -> Result<(), NoMemory>
    ensures { OnOk result (to.new.items
        ≡ to.old.items ++ (text_and_number a.now m ++ text_and_number b.now n)) }
{
    put_counted(a, m, to)?;
    put_counted(b, n, to)
}

fn put_pair(a: &str, m: u64, b: &str, n: u64, to: &mut Vec<u8>) -> Result<(), NoMemory>
    ensures { OnOk result (to.new.items
        ≡ to.old.items ++ (text_and_number a.now m ++ text_and_number b.now n ++ line_end)) }
{
    put_two(a, m, b, n, to)?;
    to.push(b'\n')?;
    Ok(())
}

#[tactic(auto, unfolding(crate::specs::Generated::gen_line))]
fn put_gen(number: u64, count: u32, to: &mut Vec<u8>) -> Result<(), NoMemory>
    ensures { OnOk result (to.new.items ≡ to.old.items ++ gen_line number count) }
{
    put_pair("gen ", number, " ", u64::from(count), to)
}

#[tactic(auto, unfolding(crate::specs::Generated::sends_line))]
fn put_sends(sends: u64, accepts: u64, to: &mut Vec<u8>) -> Result<(), NoMemory>
    ensures { OnOk result (to.new.items ≡ to.old.items ++ sends_line sends accepts) }
{
    put_pair("sends ", sends, " accepts ", accepts, to)
}

#[tactic(auto, unfolding(crate::specs::Generated::view_line))]
fn put_view(view: View, len: usize, noops: usize, to: &mut Vec<u8>) -> Result<(), NoMemory>
    ensures { OnOk result (to.new.items ≡ to.old.items ++ view_line view len noops) }
{
    let (leader, session) = (u64::from(view.leader), u64::from(view.session));
    put_two("view ", leader, " ", session, to)?;
    put_pair(" length ", len as u64, " noops ", noops as u64, to)
}

#[tactic(auto, unfolding(crate::specs::Generated::members_line))]
fn put_members(members: usize, to: &mut Vec<u8>) -> Result<(), NoMemory>
    ensures { OnOk result (to.new.items ≡ to.old.items ++ members_line members) }
{
    put_counted("history ", members as u64, to)?;
    to.push(b'\n')?;
    Ok(())
}

fn noops(entries: &[Entry]) -> usize
    ensures { result ≡ count_by is_noop entries.now }
{
    entries.iter().filter(|e| matches!(e, Entry::NoOp)).count()
}

/// A sum past its type answers NoMemory, since no memory holds that many entries.
fn added(a: usize, b: usize) -> Result<usize, NoMemory>
    ensures { IfOk result (λ n. n ≡ a + b) }
{
    match a.checked_add(b) {
        Some(n) => Ok(n),
        None => Err(NoMemory),
    }
}

#[tactic(auto, using(crate::proofs::Summaries::length_both))]
fn len_of(log: LogParts<'_>) -> Result<usize, NoMemory>
    ensures { IfOk result (λ n. n ≡ length (parts_of log.entry)) }
{
    added(log.synchronised.len(), log.kept.len())
}

#[tactic(auto, using(crate::proofs::Summaries::noops_both))]
fn noops_of(log: LogParts<'_>) -> Result<usize, NoMemory>
    ensures { IfOk result (λ n. n ≡ count_by is_noop (parts_of log.entry)) }
{
    added(noops(log.synchronised), noops(log.kept))
}

/// Appends the summary of a run.
#[tactic(auto, unfolding(crate::specs::Generated::tally_text))]
pub fn put_summary<H: Host>(
    number: u64,
    count: u32,
    world: &World<H>,
    counts: Counts,
    to: &mut Vec<u8>,
) -> Result<(), NoMemory>
    ensures { OnOk result (to.new.items ≡ to.old.items
        ++ tally_text number count world.now.state counts.sends counts.accepts) }
{
    let log = world.main_log();
    let (len, noops) = (len_of(log)?, noops_of(log)?);
    let history = world.history()?;
    put_gen(number, count, to)?;
    put_sends(counts.sends, counts.accepts, to)?;
    put_view(world.main_view(), len, noops, to)?;
    put_members(history.len(), to)
}
