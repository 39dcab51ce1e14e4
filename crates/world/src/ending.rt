ghost use Rattle.std.specs.Prelude.{◌≡◌, ◌+◌, ◌++◌, IfOk, OnOk, OnErr};
ghost use Rattle.nop_types.specs.Lists.{IsPrefixOf};
ghost use Rattle.transcript_text.specs.Transcript.{history_line};
ghost use Rattle.world.specs.Ending.{history_text, final_text};

use crate::World;
use nop_types::{Host, NoMemory, Request};
use transcript_text::{end_line, history_line};

/// The number of a member of the history; a number past its type answers NoMemory, since no memory holds that many.
fn numbered(i: usize) -> Result<u32, NoMemory>
    ensures { IfOk result (λ n. n ≡ i + 1) }
{
    if i >= u32::MAX as usize {
        return Err(NoMemory);
    }
    Ok(i as u32 + 1)
}

/// Appends the line of a member of the history.
fn member_line(i: usize, request: &Request, to: &mut Vec<u8>) -> Result<(), NoMemory>
    ensures ok { OnOk result (to.new.items ≡ to.old.items ++ history_line (i + 1) request.now) }
    ensures err { OnErr result (to.new.items ≡ to.old.items) }
{
    history_line(numbered(i)?, request, to)
}

/// Appends the lines of the history. After an error some of them stand there.
fn history_lines(requests: &[Request], to: &mut Vec<u8>) -> Result<(), NoMemory>
    ensures ok { OnOk result (to.new.items ≡ to.old.items ++ history_text 1 requests.now) }
    ensures err { OnErr result (IsPrefixOf to.old.items to.new.items) }
{
    for (i, request) in requests.iter().enumerate() {
        member_line(i, request, to)?;
    }
    Ok(())
}

/// Appends the lines at the end of the input: replicas, entries, observers, history, end. After an error some of them stand there.
#[tactic(auto, unfolding(crate::specs::Ending::final_text))]
fn put_final<H: Host>(world: &World<H>, to: &mut Vec<u8>) -> Result<(), NoMemory>
    ensures ok { OnOk result (to.new.items ≡ to.old.items ++ final_text world.now.state) }
    ensures err { OnErr result (IsPrefixOf to.old.items to.new.items) }
{
    let history = world.history()?;
    world.replica_lines(to)?;
    world.observer_lines(to)?;
    history_lines(&history, to)?;
    end_line(to)
}

/// Appends the lines at the end of the input, or nothing.
pub fn final_lines<H: Host>(world: &World<H>, to: &mut Vec<u8>) -> Result<(), NoMemory>
    ensures ok { OnOk result (to.new.items ≡ to.old.items ++ final_text world.now.state) }
    ensures err { OnErr result (to.new.items ≡ to.old.items) }
{
    let len = to.len();
    let done = put_final(world, to);
    if done.is_err() {
        to.truncate(len);
    }
    done
}
