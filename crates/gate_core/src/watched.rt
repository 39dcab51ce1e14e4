//! What the watch of a gateway takes, and what is replied of it.

ghost use Rattle.std.specs.Prelude.{◌≡◌, ◌∷◌, ◌++◌, [], option_map, OnOk};
ghost use Rattle.watching.specs.Turns.{heard, turned};
ghost use Rattle.gate_core.specs.Gates.{info, shown_by, turned_by};
ghost use Rattle.gate_core.specs.declared.act.Act.TheVariants as acts_are;

use crate::act::Act;
use crate::replying::put_answer;
use nop_types::{Bytes, NoMemory};
use resp::Reply;
use std::alloc::Global;
use watching::{Watch, put_last_lines};

/// What a gateway says of itself: the field by which clients tell servers apart.
const MODE: &[u8; 23] = b"redis_mode:standalone\r\n";

fn hear(watch: &mut Watch, now: u64, datagram: Option<&Bytes>) -> Result<(), NoMemory>
    ensures { OnOk result (watch.new
        ≡ (heard watch.old now (option_map (λ d. d.now) datagram.entry)).0) }
{
    if let Some(bytes) = datagram {
        watch.hear(now, bytes.as_slice())?;
    }
    Ok(())
}

fn turn(watch: &mut Watch, now: u64, datagram: Option<&Bytes>) -> Result<(), NoMemory>
    ensures { OnOk result (watch.new ≡ turned watch.old
        (record { now = now; datagram = option_map (λ d. d.now) datagram.entry })) }
{
    hear(watch, now, datagram)?;
    watch.round(now);
    watch.tick(now);
    Ok(())
}

/// A turn of the watch, if there is one.
pub(crate) fn take_turn(
    watch: &mut Option<Watch>,
    now: u64,
    datagram: Option<&Bytes>,
) -> Result<(), NoMemory>
    ensures { OnOk result (watch.new ≡ turned_by watch.old
        (record { now = now; datagram = option_map (λ d. d.now) datagram.entry })) }
{
    match watch {
        Some(watch) => turn(watch, now, datagram),
        None => Ok(()),
    }
}

fn put_shown(watch: &Option<Watch>, to: &mut Vec<u8>) -> Result<(), NoMemory>
    ensures { OnOk result (to.new.items ≡ to.old.items ++ shown_by watch.now) }
{
    match watch {
        Some(watch) => put_last_lines(watch, to),
        None => Ok(()),
    }
}

/// The user is replied what the watch shows.
pub(crate) fn put_info(
    alloc: Global,
    user: u64,
    watch: &Option<Watch>,
    acts: &mut Vec<Act>,
) -> Result<(), NoMemory>
    ensures { OnOk result (acts.new.items
        ≡ acts.old.items ++ acts_are.Reply user (info watch.now) ∷ []) }
{
    let mut text = Vec::new(alloc);
    text.extend_from_slice(MODE)?;
    put_shown(watch, &mut text)?;
    put_answer(alloc, user, Reply::Bulk(&text), acts)
}
