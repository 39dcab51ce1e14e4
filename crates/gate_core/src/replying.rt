//! What is done for users, one act after the other.

ghost use Rattle.std.specs.Prelude.{◌≡◌, ◌∷◌, ◌++◌, [], IfOk, OnOk};
ghost use Rattle.resp.specs.Replies.{reply_bytes};
ghost use Rattle.gate_core.specs.declared.act.Act.TheVariants as acts_are;

use crate::act::Act;
use nop_types::{Bytes, NoMemory};
use resp::{Reply, put_reply};
use std::alloc::Global;

/// The bytes of a reply.
fn bytes_of(alloc: Global, reply: Reply<'_>) -> Result<Bytes, NoMemory>
    ensures { IfOk result (λ b. b ≡ reply_bytes reply.entry) }
{
    let mut bytes = Vec::new(alloc);
    put_reply(reply, &mut bytes)?;
    Ok(Bytes::from_vec(bytes))
}

pub(crate) fn put_act(acts: &mut Vec<Act>, act: Act) -> Result<(), NoMemory>
    ensures { OnOk result (acts.new.items ≡ acts.old.items ++ act ∷ []) }
{
    acts.push(act)?;
    Ok(())
}

/// The user is replied to.
pub(crate) fn put_answer(
    alloc: Global,
    user: u64,
    reply: Reply<'_>,
    acts: &mut Vec<Act>,
) -> Result<(), NoMemory>
    ensures { OnOk result (acts.new.items
        ≡ acts.old.items ++ acts_are.Reply user (reply_bytes reply.entry) ∷ []) }
{
    let bytes = bytes_of(alloc, reply)?;
    put_act(acts, Act::Reply { user, bytes })
}

/// The user is replied to, and its connection ends.
pub(crate) fn put_end(
    alloc: Global,
    user: u64,
    reply: Reply<'_>,
    acts: &mut Vec<Act>,
) -> Result<(), NoMemory>
    ensures { OnOk result (acts.new.items ≡ acts.old.items
        ++ acts_are.Reply user (reply_bytes reply.entry) ∷ acts_are.Close user ∷ []) }
{
    put_answer(alloc, user, reply, acts)?;
    put_act(acts, Act::Close { user })
}
