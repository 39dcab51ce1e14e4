//! The ops of the lock service, read from the bytes that spell them.
ghost use Rattle.std.specs.Prelude.{◌≡◌};
ghost use Rattle.lock_host.specs.Op.{at_end, read_acquire, read_release, read_inspect, read_op};

use crate::fields::name;
use crate::name::Name;
use saved_fields::number;

/// The first byte of an acquire.
pub const ACQUIRE: u8 = b'A';

/// The first byte of a release.
pub const RELEASE: u8 = b'R';

/// The first byte of an inspect.
pub const INSPECT: u8 = b'I';

// A byte that both code and definitions name would be proved whatever it was; so here each stands
// once more.
const _: () = prove!(ACQUIRE == 0x41 && RELEASE == 0x52 && INSPECT == 0x49);

/// An op as it was read.
#[derive(Drop)]
pub enum LockOp {
    /// Of a lock and who wants it.
    Acquire(Name, Name),
    /// Of a lock, who holds it, and the token of the grant.
    Release(Name, Name, u64),
    /// Of a lock.
    Inspect(Name),
    /// Bytes that spell no op.
    Bad,
}

/// The op, where nothing follows.
fn at_end(rest: &[u8], op: LockOp) -> Option<LockOp>
    ensures { result ≡ at_end rest.now op }
{
    if rest.is_empty() { Some(op) } else { None }
}

#[tactic(auto, unfolding(crate::specs::Op::read_acquire))]
fn acquire(fields: &[u8]) -> Option<LockOp>
    ensures { result ≡ read_acquire fields.now }
{
    let (name_of, rest) = name(fields)?;
    let (owner, rest) = name(rest)?;
    at_end(rest, LockOp::Acquire(name_of, owner))
}

#[tactic(auto, unfolding(crate::specs::Op::read_release))]
fn release(fields: &[u8]) -> Option<LockOp>
    ensures { result ≡ read_release fields.now }
{
    let (name_of, rest) = name(fields)?;
    let (owner, rest) = name(rest)?;
    let (token, rest) = number(rest)?;
    at_end(rest, LockOp::Release(name_of, owner, token))
}

#[tactic(auto, unfolding(crate::specs::Op::read_inspect))]
fn inspect(fields: &[u8]) -> Option<LockOp>
    ensures { result ≡ read_inspect fields.now }
{
    let (name, rest) = name(fields)?;
    at_end(rest, LockOp::Inspect(name))
}

/// The op that the bytes spell.
#[tactic(auto, unfolding(crate::specs::Op::read_op))]
pub fn read(op: &[u8]) -> LockOp
    ensures { result ≡ read_op op.now }
{
    let read = match op {
        [ACQUIRE, fields @ ..] => acquire(fields),
        [RELEASE, fields @ ..] => release(fields),
        [INSPECT, fields @ ..] => inspect(fields),
        _ => None,
    };
    read.unwrap_or(LockOp::Bad)
}
