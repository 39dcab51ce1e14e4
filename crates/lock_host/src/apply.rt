//! What each op of the lock service answers and changes, and how it is undone.
ghost use Rattle.std.specs.Prelude.{◌≡◌, ◌≤◌, length, Some, IfOk, OnErr};
ghost use Rattle.lock_host.specs.Done.{IsStep};
ghost use Rattle.lock_host.specs.Locks.{says, granted_at, grant, acquire, holds, release, step};
ghost use Rattle.lock_host.specs.Locks.{undone, holder_text, found};

use crate::answers::{granted, held, holder_text};
use crate::lock::Lock;
use crate::locks::{LAST_TOKEN, LockTable};
use crate::name::Name;
use crate::op::LockOp;
use crate::undo::LockUndo;
use nop_types::{Bytes, NoMemory};

/// What an op answers, and what takes it back.
pub type Done = Result<(Bytes, LockUndo), NoMemory>;

/// An answer of an op that changes nothing.
fn say(table: &LockTable, answer: &[u8]) -> Done
    requires { length answer.now ≤ 15 }
    ensures { IfOk result (λ r. IsStep r.0 table.now r.1 (says table.now answer.now)) }
{
    Ok((Bytes::new(table.alloc(), answer)?, LockUndo::Nothing))
}

/// Grants a lock at a free place, or at a new one.
fn grant_at(table: &mut LockTable, lock: Lock, place: Option<usize>) -> Done
    ensures done { IfOk result (λ r. IsStep r.0 table.new r.1
        (granted_at table.old lock place)) }
    ensures err { OnErr result (table.new ≡ table.old) }
{
    let last = table.last();
    let token = lock.token;
    let answer = granted(table.alloc(), token)?;
    if let Some(i) = place {
        table.write(i, Some(lock), token);
        return Ok((answer, LockUndo::Back(i, None, last)));
    }
    if !table.has_room() {
        return say(table, b"full");
    }
    table.add(Some(lock), token)?;
    Ok((answer, LockUndo::Last))
}

/// Grants a lock that nobody holds.
fn grant(table: &mut LockTable, name: Name, owner: Name) -> Done
    ensures done { IfOk result (λ r. IsStep r.0 table.new r.1 (grant table.old name owner)) }
    ensures err { OnErr result (table.new ≡ table.old) }
{
    let last = table.last();
    if last == LAST_TOKEN {
        return say(table, b"spent");
    }
    let lock = Lock {
        name,
        owner,
        token: last + 1,
    };
    let place = table.free_place();
    grant_at(table, lock, place)
}

/// The answer where the lock is held: to who holds it the token again, to others who that is.
fn answer_held(table: &LockTable, lock: &Lock, owner: &Name) -> Done
    ensures { IfOk result (λ r. IsStep r.0 table.now r.1
        (acquire table.now lock.now.name owner.now (Some (0, lock.now)))) }
{
    let answer = if lock.owner.is_same(owner) {
        granted(table.alloc(), lock.token)?
    } else {
        held(table.alloc(), lock)?
    };
    Ok((answer, LockUndo::Nothing))
}

fn acquire(table: &mut LockTable, name: Name, owner: Name) -> Done
    ensures done { IfOk result (λ r. IsStep r.0 table.new r.1
        (acquire table.old name owner (found table.old.places name))) }
    ensures err { OnErr result (table.new ≡ table.old) }
{
    match table.find(&name) {
        Some((_place, lock)) => answer_held(table, &lock, &owner),
        None => grant(table, name, owner),
    }
}

/// Whether this owner holds the lock, with this token.
fn holds(lock: &Lock, owner: &Name, token: u64) -> bool
    ensures { result ≡ holds lock.now owner.now token }
{
    lock.owner.is_same(owner) && lock.token == token
}

/// Ends a grant.
fn release(table: &mut LockTable, owner: &Name, token: u64, place: Option<(usize, Lock)>) -> Done
    ensures done { IfOk result (λ r. IsStep r.0 table.new r.1
        (release table.old owner.now token place)) }
    ensures err { OnErr result (table.new ≡ table.old) }
{
    let Some((i, lock)) = place else {
        return say(table, b"refused");
    };
    if !holds(&lock, owner, token) {
        return say(table, b"refused");
    }
    let answer = Bytes::new(table.alloc(), b"released")?;
    let last = table.last();
    table.write(i, None, last);
    Ok((answer, LockUndo::Back(i, Some(lock), last)))
}

fn inspect(table: &LockTable, name: &Name) -> Done
    ensures { IfOk result (λ r. IsStep r.0 table.now r.1
        (says table.now (holder_text (found table.now.places name.now)))) }
{
    let answer = holder_text(table.alloc(), table.find(name))?;
    Ok((answer, LockUndo::Nothing))
}

/// Does an op.
pub fn apply(table: &mut LockTable, op: LockOp) -> Done
    ensures done { IfOk result (λ r. IsStep r.0 table.new r.1 (step table.old op)) }
    ensures err { OnErr result (table.new ≡ table.old) }
{
    match op {
        LockOp::Acquire(name, owner) => acquire(table, name, owner),
        LockOp::Release(name, owner, token) => {
            let place = table.find(&name);
            release(table, &owner, token, place)
        }
        LockOp::Inspect(name) => inspect(table, &name),
        LockOp::Bad => say(table, b"bad"),
    }
}

/// Takes an op back.
pub fn undo(table: &mut LockTable, undo: LockUndo)
    ensures { table.new ≡ undone table.old undo }
{
    match undo {
        LockUndo::Nothing => {}
        LockUndo::Last => table.remove_last(),
        LockUndo::Back(i, was, last) => table.write(i, was, last),
    }
}
