//! The locks as bytes, and the locks that such bytes load,
//! no two of one name or token.
ghost use Rattle.std.specs.Prelude.{◌≡◌, ◌++◌, [], option_map, IfOk, OnOk};
ghost use Rattle.std.specs.List.{flat_map, list_any};
ghost use Rattle.lock_host.specs.Saved.{place_bytes, saved, clashes, is_allowed, lock_at, place_at};
ghost use Rattle.lock_host.specs.Saved.{nothing_after};
ghost use Rattle.lock_host.specs.Saved.{with_places, loaded};

use crate::fields::{name, put_name};
use crate::lock::Lock;
use crate::locks::{LockTable, MAX_LOCKS};
use nop_types::{Bytes, NoMemory};
use saved_fields::{number, put_number};
use std::alloc::Global;

/// Appends a place.
fn put_place(to: &mut Vec<u8>, place: &Option<Lock>) -> Result<(), NoMemory>
    ensures { OnOk result (to.new.items ≡ to.old.items ++ place_bytes place.now) }
{
    match place {
        Some(lock) => {
            put_name(to, &lock.name)?;
            put_name(to, &lock.owner)?;
            put_number(to, lock.token)
        }
        None => {
            to.push(0)?;
            Ok(())
        }
    }
}

/// Appends places, one after the other.
fn put_places(to: &mut Vec<u8>, places: &[Option<Lock>]) -> Result<(), NoMemory>
    ensures { OnOk result (to.new.items ≡ to.old.items ++ flat_map place_bytes places.now) }
{
    for place in places {
        put_place(to, place)?;
    }
    Ok(())
}

/// The locks as bytes.
pub fn save(table: &LockTable) -> Result<Bytes, NoMemory>
    ensures { IfOk result (λ bytes. bytes ≡ saved table.now) }
{
    let mut bytes = Vec::new(table.alloc());
    let places = table.places();
    put_number(&mut bytes, table.last())?;
    put_number(&mut bytes, places.len() as u64)?;
    put_places(&mut bytes, places)?;
    Ok(Bytes::from_vec(bytes))
}

/// The lock at the place has the name or the token of this one.
fn clashes(lock: &Lock, place: &Option<Lock>) -> bool
    ensures { result ≡ clashes lock.now place.now }
{
    match place {
        Some(other) => other.name.is_same(&lock.name) || other.token == lock.token,
        None => false,
    }
}

fn clashes_with_any(lock: &Lock, places: &[Option<Lock>]) -> bool
    ensures { result ≡ list_any (clashes lock.now) places.now }
{
    places.iter().any(|place| clashes(lock, place))
}

/// The lock may stand beside these.
fn is_allowed(last: u64, places: &[Option<Lock>], lock: &Lock) -> bool
    ensures { result ≡ is_allowed last places.now lock.now }
{
    1 <= lock.token && lock.token <= last && !clashes_with_any(lock, places)
}

/// A lock, and what follows.
#[tactic(auto, unfolding(crate::specs::Saved::lock_at))]
fn lock(bytes: &[u8]) -> Option<(Lock, &[u8])>
    ensures { option_map (λ p. (p.0, p.1.now)) result ≡ lock_at bytes.now }
{
    let (name_of, rest) = name(bytes)?;
    let (owner, rest) = name(rest)?;
    let (token, rest) = number(rest)?;
    let lock = Lock {
        name: name_of,
        owner,
        token,
    };
    Some((lock, rest))
}

/// A place after these, and what follows.
#[tactic(auto, unfolding(crate::specs::Saved::place_at))]
fn place<'a>(
    last: u64,
    places: &[Option<Lock>],
    bytes: &'a [u8],
) -> Option<(Option<Lock>, &'a [u8])>
    ensures { option_map (λ p. (p.0, p.1.now)) result ≡ place_at last places.now bytes.now }
{
    let (first, rest) = bytes.split_first()?;
    if *first == 0 {
        return Some((None, rest));
    }
    let (lock, rest) = lock(bytes)?;
    if is_allowed(last, places, &lock) {
        Some((Some(lock), rest))
    } else {
        None
    }
}

/// The table, where nothing follows.
fn at_end(rest: &[u8], table: LockTable) -> Option<LockTable>
    ensures { result ≡ nothing_after rest.now table }
{
    if rest.is_empty() { Some(table) } else { None }
}

/// A table with the places that the bytes spell.
fn read_places(
    alloc: Global,
    count: u64,
    last: u64,
    bytes: &[u8],
) -> Result<Option<LockTable>, NoMemory>
    ensures { IfOk result (λ table. table ≡ with_places count last [] bytes.now) }
{
    let mut places = Vec::new(alloc);
    let mut rest = bytes;
    for _ in 0..count {
        let Some((place, after)) = place(last, &places, rest) else {
            return Ok(None);
        };
        places.push(place)?;
        rest = after;
    }
    Ok(at_end(rest, LockTable::from_parts(last, places)))
}

/// The table that was saved as these bytes, where one was.
#[tactic(auto, unfolding(crate::specs::Saved::loaded))]
pub fn load(alloc: Global, bytes: &[u8]) -> Result<Option<LockTable>, NoMemory>
    ensures { IfOk result (λ table. table ≡ loaded bytes.now) }
{
    let Some((last, rest)) = number(bytes) else {
        return Ok(None);
    };
    let Some((count, rest)) = number(rest) else {
        return Ok(None);
    };
    if count > MAX_LOCKS as u64 {
        return Ok(None);
    }
    read_places(alloc, count, last, rest)
}
