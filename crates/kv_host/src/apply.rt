ghost use Rattle.std.specs.Prelude.{◌≡◌, ◌≤◌, length, Some, None, IfOk, OnErr, codes, nat_eq};
ghost use Rattle.std.specs.Option.{option_copied, option_eq};
ghost use Rattle.std.specs.Cmp.Lexicographic.{pointwise};
ghost use Rattle.std.specs.FinMap as finite;
ghost use Rattle.kv_host.specs.Op.{Get, Put, Delete, Swap};
ghost use Rattle.kv_host.specs.Spelling.{OpFits};
ghost use Rattle.kv_host.specs.View.{op_of};
ghost use Rattle.kv_host.specs.Kv.{shown};
ghost use Rattle.kv_host.specs.Done.{IsDone, IsWritten, IsCleared};
ghost use Rattle.kv_host.specs.Places.{places, HasPlace, IsPlaceOf};

use crate::key::KvKey;
use crate::op::KvOp;
use crate::table::Table;
use crate::undo::KvUndo;
use crate::value::KvValue;
use nop_types::{Bytes, MAX_KEY_BYTES, MAX_VALUE_BYTES, NoMemory};
use std::alloc::Global;

/// What an op answers, and what undoes it.
pub type Done = Result<(Bytes, Option<KvUndo>), NoMemory>;

/// `=` and the value, or `none`.
fn show(alloc: Global, value: Option<&KvValue>) -> Result<Bytes, NoMemory>
    ensures answer { IfOk result (λ b. b ≡ shown (option_copied value.entry)) }
    ensures short { IfOk result (λ b. length b ≤ 257) }
{
    match value {
        None => Bytes::new(alloc, b"none"),
        Some(value) => {
            let value = value.as_slice();
            let mut text = Vec::with_capacity(alloc, 1 + value.len())?;
            text.push(b'=')?;
            text.extend_from_slice(value)?;
            Ok(Bytes::from_vec(text))
        }
    }
}

/// The value is this one.
fn is_same(value: Option<&KvValue>, other: &[u8]) -> bool
    ensures { result ≡ option_eq (pointwise nat_eq) (option_copied value.entry) (Some other.now) }
{
    match value {
        Some(value) => value.as_slice() == other,
        None => false,
    }
}

/// An answer of an op that changes nothing.
fn say(alloc: Global, answer: &[u8]) -> Done
    ensures { IfOk result (λ r. (r.0 ≡ answer.now) × (r.1 ≡ None)) }
{
    match Bytes::new(alloc, answer) {
        Ok(answer) => Ok((answer, None)),
        Err(e) => Err(e),
    }
}

/// Gives a key a value, and says how to undo it, with the answer that was made before.
// In place, as `Table::write`: its result is large.
#[inline(always)]
#[tactic(auto, using(crate::proofs::PlacesLemmas::place_writes))]
fn set(
    alloc: Global,
    table: &mut Table,
    place: Option<usize>,
    key: &[u8],
    value: &[u8],
    answer: Bytes,
) -> Done
    requires place { IsPlaceOf table.old key.now place }
    requires key { length key.now ≤ MAX_KEY_BYTES }
    requires value { length value.now ≤ MAX_VALUE_BYTES }
    ensures answer { IfOk result (λ r. r.0 ≡ answer) }
    ensures ok { IfOk result (λ r. IsWritten (places table.old) (places table.new) key.now
        value.now r.1) }
    ensures err { OnErr result (places table.new ≡ places table.old) }
{
    let value = KvValue::new(alloc, value)?;
    let former = table.write(place, key, value)?;
    let undo = KvUndo {
        key: KvKey::new(key),
        value: former,
    };
    Ok((answer, Some(undo)))
}

/// Takes the value of a key away, and says how to undo it.
#[tactic(auto, using(crate::proofs::PlacesLemmas::place_writes))]
fn clear(table: &mut Table, place: Option<usize>, key: &[u8]) -> Option<KvUndo>
    requires place { IsPlaceOf table.old key.now place }
    requires key { length key.now ≤ MAX_KEY_BYTES }
    ensures { IsCleared (places table.old) (places table.new) key.now result }
{
    match place {
        Some(index) => match table.replace(index, None) {
            Some(value) => Some(KvUndo {
                key: KvKey::new(key),
                value: Some(value),
            }),
            None => None,
        },
        None => None,
    }
}

/// Answers with the value of a key.
pub fn get(alloc: Global, table: &Table, key: &[u8]) -> Done
    ensures { IfOk result (λ r. IsDone (Get key.now) (places table.now) (places table.now) r.0
        r.1) }
{
    let (_place, value) = table.look_up(key);
    match show(alloc, value) {
        Ok(answer) => Ok((answer, None)),
        Err(e) => Err(e),
    }
}

/// Gives a key a value, and answers with the former value; or answers `full`, where it would be one
/// key too many.
pub fn put(alloc: Global, table: &mut Table, key: &[u8], value: &[u8]) -> Done
    requires key { length key.now ≤ MAX_KEY_BYTES }
    requires value { length value.now ≤ MAX_VALUE_BYTES }
    ensures done { IfOk result (λ r. IsDone (Put key.now value.now) (places table.old)
        (places table.new) r.0 r.1) }
    ensures err { OnErr result (places table.new ≡ places table.old) }
{
    let (place, former) = table.look_up(key);
    if former.is_none() && table.is_full() {
        return say(alloc, b"full");
    }
    match show(alloc, former) {
        Ok(answer) => set(alloc, table, place, key, value, answer),
        Err(e) => Err(e),
    }
}

/// Takes the value of a key away, and answers with it. A key without one gets no place.
pub fn delete(alloc: Global, table: &mut Table, key: &[u8]) -> Done
    requires { length key.now ≤ MAX_KEY_BYTES }
    ensures done { IfOk result (λ r. IsDone (Delete key.now) (places table.old)
        (places table.new) r.0 r.1) }
    ensures err { OnErr result (places table.new ≡ places table.old) }
{
    let (place, former) = table.look_up(key);
    match show(alloc, former) {
        Ok(answer) => Ok((answer, clear(table, place, key))),
        Err(e) => Err(e),
    }
}

/// Gives a key a new value, and answers `yes`.
fn exchange(alloc: Global, table: &mut Table, place: Option<usize>, key: &[u8], new: &[u8]) -> Done
    requires place { IsPlaceOf table.old key.now place }
    requires key { length key.now ≤ MAX_KEY_BYTES }
    requires value { length new.now ≤ MAX_VALUE_BYTES }
    ensures answer { IfOk result (λ r. r.0 ≡ codes "yes") }
    ensures ok { IfOk result (λ r. IsWritten (places table.old) (places table.new) key.now
        new.now r.1) }
    ensures err { OnErr result (places table.new ≡ places table.old) }
{
    match Bytes::new(alloc, b"yes") {
        Ok(answer) => set(alloc, table, place, key, new, answer),
        Err(e) => Err(e),
    }
}

/// Gives a key a new value where it has the old one, and answers whether it had.
pub fn swap(alloc: Global, table: &mut Table, key: &[u8], old: &[u8], new: &[u8]) -> Done
    requires key { length key.now ≤ MAX_KEY_BYTES }
    requires value { length new.now ≤ MAX_VALUE_BYTES }
    ensures done { IfOk result (λ r. IsDone (Swap key.now old.now new.now) (places table.old)
        (places table.new) r.0 r.1) }
    ensures err { OnErr result (places table.new ≡ places table.old) }
{
    let (place, former) = table.look_up(key);
    if is_same(former, old) {
        exchange(alloc, table, place, key, new)
    } else {
        say(alloc, b"no")
    }
}

/// Does an op.
pub fn apply(alloc: Global, table: &mut Table, op: KvOp<'_>) -> Done
    requires { OpFits (op_of op) }
    ensures done { IfOk result (λ r. IsDone (op_of op.entry) (places table.old)
        (places table.new) r.0 r.1) }
    ensures err { OnErr result (places table.new ≡ places table.old) }
{
    match op {
        KvOp::Get(key) => get(alloc, table, key),
        KvOp::Put(key, value) => put(alloc, table, key, value),
        KvOp::Delete(key) => delete(alloc, table, key),
        KvOp::Swap(key, old, new) => swap(alloc, table, key, old, new),
        KvOp::Bad => say(alloc, b"bad"),
    }
}

/// Takes an op back.
pub fn undo(table: &mut Table, undo: KvUndo)
    requires { HasPlace (places table.old) (Some undo) }
    ensures { places table.new ≡ finite.insert (places table.old) undo.key undo.value }
{
    let (place, _value) = table.look_up(undo.key.as_slice());
    drop(table.replace(place.unwrap(), undo.value));
}
