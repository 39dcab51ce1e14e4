ghost use Rattle.std.specs.Prelude.{◌≡◌, ◌++◌, ◌^◌, ◌+◌, ◌-◌, min, [], map, length, option_map};
ghost use Rattle.std.specs.Prelude.{IfOk, OnOk};
ghost use Rattle.std.specs.FinMap as finite;
ghost use Rattle.std.specs.Map.Iter.{deref_pair};
ghost use Rattle.kv_host.specs.Spelling.{field};
ghost use Rattle.kv_host.specs.Places.{places, values_of};
ghost use Rattle.kv_host.specs.Saved.{four_bytes, spelled_entries, saved, entry_at, with_keys};
ghost use Rattle.kv_host.specs.Saved.{nothing_after, loaded};

use crate::op::{key, value};
use crate::table::{MAX_KEYS, Row, Table};
use crate::value::KvValue;
use nop_types::{Bytes, NoMemory};
use std::alloc::Global;

/// The keys that have a value, with their values, keys ascending.
fn ascending(table: &Table) -> Result<Vec<Row<'_>>, NoMemory>
    ensures { IfOk result (λ rows. map deref_pair rows.items
        ≡ finite.entries (values_of (places table.now))) }
{
    let mut rows = table.rows()?;
    rows.sort_unstable();
    Ok(rows)
}

/// How many bytes the rows and their count take, or `usize::MAX` where they take more.
fn saved_len(rows: &[Row<'_>]) -> usize
    ensures { result ≡ min (4 + length (spelled_entries (map deref_pair rows.now))) (2 ^ 64 - 1) }
{
    let mut len = 4usize;
    for (key, value) in rows {
        len = len
            .saturating_add(4)
            .saturating_add(key.len())
            .saturating_add(value.len());
    }
    len
}

/// Appends a length in two bytes, and the bytes.
#[tactic(auto, unfolding(crate::specs::Spelling::field))]
fn put_field(to: &mut Vec<u8>, bytes: &[u8]) -> Result<(), NoMemory>
    ensures { OnOk result (to.new.items ≡ to.old.items ++ field bytes.now) }
{
    let [.., high, low] = bytes.len().to_be_bytes();
    to.extend_from_slice(&[high, low])?;
    to.extend_from_slice(bytes)?;
    Ok(())
}

/// Appends a number in four bytes.
#[tactic(auto, unfolding(crate::specs::Saved::four_bytes))]
fn put_count(to: &mut Vec<u8>, count: usize) -> Result<(), NoMemory>
    ensures { OnOk result (to.new.items ≡ to.old.items ++ four_bytes count) }
{
    let [.., a, b, c, d] = count.to_be_bytes();
    to.extend_from_slice(&[a, b, c, d])?;
    Ok(())
}

/// Appends how many rows there are, and each key and its value.
fn put_rows(to: &mut Vec<u8>, rows: &[Row<'_>]) -> Result<(), NoMemory>
    ensures { OnOk result (to.new.items ≡ to.old.items ++ (four_bytes (length rows.now)
        ++ spelled_entries (map deref_pair rows.now))) }
{
    put_count(to, rows.len())?;
    for (key, value) in rows {
        put_field(to, key)?;
        put_field(to, value)?;
    }
    Ok(())
}

/// The table's keys that have a value as bytes.
pub fn save(alloc: Global, table: &Table) -> Result<Bytes, NoMemory>
    ensures { IfOk result (λ bytes. bytes ≡ saved (values_of (places table.now))) }
{
    let rows = ascending(table)?;
    let mut bytes = Vec::with_capacity(alloc, saved_len(&rows))?;
    put_rows(&mut bytes, &rows)?;
    Ok(Bytes::from_vec(bytes))
}

/// A key above the last one and its value, and what follows.
#[tactic(auto, unfolding(crate::specs::Saved::entry_at))]
fn entry<'a>(last: &[u8], bytes: &'a [u8]) -> Option<(&'a [u8], &'a [u8], &'a [u8])>
    ensures { option_map (λ e. (e.0.now, e.1.now, e.2.now)) result ≡ entry_at last.now bytes.now }
{
    let Some((key, rest)) = key(bytes) else {
        return None;
    };
    let Some((value, rest)) = value(rest) else {
        return None;
    };
    if last.cmp(key).is_lt() {
        Some((key, value, rest))
    } else {
        None
    }
}

/// The table, where nothing follows.
fn at_end(rest: &[u8], table: Table) -> Option<Table>
    ensures { option_map (λ t. values_of (places t)) result
        ≡ nothing_after rest.now (values_of (places table)) }
{
    if rest.is_empty() { Some(table) } else { None }
}

/// A table with the keys that the bytes spell, each above the one before it, and their values.
fn read_keys(alloc: Global, count: u32, bytes: &[u8]) -> Result<Option<Table>, NoMemory>
    ensures { IfOk result (λ table. option_map (λ t. values_of (places t)) table
        ≡ with_keys count finite.empty [] bytes.now) }
{
    let mut table = Table::with_capacity(alloc, count as usize)?;
    let mut last: &[u8] = b"";
    let mut rest = bytes;
    for _ in 0..count {
        let Some((key, value, after)) = entry(last, rest) else {
            return Ok(None);
        };
        table.add(key, KvValue::new(alloc, value)?)?;
        last = key;
        rest = after;
    }
    Ok(at_end(rest, table))
}

/// The table that was saved as these bytes, where one was.
#[tactic(auto, unfolding(crate::specs::Saved::loaded))]
pub fn load(alloc: Global, bytes: &[u8]) -> Result<Option<Table>, NoMemory>
    ensures { IfOk result (λ table. option_map (λ t. values_of (places t)) table
        ≡ loaded bytes.now) }
{
    let [a, b, c, d, rest @ ..] = bytes else {
        return Ok(None);
    };
    let count = u32::from_be_bytes([*a, *b, *c, *d]);
    if count as usize > MAX_KEYS {
        return Ok(None);
    }
    read_keys(alloc, count, rest)
}
