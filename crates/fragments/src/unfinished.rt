ghost use Rattle.std.specs.Prelude.{◌≡◌, ◌+◌, ◌*◌, ◌<◌, ◌≤◌, ◌^◌, ◌++◌, true, length, replicate, set, take, sum_by};
ghost use Rattle.std.specs.Prelude.{IfOk, OnOk, OnErr, None, Some};
ghost use Rattle.fragments.specs.Parts.{missing, is_open, bytes_of, whole, with_part};
ghost use Rattle.fragments.specs.Prefix.{parts_of};
ghost use Rattle.fragments.specs.Held.{held_in};

use nop_types::{Bytes, FRAGMENT_BYTES, NoMemory};
use std::alloc::Global;
use std::marker::Model;
use std::mem;

/// The most parts for which there is room before they come.
const PARTS_AHEAD: usize = 64;

/// A message of which parts are missing. Parts that come in order go straight behind the front; early ones wait, each in a
/// place of its own.
#[derive(Drop)]
pub(crate) struct Unfinished {
    number: u64,
    /// The bytes of the first parts, with no gap, and how many parts they are.
    prefix: Vec<u8>,
    filled: usize,
    /// A place for each part. Those of the first parts are empty.
    later: Vec<Option<Bytes>>,
    missing: usize,
}

impl Model for Unfinished {
    ghost use Rattle.fragments.specs.Parts.{Partial};
    ghost use Rattle.fragments.specs.Prefix.{parts_of, IsSplit};

    ghost Value = { Partial };

    ghost view = { λ u.
        record { number = u.number; parts = parts_of u.prefix.items u.filled u.later.items } };

    ghost invariant = { λ u. IsSplit u.prefix.items u.filled u.later.items u.missing };
}

fn empty_parts(alloc: Global, count: u16) -> Result<Vec<Option<Bytes>>, NoMemory>
    ensures { IfOk result (λ parts. parts.items ≡ replicate count None) }
{
    let mut parts = Vec::with_capacity(alloc, count as usize)?;
    for _ in 0..count {
        parts.push(None)?;
    }
    Ok(parts)
}

/// Puts a part behind these bytes, where it came.
fn append_part(to: &mut Vec<u8>, part: &Option<Bytes>) -> Result<(), NoMemory>
    ensures ok { OnOk result (to.new.items ≡ to.old.items ++ bytes_of part.now) }
    ensures err { OnErr result (to.new.items ≡ to.old.items) }
{
    let Some(bytes) = part else {
        return Ok(());
    };
    to.extend_from_slice(bytes.as_slice())?;
    Ok(())
}

/// Puts the parts that came behind these bytes. After an error some of them stand there.
fn append_parts(to: &mut Vec<u8>, parts: &[Option<Bytes>]) -> Result<(), NoMemory>
    ensures ok { OnOk result (to.new.items ≡ to.old.items ++ whole parts.now) }
    ensures prefix { take (length to.old.items) to.new.items ≡ to.old.items }
{
    for part in parts {
        append_part(to, part)?;
    }
    Ok(())
}

/// Puts the parts that came behind these bytes, with this one at its place. After an error some of them stand there.
#[tactic(auto, using(crate::proofs::Pieces::prefix_through))]
fn append_with(
    to: &mut Vec<u8>,
    parts: &[Option<Bytes>],
    index: usize,
    payload: &[u8],
) -> Result<(), NoMemory>
    requires { index < length parts.now }
    ensures ok { OnOk result (to.new.items ≡ to.old.items
        ++ whole (set parts.now index (Some payload.now))) }
    ensures prefix { take (length to.old.items) to.new.items ≡ to.old.items }
{
    let (before, rest) = parts.split_at(index);
    let (_, after) = rest.split_at(1);
    append_parts(to, before)?;
    to.extend_from_slice(payload)?;
    append_parts(to, after)?;
    Ok(())
}

/// The same, with nothing appended after an error.
fn append_whole(
    to: &mut Vec<u8>,
    parts: &[Option<Bytes>],
    index: usize,
    payload: &[u8],
) -> Result<(), NoMemory>
    requires { index < length parts.now }
    ensures ok { OnOk result (to.new.items ≡ to.old.items
        ++ whole (set parts.now index (Some payload.now))) }
    ensures err { OnErr result (to.new.items ≡ to.old.items) }
{
    to.reserve_exact(FRAGMENT_BYTES.saturating_mul(parts.len()))?;
    let len = to.len();
    let appended = append_with(to, parts, index, payload);
    if appended.is_err() {
        to.truncate(len);
    }
    appended
}

fn is_empty_at(parts: &[Option<Bytes>], index: usize) -> bool
    ensures { result ≡ is_open parts.now index }
{
    match parts.get(index) {
        Some(None) => true,
        _ => false,
    }
}

/// How many bytes a part has, 0 where it did not come.
fn part_len(part: &Option<Bytes>) -> u64
    ensures { result ≡ length (bytes_of part.now) }
{
    match part {
        Some(payload) => payload.as_slice().len() as u64,
        None => 0,
    }
}

/// How many bytes the parts have that came.
#[tactic(auto, using(std::proofs::lemmas::List::Sums::sum_by_more, std::proofs::lemmas::List::Sums::sum_by_more_le))]
fn bytes_in(parts: &[Option<Bytes>]) -> u64
    requires { sum_by (λ part. length (bytes_of part)) parts.now < 2 ^ 64 }
    ensures { result ≡ sum_by (λ part. length (bytes_of part)) parts.now }
{
    let mut bytes = 0;
    for part in parts {
        bytes += part_len(part);
    }
    bytes
}

/// Moves parts that came early behind the front, as far as they go on without a gap and memory lasts.
fn gather(prefix: &mut Vec<u8>, filled: usize, later: &mut Vec<Option<Bytes>>) -> usize
    requires size { length prefix.old.items ≡ FRAGMENT_BYTES * filled }
    requires within { filled ≤ length later.old.items }
    ensures same { parts_of prefix.new.items result later.new.items
        ≡ parts_of prefix.old.items filled later.old.items }
    ensures size { length prefix.new.items ≡ FRAGMENT_BYTES * result }
    ensures within { result ≤ length later.new.items }
{
    let mut at = filled;
    while at < later.len() {
        match &later[at] {
            Some(bytes) if bytes.as_slice().len() == FRAGMENT_BYTES => {
                if prefix.extend_from_slice(bytes.as_slice()).is_err() {
                    return at;
                }
            }
            _ => return at,
        }
        later[at] = None;
        at += 1;
    }
    at
}

impl Unfinished {
    #[tactic(auto, using(crate::proofs::Counting::missing_replicate))]
    pub(crate) fn new(alloc: Global, number: u64, count: u16) -> Result<Unfinished, NoMemory>
        ensures { IfOk result (λ u. u
            ≡ record { number = number; parts = replicate count None }) }
    {
        let later = empty_parts(alloc, count)?;
        let prefix = Vec::with_capacity(alloc, FRAGMENT_BYTES * PARTS_AHEAD.min(count as usize))?;
        Ok(Unfinished {
            number,
            prefix,
            filled: 0,
            later,
            missing: count as usize,
        })
    }

    pub(crate) fn number(&self) -> u64
        ensures { result ≡ self.now.number }
    {
        self.number
    }

    #[tactic(auto, using(crate::proofs::Prefixes::parts_len))]
    pub(crate) fn count(&self) -> usize
        ensures { result ≡ length self.now.parts }
    {
        self.later.len()
    }

    pub(crate) fn missing(&self) -> usize
        ensures { result ≡ missing self.now.parts }
    {
        self.missing
    }

    /// How many bytes the parts have that came.
    pub(crate) fn held(&self) -> u64
        requires { held_in self.now < 2 ^ 64 }
        ensures { result ≡ held_in self.now }
    {
        let (_, rest) = self.later.split_at(self.filled);
        self.prefix.len() as u64 + bytes_in(rest)
    }

    /// Whether there is such an index and its part has not come.
    pub(crate) fn is_open(&self, index: usize) -> bool
        ensures { result ≡ is_open self.now.parts index }
    {
        if index < self.filled {
            return false;
        }
        is_empty_at(&self.later, index)
    }

    pub(crate) fn put(&mut self, index: usize, payload: &Bytes) -> Result<(), NoMemory>
        requires { is_open self.old.parts index ≡ true }
        ensures ok { OnOk result (self.new ≡ with_part self.old index payload.now) }
        ensures err { OnErr result (self.new ≡ self.old) }
    {
        if index == self.filled && payload.as_slice().len() == FRAGMENT_BYTES {
            self.prefix.extend_from_slice(payload.as_slice())?;
            self.missing -= 1;
            self.filled = gather(&mut self.prefix, self.filled + 1, &mut self.later);
            return Ok(());
        }
        let payload = payload.try_clone()?;
        self.later[index] = Some(payload);
        self.missing -= 1;
        Ok(())
    }

    /// Gives the parts that came and this one, in the order of their indexes, and keeps nothing of them.
    pub(crate) fn complete(&mut self, index: usize, payload: &[u8]) -> Result<Bytes, NoMemory>
        requires { is_open self.old.parts index ≡ true }
        ensures ok { IfOk result (λ bytes.
            bytes ≡ whole (with_part self.old index payload.now).parts) }
        ensures err { OnErr result (self.new ≡ self.old) }
    {
        let (_, rest) = self.later.split_at(self.filled);
        append_whole(&mut self.prefix, rest, index - self.filled, payload)?;
        let alloc = *self.prefix.allocator();
        let bytes = mem::replace(&mut self.prefix, Vec::new(alloc));
        self.filled = 0;
        self.later = Vec::new(alloc);
        self.missing = 0;
        Ok(Bytes::from_vec(bytes))
    }
}
