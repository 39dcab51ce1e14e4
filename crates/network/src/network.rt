ghost use Rattle.std.specs.Prelude.{
  ◌≡◌,
  ◌<◌,
  ◌≤◌,
  ◌+◌,
  ◌++◌,
  ◌∷◌,
  [],
  length,
  slice_get,
  option_map,
  IfOk,
  IfSome,
  OnOk,
  OnErr,
};
ghost use Rattle.std.specs.List.{All};
ghost use Rattle.network.specs.Finding.{NotesIn, StaysIn};
ghost use Rattle.network.specs.Network.{Sent};
ghost use Rattle.network.specs.Marks.{
  part_of,
  head_len,
  rest_len,
  datagram_of,
  all_sent,
  MarkFits,
};

mod destination;
mod finding;
mod sharing;

use crate::index::Index;
use nop_types::kinds::FRAGMENT_HEADER_BYTES;
use nop_types::{Actor, Bytes, Dest, NoMemory};
use sharing::put_bytes;
use std::alloc::Global;
use std::marker::Model;

/// A datagram: where its head of at most `FRAGMENT_HEADER_BYTES` bytes begins and where the rest of
/// its bytes begins, which other datagrams may have too, since the payload of a fragment may be sent
/// again under another header; how long it is, who sent it, and where to.
#[derive(Clone, Copy)]
pub struct Mark {
    pub head: usize,
    pub rest: usize,
    pub len: u32,
    pub from: Actor,
    pub dest: Dest,
}

/// All datagrams that were ever sent, in one vector of bytes; where it has an index, a datagram is
/// found by its bytes without a walk over all of them.
pub struct Network {
    bytes: Vec<u8>,
    marks: Vec<Mark>,
    index: Option<Index>,
}

impl Model for Network {
    ghost use Rattle.std.specs.Prelude.{List, length};
    ghost use Rattle.std.specs.List.{All};
    ghost use Rattle.network.specs.Network.{Sent};
    ghost use Rattle.network.specs.Finding.{MayIndex};
    ghost use Rattle.network.specs.Marks.{all_sent, MarkFits};

    ghost Value = { List Sent };

    ghost view = { λ n. all_sent n.bytes.items n.marks.items };

    ghost invariant = { λ n. All (MarkFits (length n.bytes.items)) n.marks.items
        × MayIndex n.index (all_sent n.bytes.items n.marks.items) };
}

// By hand, so that a crate with a network proves nothing on how its parts are dropped.
impl Drop for Network {
    fn drop(self) {
        let Network {
            bytes: _bytes,
            marks: _marks,
            index: _index,
        } = self;
    }
}

fn mark_at(marks: &[Mark], index: usize) -> Mark
    requires { index < length marks.now }
    ensures { slice_get marks.now index ≡ Some result }
{
    marks[index]
}

fn part(bytes: &[u8], begin: usize, len: usize) -> &[u8]
    requires { begin + len ≤ length bytes.now }
    ensures { result.now ≡ part_of bytes.now begin len }
{
    &bytes[begin..begin + len]
}

fn head_of(bytes: &[u8], mark: Mark) -> &[u8]
    requires { MarkFits (length bytes.now) mark }
    ensures { result.now ≡ part_of bytes.now mark.head (head_len mark) }
{
    part(
        bytes,
        mark.head,
        (mark.len as usize).min(FRAGMENT_HEADER_BYTES),
    )
}

fn rest_of(bytes: &[u8], mark: Mark) -> &[u8]
    requires { MarkFits (length bytes.now) mark }
    ensures { result.now ≡ part_of bytes.now mark.rest (rest_len mark) }
{
    let len = (mark.len as usize).saturating_sub(FRAGMENT_HEADER_BYTES);
    part(bytes, mark.rest, len)
}

/// The datagram of a mark where its head and its rest lie one behind the other, None where its rest is shared.
#[tactic(auto, using(crate::proofs::MarkLemmas::joined_parts))]
fn in_one_piece(bytes: &[u8], mark: Mark) -> Option<&[u8]>
    requires { MarkFits (length bytes.now) mark }
    ensures { IfSome result (λ b. b.now ≡ datagram_of bytes.now mark) }
{
    let head = (mark.len as usize).min(FRAGMENT_HEADER_BYTES);
    if mark.head + head != mark.rest {
        return None;
    }
    Some(part(bytes, mark.head, mark.len as usize))
}

/// The datagram of a mark, copied.
fn datagram(alloc: Global, bytes: &[u8], mark: Mark) -> Result<Bytes, NoMemory>
    requires { MarkFits (length bytes.now) mark }
    ensures { IfOk result (λ b. b ≡ datagram_of bytes.now mark) }
{
    let head = head_of(bytes, mark);
    let rest = rest_of(bytes, mark);
    let mut copy = Vec::with_capacity(alloc, head.len() + rest.len())?;
    copy.extend_from_slice(head)?;
    copy.extend_from_slice(rest)?;
    Ok(Bytes::from_vec(copy))
}

/// The datagram with this index, copied, None where no datagram has it.
fn datagram_at(
    alloc: Global,
    bytes: &[u8],
    marks: &[Mark],
    index: u64,
) -> Result<Option<Bytes>, NoMemory>
    requires { All (MarkFits (length bytes.now)) marks.now }
    ensures { IfOk result (λ o. o
        ≡ option_map (λ s. s.bytes) (slice_get (all_sent bytes.now marks.now) index)) }
{
    if index >= marks.len() as u64 {
        return Ok(None);
    }
    Ok(Some(datagram(alloc, bytes, mark_at(marks, index as usize))?))
}

/// The datagram with this index where it lies in one piece, None where it does not, or no datagram has the index.
fn piece_at<'a>(bytes: &'a [u8], marks: &[Mark], index: u64) -> Option<&'a [u8]>
    requires { All (MarkFits (length bytes.now)) marks.now }
    ensures { IfSome result (λ b. option_map (λ s. s.bytes)
        (slice_get (all_sent bytes.now marks.now) index) ≡ Some b.now) }
{
    if index >= marks.len() as u64 {
        return None;
    }
    in_one_piece(bytes, mark_at(marks, index as usize))
}

/// Notes a datagram where there is an index.
fn note(index: &mut Option<Index>, datagram: &[u8], at: u64) -> Result<(), NoMemory>
    ensures ok { OnOk result (NotesIn index.old index.new datagram.now at) }
    ensures err { OnErr result (StaysIn index.old index.new) }
{
    match index {
        Some(index) => index.note(datagram, at),
        None => Ok(()),
    }
}

/// Puts a mark behind the others, and notes its datagram where there is an index.
fn put_mark(
    marks: &mut Vec<Mark>,
    index: &mut Option<Index>,
    mark: Mark,
    datagram: &[u8],
) -> Result<(), NoMemory>
    ensures ok { OnOk result (marks.new.items ≡ marks.old.items ++ mark ∷ []) }
    ensures err { OnErr result (marks.new.items ≡ marks.old.items) }
    ensures noted { OnOk result
        (NotesIn index.old index.new datagram.now (length marks.old.items)) }
    ensures unnoted { OnErr result (StaysIn index.old index.new) }
{
    let count = marks.len();
    marks.push(mark)?;
    if note(index, datagram, count as u64).is_err() {
        marks.truncate(count);
        return Err(NoMemory);
    }
    Ok(())
}

/// Puts a datagram behind the others, and notes it where there is an index.
fn put(
    bytes: &mut Vec<u8>,
    marks: &mut Vec<Mark>,
    index: &mut Option<Index>,
    from: Actor,
    dest: Dest,
    datagram: &[u8],
) -> Result<(), NoMemory>
    requires { All (MarkFits (length bytes.old.items)) marks.old.items }
    ensures fits { All (MarkFits (length bytes.new.items)) marks.new.items }
    ensures ok { OnOk result (all_sent bytes.new.items marks.new.items
        ≡ all_sent bytes.old.items marks.old.items
        ++ record { from = from; dest = dest; bytes = datagram.now } ∷ []) }
    ensures err { OnErr result (all_sent bytes.new.items marks.new.items
        ≡ all_sent bytes.old.items marks.old.items) }
    ensures noted { OnOk result
        (NotesIn index.old index.new datagram.now (length marks.old.items)) }
    ensures unnoted { OnErr result (StaysIn index.old index.new) }
{
    let len = bytes.len();
    let mark = put_bytes(bytes, marks, from, dest, datagram)?;
    match put_mark(marks, index, mark, datagram) {
        Ok(()) => Ok(()),
        Err(error) => {
            bytes.truncate(len);
            Err(error)
        }
    }
}

impl Network {
    pub fn new(alloc: Global) -> Network
        ensures { result ≡ [] }
    {
        Network {
            bytes: Vec::new(alloc),
            marks: Vec::new(alloc),
            index: None,
        }
    }

    pub fn with_index(alloc: Global) -> Network
        ensures { result ≡ [] }
    {
        Network {
            bytes: Vec::new(alloc),
            marks: Vec::new(alloc),
            index: Some(Index::new(alloc)),
        }
    }

    /// How many datagrams were sent.
    pub fn len(&self) -> u64
        ensures { result ≡ length self.now }
    {
        self.marks.len() as u64
    }

    /// The datagram with this index, copied, None where no datagram has it.
    pub fn get(&self, index: u64) -> Result<Option<Bytes>, NoMemory>
        ensures { IfOk result (λ o. o
            ≡ option_map (λ s. s.bytes) (slice_get self.now index)) }
    {
        datagram_at(*self.bytes.allocator(), &self.bytes, &self.marks, index)
    }

    /// The datagram with this index, which needs no copy where it lies in one piece; None where it does not, or where no
    /// datagram has the index.
    pub fn piece(&self, index: u64) -> Option<&[u8]>
        ensures { IfSome result (λ b. option_map (λ s. s.bytes) (slice_get self.now index)
            ≡ Some b.now) }
    {
        piece_at(&self.bytes, &self.marks, index)
    }

    pub fn push(&mut self, from: Actor, dest: Dest, datagram: &[u8]) -> Result<(), NoMemory>
        ensures ok { OnOk result (self.new ≡ self.old
            ++ record { from = from; dest = dest; bytes = datagram.now } ∷ []) }
        ensures err { OnErr result (self.new ≡ self.old) }
    {
        put(
            &mut self.bytes,
            &mut self.marks,
            &mut self.index,
            from,
            dest,
            datagram,
        )
    }
}
