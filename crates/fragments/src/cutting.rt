ghost use Rattle.std.specs.Prelude.{◌≡◌, ◌++◌, ◌<◌, ◌≤◌, ◌↔◌, length, OnOk, OnErr, IfOk, IsErrOf};
ghost use Rattle.nop_types.specs.declared.datagram.Datagram.TheVariants as datagrams;
ghost use Rattle.oum_codec.specs.Spelling.{spelling};
ghost use Rattle.fragments.specs.Cutting.{piece, piece_count, fragments_of, sends_of, HasNoCut};

use crate::CutError;
use nop_types::kinds::FRAGMENT_HEADER_BYTES;
use nop_types::{Bytes, Dest, FRAGMENT_BYTES, MAX_FRAGMENTS, MAX_REPLICAS, NoMemory, Out, Outbox};
use oum_codec::put_fragment;
use std::alloc::Global;

#[tactic(auto, using(std::proofs::lemmas::List::take_min), unfolding(crate::specs::Cutting::piece, crate::specs::Cutting::piece_count))]
fn piece(bytes: &[u8], index: u16) -> &[u8]
    requires { index < piece_count bytes.now }
    ensures bytes { result.now ≡ piece bytes.now index }
    ensures len { length result.now ≤ FRAGMENT_BYTES }
{
    let (_, rest) = bytes.split_at(FRAGMENT_BYTES * index as usize);
    let (part, _) = rest.split_at(FRAGMENT_BYTES.min(rest.len()));
    part
}

fn datagram(
    alloc: Global,
    sender: u8,
    number: u64,
    index: u16,
    count: u16,
    payload: &[u8],
) -> Result<Bytes, NoMemory>
    requires { length payload.now ≤ FRAGMENT_BYTES }
    ensures { IfOk result (λ b. b ≡ spelling (datagrams.Fragment (record {
      replica = sender;
      message = number;
      index = index;
      count = count;
      payload = payload.now;
    }))) }
{
    let mut bytes = Vec::with_capacity(alloc, FRAGMENT_HEADER_BYTES + payload.len())?;
    put_fragment(&mut bytes, sender, number, index, count, payload)?;
    Ok(Bytes::from_vec(bytes))
}

fn sends(
    alloc: Global,
    sender: u8,
    number: u64,
    bytes: &[u8],
    count: u16,
    dest: Dest,
) -> Result<Outbox, NoMemory>
    requires { count ≡ piece_count bytes.now }
    ensures { IfOk result (λ made. made ≡ sends_of dest (fragments_of sender number bytes.now)) }
{
    let mut made = Outbox::new(alloc);
    for index in 0..count {
        let payload = piece(bytes, index);
        let datagram = datagram(alloc, sender, number, index, count, payload)?;
        made.push(Out::Send(dest, datagram))?;
    }
    Ok(made)
}

/// Sends a message's fragments to the destination, in the order of their indexes. Each byte of the message is copied once.
#[tactic(auto, unfolding(crate::specs::Cutting::piece_count))]
pub fn cut(
    alloc: Global,
    sender: u8,
    number: u64,
    bytes: &[u8],
    out: &mut Outbox,
    dest: Dest,
) -> Result<(), CutError>
    requires replica { sender < MAX_REPLICAS }
    requires from_1 { 1 ≤ number }
    ensures ok { OnOk result (out.new ≡ out.old
        ++ sends_of dest (fragments_of sender number bytes.now)) }
    ensures err { OnErr result (out.new ≡ out.old) }
    ensures size { IsErrOf result CutError.Size ↔ HasNoCut bytes.now }
{
    if bytes.is_empty() || bytes.len() > MAX_FRAGMENTS * FRAGMENT_BYTES {
        return Err(CutError::Size);
    }
    let count = bytes.len().div_ceil(FRAGMENT_BYTES) as u16;
    let made = sends(alloc, sender, number, bytes, count, dest)?;
    out.append(made)?;
    Ok(())
}
