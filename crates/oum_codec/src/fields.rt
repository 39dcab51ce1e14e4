//! Numbers and other fields, read from bytes.

ghost use Rattle.std.specs.Prelude.{◌≡◌, option_map, drop, IfOk};
ghost use Rattle.std.specs.Int.{w16, w32, w64};
ghost use Rattle.oum_codec.specs.Numbers.{number_at, byte_at, bytes_at, view_at};
ghost use Rattle.oum_codec.specs.Places.{number_in, view_in, request_at, request_in};

use crate::fixed::RequestFields;
use nop_types::{NoMemory, Op, Request, View};
use std::alloc::Global;

/// The byte at the front, and the bytes after it.
pub fn split_u8(bytes: &[u8]) -> Option<(u8, &[u8])>
    ensures { option_map (λ x. (x.0, x.1.now)) result ≡ byte_at bytes.now }
{
    let (byte, rest) = bytes.split_first()?;
    Some((*byte, rest))
}

/// The number in the first two bytes, the higher one first, and the bytes after it.
pub fn split_u16(bytes: &[u8]) -> Option<(u16, &[u8])>
    ensures { option_map (λ x. (x.0, x.1.now)) result ≡ number_at w16 bytes.now }
{
    if bytes.len() < 2 {
        return None;
    }
    let (prefix, rest) = bytes.split_at(2);
    Some((u16::from_be_bytes([prefix[0], prefix[1]]), rest))
}

/// The number in the first four bytes, the highest one first, and the bytes after it.
pub fn split_u32(bytes: &[u8]) -> Option<(u32, &[u8])>
    ensures { option_map (λ x. (x.0, x.1.now)) result ≡ number_at w32 bytes.now }
{
    if bytes.len() < 4 {
        return None;
    }
    let (prefix, rest) = bytes.split_at(4);
    let number = u32::from_be_bytes([prefix[0], prefix[1], prefix[2], prefix[3]]);
    Some((number, rest))
}

/// The number in the first eight bytes, the highest one first, and the bytes after it.
pub fn split_u64(bytes: &[u8]) -> Option<(u64, &[u8])>
    ensures { option_map (λ x. (x.0, x.1.now)) result ≡ number_at w64 bytes.now }
{
    if bytes.len() < 8 {
        return None;
    }
    let (prefix, rest) = bytes.split_at(8);
    let number = u64::from_be_bytes([
        prefix[0], prefix[1], prefix[2], prefix[3], prefix[4], prefix[5], prefix[6], prefix[7],
    ]);
    Some((number, rest))
}

/// The first `count` bytes, and those after them.
pub fn split_bytes(bytes: &[u8], count: usize) -> Option<(&[u8], &[u8])>
    ensures { option_map (λ x. (x.0.now, x.1.now)) result ≡ bytes_at count bytes.now }
{
    if bytes.len() < count {
        return None;
    }
    Some(bytes.split_at(count))
}

/// The view at the front, its leader number before its session, and the bytes after it.
#[tactic(auto, unfolding(crate::specs::Numbers::view_at))]
pub fn split_view(bytes: &[u8]) -> Option<(View, &[u8])>
    ensures { option_map (λ x. (x.0, x.1.now)) result ≡ view_at bytes.now }
{
    let (leader, rest) = split_u32(bytes)?;
    let (session, rest) = split_u64(rest)?;
    Some((View { leader, session }, rest))
}

/// The number in two bytes from a place on, the higher one first; none where they are not all there.
pub fn read_u16(bytes: &[u8], at: usize) -> Option<u16>
    ensures { result ≡ number_in w16 at bytes.now }
{
    if bytes.len() < at {
        return None;
    }
    let (_, rest) = bytes.split_at(at);
    let (number, _) = split_u16(rest)?;
    Some(number)
}

/// The number in four bytes from a place on, the highest one first; none where they are not all there.
pub fn read_u32(bytes: &[u8], at: usize) -> Option<u32>
    ensures { result ≡ number_in w32 at bytes.now }
{
    if bytes.len() < at {
        return None;
    }
    let (_, rest) = bytes.split_at(at);
    let (number, _) = split_u32(rest)?;
    Some(number)
}

/// The number in eight bytes from a place on, the highest one first; none where they are not all there.
pub fn read_u64(bytes: &[u8], at: usize) -> Option<u64>
    ensures { result ≡ number_in w64 at bytes.now }
{
    if bytes.len() < at {
        return None;
    }
    let (_, rest) = bytes.split_at(at);
    let (number, _) = split_u64(rest)?;
    Some(number)
}

/// The view from a place on, its leader number before its session; none where they are not all there.
pub fn read_view(bytes: &[u8], at: usize) -> Option<View>
    ensures { result ≡ view_in at bytes.now }
{
    let leader = read_u32(bytes, at)?;
    let session = read_u64(bytes, at + 4)?;
    Some(View { leader, session })
}

/// The request from a place on: client, id, the op's length and the op. None where they are not all there, the id is 0 or
/// the op is too long.
pub fn read_request(alloc: Global, bytes: &[u8], at: usize) -> Result<Option<Request>, NoMemory>
    ensures { IfOk result (λ r. r ≡ request_in at bytes.now) }
{
    if bytes.len() < at {
        return Ok(None);
    }
    let (_, rest) = bytes.split_at(at);
    request(alloc, rest)
}

#[tactic(auto, unfolding(crate::specs::Places::request_at))]
fn request(alloc: Global, bytes: &[u8]) -> Result<Option<Request>, NoMemory>
    ensures { IfOk result (λ r. r ≡ option_map (λ x. x.0) (request_at bytes.now)) }
{
    let Some((fields, rest)) = RequestFields::split(bytes) else {
        return Ok(None);
    };
    if !fields.is_in_range() {
        return Ok(None);
    }
    let Some((op, _)) = split_bytes(rest, fields.op_len as usize) else {
        return Ok(None);
    };
    Ok(Some(Request {
        client: fields.client,
        id: fields.id,
        op: Op::new(alloc, op)?,
    }))
}
