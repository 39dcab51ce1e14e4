//! How a datagram's bytes are kept: a rest that was sent before, under another header, is not kept
//! once more.

ghost use Rattle.std.specs.Prelude.{◌≡◌, ◌≤◌, ◌+◌, length, IfOk, IfSome, OnOk, OnErr};
ghost use Rattle.std.specs.List.{All};
ghost use Rattle.network.specs.Marks.{part_of, sent_of, MarkFits, Keeps};

use super::{Mark, mark_at, rest_of};
use nop_types::kinds::FRAGMENT_HEADER_BYTES;
use nop_types::{Actor, Dest, NoMemory};

/// A rest shorter than this is not looked for.
const SHARED_LEN: usize = 64;

/// In how many datagrams a rest is looked for, the last first.
const LOOKBACK: usize = 128;

/// Where the rest of one of the last datagrams begins that has these bytes, None where none does.
fn shared(bytes: &[u8], marks: &[Mark], wanted: &[u8]) -> Option<usize>
    requires { All (MarkFits (length bytes.now)) marks.now }
    ensures fits { IfSome result (λ begin. begin + length wanted.now ≤ length bytes.now) }
    ensures is { IfSome result (λ begin.
        part_of bytes.now begin (length wanted.now) ≡ wanted.now) }
{
    if wanted.len() < SHARED_LEN {
        return None;
    }
    for back in 0..marks.len().min(LOOKBACK) {
        let mark = mark_at(marks, marks.len() - 1 - back);
        if rest_of(bytes, mark) == wanted {
            return Some(mark.rest);
        }
    }
    None
}

/// Puts bytes behind the others, and gives where they begin.
fn append(bytes: &mut Vec<u8>, more: &[u8]) -> Result<usize, NoMemory>
    ensures keeps { OnOk result (Keeps bytes.old.items bytes.new.items) }
    ensures fits { IfOk result (λ begin. begin + length more.now ≤ length bytes.new.items) }
    ensures is { IfOk result (λ begin.
        part_of bytes.new.items begin (length more.now) ≡ more.now) }
    ensures err { OnErr result (bytes.new.items ≡ bytes.old.items) }
{
    let begin = bytes.len();
    bytes.extend_from_slice(more)?;
    Ok(begin)
}

/// Puts the rest of a datagram behind the others, unless one of the last datagrams has it, and gives
/// where it begins.
fn put_rest(bytes: &mut Vec<u8>, marks: &[Mark], rest: &[u8]) -> Result<usize, NoMemory>
    requires { All (MarkFits (length bytes.old.items)) marks.now }
    ensures keeps { OnOk result (Keeps bytes.old.items bytes.new.items) }
    ensures fits { IfOk result (λ begin. begin + length rest.now ≤ length bytes.new.items) }
    ensures is { IfOk result (λ begin.
        part_of bytes.new.items begin (length rest.now) ≡ rest.now) }
    ensures err { OnErr result (bytes.new.items ≡ bytes.old.items) }
{
    match shared(bytes, marks, rest) {
        Some(begin) => Ok(begin),
        None => append(bytes, rest),
    }
}

/// The length of a datagram; past its type NoMemory, since no datagram is that long.
fn len_of(datagram: &[u8]) -> Result<u32, NoMemory>
    ensures { IfOk result (λ len. len ≡ length datagram.now) }
{
    match u32::try_from(datagram.len()) {
        Ok(len) => Ok(len),
        Err(_) => Err(NoMemory),
    }
}

/// Puts the bytes of a datagram behind the others, its rest only where it is not shared.
pub fn put_bytes(
    bytes: &mut Vec<u8>,
    marks: &[Mark],
    from: Actor,
    dest: Dest,
    datagram: &[u8],
) -> Result<Mark, NoMemory>
    requires { All (MarkFits (length bytes.old.items)) marks.now }
    ensures keeps { OnOk result (Keeps bytes.old.items bytes.new.items) }
    ensures fits { IfOk result (λ m. MarkFits (length bytes.new.items) m) }
    ensures is { IfOk result (λ m. sent_of bytes.new.items m
        ≡ record { from = from; dest = dest; bytes = datagram.now }) }
    ensures err { OnErr result (bytes.new.items ≡ bytes.old.items) }
{
    let before = bytes.len();
    let len = len_of(datagram)?;
    let (head, rest) = datagram.split_at(datagram.len().min(FRAGMENT_HEADER_BYTES));
    let head = append(bytes, head)?;
    match put_rest(bytes, marks, rest) {
        Ok(rest) => Ok(Mark {
            head,
            rest,
            len,
            from,
            dest,
        }),
        Err(error) => {
            bytes.truncate(before);
            Err(error)
        }
    }
}
