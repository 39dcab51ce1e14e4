ghost use Rattle.std.specs.Prelude.{◌≡◌, ◌⊎◌, option_map};
ghost use Rattle.kv_host.specs.Op.{Bad, field_at, key_at, value_at, read_get, read_put, read_delete, read_swap};
ghost use Rattle.kv_host.specs.Op.{read_op, at_end};
ghost use Rattle.kv_host.specs.Spelling.{Spells};
ghost use Rattle.kv_host.specs.View.{op_of};

use nop_types::{MAX_KEY_BYTES, MAX_VALUE_BYTES};

/// The first byte of a get.
pub const GET: u8 = b'G';

/// The first byte of a put.
pub const PUT: u8 = b'P';

/// The first byte of a delete.
pub const DELETE: u8 = b'D';

/// The first byte of a swap.
pub const SWAP: u8 = b'C';

// A byte that both code and definitions name would be proved whatever it was; so here each stands once more.
const _: () = prove!(GET == 0x47 && PUT == 0x50 && DELETE == 0x44 && SWAP == 0x43);

/// An op as it was read.
#[derive(Clone, Copy)]
pub enum KvOp<'a> {
    /// Of a key.
    Get(&'a [u8]),
    /// Of a key and its new value.
    Put(&'a [u8], &'a [u8]),
    /// Of a key.
    Delete(&'a [u8]),
    /// Of a key, the old value and the new one.
    Swap(&'a [u8], &'a [u8], &'a [u8]),
    /// Bytes that spell no op.
    Bad,
}

/// A length of two bytes and that many bytes, and what follows.
#[tactic(auto, unfolding(crate::specs::Op::field_at))]
fn field(bytes: &[u8], least: usize, most: usize) -> Option<(&[u8], &[u8])>
    ensures { option_map (λ p. (p.0.now, p.1.now)) result ≡ field_at least most bytes.now }
{
    let [high, low, rest @ ..] = bytes else {
        return None;
    };
    let len = u16::from_be_bytes([*high, *low]) as usize;
    if len < least || len > most || len > rest.len() {
        return None;
    }
    Some(rest.split_at(len))
}

/// A key, and what follows it.
pub fn key(bytes: &[u8]) -> Option<(&[u8], &[u8])>
    ensures { option_map (λ p. (p.0.now, p.1.now)) result ≡ key_at bytes.now }
{
    field(bytes, 1, MAX_KEY_BYTES)
}

/// A value, and what follows it.
pub fn value(bytes: &[u8]) -> Option<(&[u8], &[u8])>
    ensures { option_map (λ p. (p.0.now, p.1.now)) result ≡ value_at bytes.now }
{
    field(bytes, 0, MAX_VALUE_BYTES)
}

/// The op, where nothing follows.
fn at_end<'a>(rest: &[u8], op: KvOp<'a>) -> Option<KvOp<'a>>
    ensures { option_map op_of result ≡ at_end rest.now (op_of op.entry) }
{
    if rest.is_empty() { Some(op) } else { None }
}

#[tactic(auto, unfolding(crate::specs::Op::read_get))]
fn get(fields: &[u8]) -> Option<KvOp<'_>>
    ensures { option_map op_of result ≡ read_get fields.now }
{
    match key(fields) {
        Some((key, rest)) => at_end(rest, KvOp::Get(key)),
        None => None,
    }
}

#[tactic(auto, unfolding(crate::specs::Op::read_put))]
fn put(fields: &[u8]) -> Option<KvOp<'_>>
    ensures { option_map op_of result ≡ read_put fields.now }
{
    let Some((key, rest)) = key(fields) else {
        return None;
    };
    match value(rest) {
        Some((value, rest)) => at_end(rest, KvOp::Put(key, value)),
        None => None,
    }
}

#[tactic(auto, unfolding(crate::specs::Op::read_delete))]
fn delete(fields: &[u8]) -> Option<KvOp<'_>>
    ensures { option_map op_of result ≡ read_delete fields.now }
{
    match key(fields) {
        Some((key, rest)) => at_end(rest, KvOp::Delete(key)),
        None => None,
    }
}

#[tactic(auto, unfolding(crate::specs::Op::read_swap))]
fn swap(fields: &[u8]) -> Option<KvOp<'_>>
    ensures { option_map op_of result ≡ read_swap fields.now }
{
    let Some((key, rest)) = key(fields) else {
        return None;
    };
    let Some((old, rest)) = value(rest) else {
        return None;
    };
    match value(rest) {
        Some((new, rest)) => at_end(rest, KvOp::Swap(key, old, new)),
        None => None,
    }
}

/// The op that the bytes spell.
#[tactic(auto, unfolding(crate::specs::Op::read_op))]
pub fn read(op: &[u8]) -> KvOp<'_>
    ensures { op_of result ≡ read_op op.now }
{
    let read = match op {
        [GET, fields @ ..] => get(fields),
        [PUT, fields @ ..] => put(fields),
        [DELETE, fields @ ..] => delete(fields),
        [SWAP, fields @ ..] => swap(fields),
        _ => None,
    };
    read.unwrap_or(KvOp::Bad)
}

/// An op is read from the bytes that spell it, and from no others.
pub fn ops_are_read_as_spelled()
    ensures read { (op : _) (bytes : _) → Spells op bytes → read_op bytes ≡ op }
    ensures spelled { (bytes : _) → (read_op bytes ≡ Bad) ⊎ Spells (read_op bytes) bytes }
{}
