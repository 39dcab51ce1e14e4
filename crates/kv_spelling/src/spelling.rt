//! The bytes of any op.

ghost use Rattle.std.specs.Prelude.{◌≡◌, ◌∷◌, Some, None, if◌then◌else◌, IfOk};
ghost use Rattle.kv_host.specs.Op.{Put, Swap};
ghost use Rattle.kv_host.specs.Spelling.{field};
ghost use Rattle.kv_host.specs.View.{op_of};
ghost use Rattle.kv_spelling.specs.Spell.{fits_key, spell};

use crate::fields::{fits_key, fits_value};
use crate::ops::{key_op, swap_op, value_op};
use kv_host::{DELETE, GET, KvOp};
use nop_types::{NoMemory, Op};
use std::alloc::Global;

fn with_key(alloc: Global, kind: u8, key: &[u8]) -> Result<Option<Op>, NoMemory>
    ensures { IfOk result (λ op. op
        ≡ (if fits_key key.now then Some (kind ∷ field key.now) else None)) }
{
    if !fits_key(key) {
        return Ok(None);
    }
    Ok(Some(key_op(alloc, kind, key)?))
}

#[tactic(auto, unfolding(crate::specs::Spell::spell))]
fn put(alloc: Global, key: &[u8], value: &[u8]) -> Result<Option<Op>, NoMemory>
    ensures { IfOk result (λ op. op ≡ spell (Put key.now value.now)) }
{
    if !fits_key(key) || !fits_value(value) {
        return Ok(None);
    }
    Ok(Some(value_op(alloc, key, value)?))
}

#[tactic(auto, unfolding(crate::specs::Spell::spell))]
fn swap(alloc: Global, key: &[u8], old: &[u8], new: &[u8]) -> Result<Option<Op>, NoMemory>
    ensures { IfOk result (λ op. op ≡ spell (Swap key.now old.now new.now)) }
{
    if !fits_key(key) || !fits_value(old) || !fits_value(new) {
        return Ok(None);
    }
    Ok(Some(swap_op(alloc, key, old, new)?))
}

/// The bytes that spell an op; None where a field has a length that no op may have.
#[tactic(auto, unfolding(crate::specs::Spell::spell))]
pub fn spell(alloc: Global, op: KvOp<'_>) -> Result<Option<Op>, NoMemory>
    ensures { IfOk result (λ bytes. bytes ≡ spell (op_of op.entry)) }
{
    match op {
        KvOp::Get(key) => with_key(alloc, GET, key),
        KvOp::Put(key, value) => put(alloc, key, value),
        KvOp::Delete(key) => with_key(alloc, DELETE, key),
        KvOp::Swap(key, old, new) => swap(alloc, key, old, new),
        KvOp::Bad => Ok(None),
    }
}
