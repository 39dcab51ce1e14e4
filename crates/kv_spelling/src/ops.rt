//! The bytes of ops whose fields have lengths that an op may have.

ghost use Rattle.std.specs.Prelude.{◌≡◌, ◌≤◌, ◌∷◌, ◌++◌, length, IfOk};
ghost use Rattle.kv_host.specs.Spelling.{field};

use crate::fields::put_field;
use kv_host::{PUT, SWAP};
use nop_types::{MAX_KEY_BYTES, MAX_VALUE_BYTES, NoMemory, Op};
use std::alloc::Global;

/// An op of a key alone: `GET` or `DELETE`, its kind.
pub fn key_op(alloc: Global, kind: u8, key: &[u8]) -> Result<Op, NoMemory>
    requires { length key.now ≤ MAX_KEY_BYTES }
    ensures { IfOk result (λ op. op ≡ kind ∷ field key.now) }
{
    let mut op = Vec::from_slice(alloc, &[kind])?;
    put_field(key, &mut op)?;
    Ok(Op::from_vec(op))
}

/// An op that gives a key a value.
pub fn value_op(alloc: Global, key: &[u8], value: &[u8]) -> Result<Op, NoMemory>
    requires key { length key.now ≤ MAX_KEY_BYTES }
    requires value { length value.now ≤ MAX_VALUE_BYTES }
    ensures { IfOk result (λ op. op ≡ PUT ∷ (field key.now ++ field value.now)) }
{
    let mut op = Vec::from_slice(alloc, &[PUT])?;
    put_field(key, &mut op)?;
    put_field(value, &mut op)?;
    Ok(Op::from_vec(op))
}

/// An op that gives a key a new value where it has the old one.
pub fn swap_op(alloc: Global, key: &[u8], old: &[u8], new: &[u8]) -> Result<Op, NoMemory>
    requires key { length key.now ≤ MAX_KEY_BYTES }
    requires old { length old.now ≤ MAX_VALUE_BYTES }
    requires new { length new.now ≤ MAX_VALUE_BYTES }
    ensures { IfOk result (λ op. op
        ≡ SWAP ∷ (field key.now ++ (field old.now ++ field new.now))) }
{
    let mut op = Vec::from_slice(alloc, &[SWAP])?;
    put_field(key, &mut op)?;
    put_field(old, &mut op)?;
    put_field(new, &mut op)?;
    Ok(Op::from_vec(op))
}
