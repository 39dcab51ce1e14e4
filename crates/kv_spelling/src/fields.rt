//! The fields of an op.

ghost use Rattle.std.specs.Prelude.{◌≡◌, ◌+◌, ◌++◌, length, OnOk};
ghost use Rattle.kv_host.specs.Spelling.{field};
ghost use Rattle.kv_spelling.specs.Spell.{fits_key, fits_value};

use nop_types::{MAX_KEY_BYTES, MAX_VALUE_BYTES, NoMemory};

/// Whether a key of an op may have this length: 1 to `MAX_KEY_BYTES`.
pub fn fits_key(key: &[u8]) -> bool
    ensures { result ≡ fits_key key.now }
{
    1 <= key.len() && key.len() <= MAX_KEY_BYTES
}

/// Whether a value of an op may have this length: up to `MAX_VALUE_BYTES`.
pub fn fits_value(value: &[u8]) -> bool
    ensures { result ≡ fits_value value.now }
{
    value.len() <= MAX_VALUE_BYTES
}

/// Appends a length in two bytes, and the bytes.
#[tactic(auto, unfolding(kv_host::specs::Spelling::field))]
pub(crate) fn put_field(bytes: &[u8], to: &mut Vec<u8>) -> Result<(), NoMemory>
    ensures bytes { OnOk result (to.new.items ≡ to.old.items ++ field bytes.now) }
    ensures len { OnOk result (length to.new.items
        ≡ length to.old.items + (2 + length bytes.now)) }
{
    let [.., high, low] = bytes.len().to_be_bytes();
    to.extend_from_slice(&[high, low])?;
    to.extend_from_slice(bytes)?;
    Ok(())
}
