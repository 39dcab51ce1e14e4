//! Numbers of eight bytes.

ghost use Rattle.std.specs.Prelude.{◌≡◌, ◌+◌, ◌++◌, length, option_map, OnOk};
ghost use Rattle.saved_fields.specs.Numbers.{first_eight, number_at, number_bytes};

use crate::field::Field;
use nop_types::NoMemory;
use std::alloc::Global;

/// The number in the first eight bytes, the highest one first, and the bytes after it.
fn eight(bytes: &[u8]) -> Option<(u64, &[u8])>
    ensures { option_map (λ p. (p.0, p.1.now)) result ≡ first_eight bytes.now }
{
    if bytes.len() < 8 {
        return None;
    }
    let (prefix, rest) = bytes.split_at(8);
    let number = u64::from_be_bytes([
        prefix[0], prefix[1], prefix[2], prefix[3], prefix[4], prefix[5], prefix[6], prefix[7],
    ]);
    Some((number, rest))
}

/// A number in eight bytes, the highest first, and what follows; None where there are fewer.
pub fn number(bytes: &[u8]) -> Option<(u64, &[u8])>
    ensures { option_map (λ p. (p.0, p.1.now)) result ≡ number_at bytes.now }
{
    eight(bytes)
}

/// Appends a number.
#[tactic(auto, unfolding(crate::specs::Numbers::number_bytes))]
pub fn put_number(to: &mut Vec<u8>, number: u64) -> Result<(), NoMemory>
    ensures bytes { OnOk result (to.new.items ≡ to.old.items ++ number_bytes number) }
    ensures len { OnOk result (length to.new.items ≡ length to.old.items + 8) }
{
    to.extend_from_slice(&number.to_be_bytes())?;
    Ok(())
}

impl Field for u64 {
    ghost use Rattle.saved_fields.specs.Numbers.{NumberFits};
    ghost use Rattle.saved_fields.specs.Reading.{numbers};

    ghost fits = { NumberFits };

    ghost spell = { number_bytes };

    ghost read_at = { number_at };

    ghost is_field = { numbers };

    fn put(&self, to: &mut Vec<u8>) -> Result<(), NoMemory> {
        put_number(to, *self)
    }

    fn read(_alloc: Global, bytes: &[u8]) -> Result<Option<(u64, &[u8])>, NoMemory> {
        Ok(number(bytes))
    }
}
