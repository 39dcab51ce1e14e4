//! Names, as fields of ops and of saved states.

ghost use Rattle.std.specs.Prelude.{◌≡◌, ◌++◌, option_map, OnOk};
ghost use Rattle.lock_host.specs.Fields.{name_bytes, name_at};

use crate::name::{MAX_NAME_BYTES, Name};
use nop_types::NoMemory;
use saved_fields::put_text;

/// A length in a byte and that many bytes, and what follows.
#[tactic(auto, unfolding(crate::specs::Fields::name_at))]
pub fn name(bytes: &[u8]) -> Option<(Name, &[u8])>
    ensures { option_map (λ p. (p.0, p.1.now)) result ≡ name_at bytes.now }
{
    let [len, rest @ ..] = bytes else {
        return None;
    };
    let len = *len as usize;
    if len < 1 || len > MAX_NAME_BYTES || len > rest.len() {
        return None;
    }
    let (name, rest) = rest.split_at(len);
    Some((Name::new(name), rest))
}

/// Appends a name.
pub fn put_name(to: &mut Vec<u8>, name: &Name) -> Result<(), NoMemory>
    ensures { OnOk result (to.new.items ≡ to.old.items ++ name_bytes name.now) }
{
    put_text(to, name.as_slice())
}
