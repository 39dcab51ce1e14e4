//! Short texts.

ghost use Rattle.std.specs.Prelude.{◌≡◌, ◌≤◌, ◌++◌, length, option_map, OnOk};
ghost use Rattle.saved_fields.specs.Texts.{text_at, text_bytes};

use nop_types::NoMemory;

/// A text of at most so many bytes, and what follows it; None where the bytes begin with none.
#[tactic(auto, unfolding(crate::specs::Texts::text_at))]
pub fn text(bytes: &[u8], most: usize) -> Option<(&[u8], &[u8])>
    ensures { option_map (λ p. (p.0.now, p.1.now)) result ≡ text_at most bytes.now }
{
    let [len, rest @ ..] = bytes else {
        return None;
    };
    let len = *len as usize;
    if len > most || len > rest.len() {
        return None;
    }
    Some(rest.split_at(len))
}

/// Appends a text of at most 255 bytes, with its length before it.
pub fn put_text(to: &mut Vec<u8>, text: &[u8]) -> Result<(), NoMemory>
    requires { length text.now ≤ 255 }
    ensures { OnOk result (to.new.items ≡ to.old.items ++ text_bytes text.now) }
{
    to.push(text.len() as u8)?;
    to.extend_from_slice(text)?;
    Ok(())
}
