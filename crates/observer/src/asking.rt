ghost use Rattle.std.specs.Prelude.{◌≡◌, IfOk};
ghost use Rattle.nop_types.specs.Services.{get_of};

use nop_types::{Key, NoMemory};
use std::alloc::Global;

/// The op that asks a service for a key.
#[tactic(auto, unfolding(nop_types::specs::Services::get_of))]
pub(crate) fn get_of(alloc: Global, key: &Key) -> Result<Vec<u8>, NoMemory>
    ensures { IfOk result (λ op. op.items ≡ get_of key.now) }
{
    let key = key.as_slice();
    let [.., high, low] = key.len().to_be_bytes();
    let mut op = Vec::from_slice(alloc, &[b'G', high, low])?;
    op.extend_from_slice(key)?;
    Ok(op)
}
