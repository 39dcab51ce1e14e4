ghost use Rattle.std.specs.Prelude.{◌≡◌, ◌≤◌, length};

use nop_types::MAX_KEY_BYTES;
use std::marker::Model;

/// A key of at most `MAX_KEY_BYTES` bytes, seen as their list. It takes no memory of its own.
#[derive(Drop)]
pub struct KvKey {
    bytes: [u8; MAX_KEY_BYTES],
    len: u8,
}

impl Model for KvKey {
    ghost use Rattle.std.specs.Prelude.{List, ℕ, take, ◌≤◌};
    ghost use Rattle.nop_types.specs.declared.limits.TheConstants.{MAX_KEY_BYTES};

    ghost Value = { List ℕ };

    ghost view = { λ k. take k.len k.bytes };

    ghost invariant = { λ k. k.len ≤ MAX_KEY_BYTES };
}

impl KvKey {
    pub fn new(key: &[u8]) -> KvKey
        requires { length key.now ≤ MAX_KEY_BYTES }
        ensures { result ≡ key.now }
    {
        let mut bytes = [0; MAX_KEY_BYTES];
        bytes[..key.len()].copy_from_slice(key);
        KvKey {
            bytes,
            len: key.len() as u8,
        }
    }

    pub fn as_slice(&self) -> &[u8]
        ensures { result.now ≡ self.now }
    {
        &self.bytes[..self.len as usize]
    }
}
