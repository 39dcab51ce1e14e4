ghost use Rattle.std.specs.Prelude.{◌≡◌, ◌≤◌, length, IfOk};

use crate::{MAX_KEY_BYTES, NoMemory};
use std::alloc::Global;
use std::marker::Model;

/// A key that an observer is asked for: 1 to `MAX_KEY_BYTES` bytes, seen as their list.
#[derive(Debug, Drop)]
pub struct Key {
    bytes: Vec<u8>,
}

impl Model for Key {
    ghost use Rattle.std.specs.Prelude.{List, ℕ, length, ◌≤◌};
    ghost use Rattle.nop_types.specs.declared.limits.TheConstants.{MAX_KEY_BYTES};

    ghost Value = { List ℕ };

    ghost view = { λ k. k.bytes.items };

    ghost invariant = { λ k. (1 ≤ length k.bytes.items) × (length k.bytes.items ≤ MAX_KEY_BYTES) };
}

impl Key {
    pub fn new(alloc: Global, bytes: &[u8]) -> Result<Key, NoMemory>
        requires some { 1 ≤ length bytes.now }
        requires most { length bytes.now ≤ MAX_KEY_BYTES }
        ensures { IfOk result (λ key. key ≡ bytes.now) }
    {
        Ok(Key {
            bytes: Vec::from_slice(alloc, bytes)?,
        })
    }

    /// The bytes of a vector, without a copy.
    pub fn from_vec(bytes: Vec<u8>) -> Key
        requires some { 1 ≤ length bytes.items }
        requires most { length bytes.items ≤ MAX_KEY_BYTES }
        ensures { result ≡ bytes.items }
    {
        Key { bytes }
    }

    pub fn as_slice(&self) -> &[u8]
        ensures bytes { result.now ≡ self.now }
        ensures some { 1 ≤ length self.now }
        ensures most { length self.now ≤ MAX_KEY_BYTES }
    {
        &self.bytes
    }

    pub fn try_clone(&self) -> Result<Key, NoMemory>
        ensures { IfOk result (λ key. key ≡ self.now) }
    {
        Key::new(*self.bytes.allocator(), &self.bytes)
    }
}
