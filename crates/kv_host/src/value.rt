ghost use Rattle.std.specs.Prelude.{◌≡◌, ◌≤◌, length, IfOk};

use nop_types::{MAX_VALUE_BYTES, NoMemory};
use std::alloc::{AllocError, Global};
use std::marker::Model;

/// A value of at most `MAX_VALUE_BYTES` bytes, seen as their list.
#[derive(Drop)]
pub struct KvValue {
    bytes: Vec<u8>,
}

impl Model for KvValue {
    ghost use Rattle.std.specs.Prelude.{List, ℕ, length, ◌≤◌};
    ghost use Rattle.nop_types.specs.declared.limits.TheConstants.{MAX_VALUE_BYTES};

    ghost Value = { List ℕ };

    ghost view = { λ v. v.bytes.items };

    ghost invariant = { λ v. length v.bytes.items ≤ MAX_VALUE_BYTES };
}

impl KvValue {
    pub fn new(alloc: Global, bytes: &[u8]) -> Result<KvValue, NoMemory>
        requires { length bytes.now ≤ MAX_VALUE_BYTES }
        ensures { IfOk result (λ v. v ≡ bytes.now) }
    {
        Ok(KvValue {
            bytes: Vec::from_slice(alloc, bytes)?,
        })
    }

    pub fn as_slice(&self) -> &[u8]
        ensures bytes { result.now ≡ self.now }
        ensures len { length self.now ≤ MAX_VALUE_BYTES }
    {
        &self.bytes
    }
}

impl Clone for KvValue {
    ghost is_clone = { λ v w. w ≡ v };

    fn clone(&self) -> Result<KvValue, AllocError> {
        Ok(KvValue {
            bytes: self.bytes.clone()?,
        })
    }
}
