ghost use Rattle.std.specs.Prelude.{◌≡◌, ◌≤◌, length, IfOk};

use crate::{MAX_OP_BYTES, NoMemory};
use std::alloc::Global;
use std::marker::Model;

/// What a client asks of the host: at most `MAX_OP_BYTES` bytes, seen as their list.
#[derive(Debug, Drop)]
pub struct Op {
    bytes: Vec<u8>,
}

impl Model for Op {
    ghost use Rattle.std.specs.Prelude.{List, ℕ, length, ◌≤◌};
    ghost use Rattle.nop_types.specs.declared.limits.TheConstants.{MAX_OP_BYTES};

    ghost Value = { List ℕ };

    ghost view = { λ o. o.bytes.items };

    ghost invariant = { λ o. length o.bytes.items ≤ MAX_OP_BYTES };
}

impl Op {
    pub fn new(alloc: Global, bytes: &[u8]) -> Result<Op, NoMemory>
        requires { length bytes.now ≤ MAX_OP_BYTES }
        ensures { IfOk result (λ op. op ≡ bytes.now) }
    {
        Ok(Op {
            bytes: Vec::from_slice(alloc, bytes)?,
        })
    }

    /// The bytes of a vector, without a copy.
    pub fn from_vec(bytes: Vec<u8>) -> Op
        requires { length bytes.items ≤ MAX_OP_BYTES }
        ensures { result ≡ bytes.items }
    {
        Op { bytes }
    }

    pub fn as_slice(&self) -> &[u8]
        ensures bytes { result.now ≡ self.now }
        ensures len { length self.now ≤ MAX_OP_BYTES }
    {
        &self.bytes
    }

    pub fn try_clone(&self) -> Result<Op, NoMemory>
        ensures { IfOk result (λ op. op ≡ self.now) }
    {
        Op::new(*self.bytes.allocator(), &self.bytes)
    }
}
