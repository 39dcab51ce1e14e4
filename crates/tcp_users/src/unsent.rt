//! Bytes that a connection has not taken yet.

ghost use Rattle.std.specs.Prelude.{◌≡◌, ◌==◌, ◌++◌, ◌+◌, ◌<◌, ◌≤◌, ◌↔◌, [], drop, length, Err, OnErr, OnOk};
ghost use Rattle.tcp_users.specs.declared.limits.TheConstants.{MAX_UNSENT_BYTES};
ghost use Rattle.tcp_users.specs.declared.unsent.KeepError.TheVariants as errors;

use crate::limits::MAX_UNSENT_BYTES;
use nop_types::NoMemory;
use std::alloc::{AllocError, Global};
use std::marker::Model;

/// Why bytes are not kept.
#[derive(Clone, Copy, PartialEq, Eq)]
pub(crate) enum KeepError {
    /// More than `MAX_UNSENT_BYTES` would wait.
    Full,
    NoMemory,
}

impl From<AllocError> for KeepError {
    ghost use Rattle.std.specs.Prelude.{◌≡◌};
    ghost use Rattle.tcp_users.specs.declared.unsent.KeepError.TheVariants as errors;

    ghost from_gives = { λ _ e. e ≡ errors.NoMemory };

    fn from(_e: AllocError) -> KeepError {
        KeepError::NoMemory
    }
}

/// Bytes that wait, seen as their list: at most `MAX_UNSENT_BYTES`.
#[derive(Drop)]
pub(crate) struct Unsent {
    alloc: Global,
    bytes: Vec<u8>,
    // How many of the bytes do not wait any more.
    taken: usize,
}

impl Model for Unsent {
    ghost use Rattle.std.specs.Prelude.{List, ℕ, drop, length, ◌≤◌, ◌+◌};
    ghost use Rattle.tcp_users.specs.declared.limits.TheConstants.{MAX_UNSENT_BYTES};

    ghost Value = { List ℕ };

    ghost view = { λ u. drop u.taken u.bytes.items };

    ghost invariant = { λ u. (u.taken ≤ length u.bytes.items)
        × (length u.bytes.items ≤ u.taken + MAX_UNSENT_BYTES) };
}

impl Unsent {
    pub(crate) fn new(alloc: Global) -> Unsent
        ensures { result ≡ [] }
    {
        Unsent {
            alloc,
            bytes: Vec::new(alloc),
            taken: 0,
        }
    }

    pub(crate) fn as_slice(&self) -> &[u8]
        ensures bytes { result.now ≡ self.now }
        ensures limit { length self.now ≤ MAX_UNSENT_BYTES }
    {
        &self.bytes[self.taken..]
    }

    pub(crate) fn is_empty(&self) -> bool
        ensures { result ≡ (length self.now == 0) }
    {
        self.as_slice().is_empty()
    }

    /// Lets go of what was taken, where it is more than what waits: so memory is bounded.
    fn compact(&mut self) -> Result<(), AllocError>
        ensures { self.new ≡ self.old }
    {
        if self.taken > self.bytes.len() - self.taken {
            self.bytes = Vec::from_slice(self.alloc, &self.bytes[self.taken..])?;
            self.taken = 0;
        }
        Ok(())
    }

    #[tactic(auto, using(crate::proofs::Keeping::drop_more, crate::proofs::Keeping::fits))]
    fn append(&mut self, more: &[u8]) -> Result<(), AllocError>
        requires { length self.old + length more.now ≤ MAX_UNSENT_BYTES }
        ensures ok { OnOk result (self.new ≡ self.old ++ more.now) }
        ensures err { OnErr result (self.new ≡ self.old) }
    {
        self.bytes.extend_from_slice(more)?;
        Ok(())
    }

    /// Lets bytes wait behind the others. At an error none of them does.
    pub(crate) fn keep(&mut self, more: &[u8]) -> Result<(), KeepError>
        ensures ok { OnOk result (self.new ≡ self.old ++ more.now) }
        ensures err { OnErr result (self.new ≡ self.old) }
        ensures full { (result ≡ Err errors.Full)
            ↔ (MAX_UNSENT_BYTES < length self.old + length more.now) }
    {
        if more.len() > MAX_UNSENT_BYTES - self.as_slice().len() {
            return Err(KeepError::Full);
        }
        self.compact()?;
        self.append(more)?;
        Ok(())
    }

    /// The first bytes do not wait any more.
    pub(crate) fn advance(&mut self, count: usize)
        requires { count ≤ length self.old }
        ensures { self.new ≡ drop count self.old }
    {
        self.taken += count;
        if self.taken == self.bytes.len() {
            self.bytes = Vec::new(self.alloc);
            self.taken = 0;
        }
    }
}
