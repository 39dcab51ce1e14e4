//! The bytes of a user that are not read yet.
ghost use Rattle.std.specs.Prelude.{◌≡◌, ◌≤◌, ◌<◌, ◌^◌, ◌++◌, [], drop, length, OnOk, OnErr};

use nop_types::NoMemory;
use std::alloc::Global;
use std::marker::Model;

/// Bytes that were read are taken out of the vector where there are at least so many.
const MANY_READ: usize = 4096;

const _: () = prove!(MANY_READ == 4096);

/// Bytes of a user that are not read yet. Those that are read stay in front of them for a while, so that each byte is moved a few times
/// at most.
#[derive(Drop)]
pub struct Waiting {
    bytes: Vec<u8>,
    at: usize,
}

impl Model for Waiting {
    ghost use Rattle.std.specs.Prelude.{List, ℕ, drop, length, ◌≤◌};

    ghost Value = { List ℕ };

    ghost view = { λ w. drop w.at w.bytes.items };

    ghost invariant = { λ w. w.at ≤ length w.bytes.items };
}

/// Takes the first bytes out.
fn drop_first(bytes: &mut Vec<u8>, count: usize)
    requires { count ≤ length bytes.old.items }
    ensures { bytes.new.items ≡ drop count bytes.old.items }
{
    bytes.drain(..count);
}

impl Waiting {
    pub(crate) fn new(alloc: Global) -> Waiting
        ensures { result ≡ [] }
    {
        Waiting {
            bytes: Vec::new(alloc),
            at: 0,
        }
    }

    pub(crate) fn as_slice(&self) -> &[u8]
        ensures { result.now ≡ self.now }
    {
        &self.bytes[self.at..]
    }

    pub(crate) fn len(&self) -> usize
        ensures len { result ≡ length self.now }
        ensures small { result < 2 ^ 63 }
    {
        self.bytes.len() - self.at
    }

    /// More bytes come.
    pub(crate) fn push(&mut self, bytes: &[u8]) -> Result<(), NoMemory>
        ensures ok { OnOk result (self.new ≡ self.old ++ bytes.now) }
        ensures err { OnErr result (self.new ≡ self.old) }
    {
        self.bytes.extend_from_slice(bytes)?;
        Ok(())
    }

    /// The first `len` bytes are read.
    pub(crate) fn pass(&mut self, len: usize)
        requires { len ≤ length self.old }
        ensures { self.new ≡ drop len self.old }
    {
        self.at += len;
        self.let_go();
    }

    /// Bytes that are read are taken out where they are at least as many as the others: then each byte is moved no more often than one is read.
    fn let_go(&mut self)
        ensures { self.new ≡ self.old }
    {
        if self.at == self.bytes.len()
            || (MANY_READ <= self.at && self.bytes.len() - self.at <= self.at)
        {
            drop_first(&mut self.bytes, self.at);
            self.at = 0;
        }
    }
}
