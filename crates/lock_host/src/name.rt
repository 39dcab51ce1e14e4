//! The name of a lock or of an owner, of a limited length, that takes no memory of its own.
ghost use Rattle.std.specs.Prelude.{◌≡◌, ◌≤◌, length};
ghost use Rattle.lock_host.specs.Locks.{is_same};

use std::marker::Model;

/// The most bytes of a name.
pub const MAX_NAME_BYTES: usize = 64;

// A number that both code and definitions name would be proved whatever it was; so here it stands
// once more.
const _: () = prove!(MAX_NAME_BYTES == 64);

/// The name of a lock or of an owner: at most `MAX_NAME_BYTES` bytes, seen as their list. It takes
/// no memory of its own.
#[derive(Drop)]
pub struct Name {
    bytes: [u8; MAX_NAME_BYTES],
    len: u8,
}

impl Model for Name {
    ghost use Rattle.std.specs.Prelude.{List, ℕ, take, ◌≤◌};
    ghost use Rattle.lock_host.specs.declared.name.TheConstants.{MAX_NAME_BYTES};

    ghost Value = { List ℕ };

    ghost view = { λ n. take n.len n.bytes };

    ghost invariant = { λ n. n.len ≤ MAX_NAME_BYTES };
}

impl Name {
    pub fn new(name: &[u8]) -> Name
        requires { length name.now ≤ MAX_NAME_BYTES }
        ensures { result ≡ name.now }
    {
        let mut bytes = [0; MAX_NAME_BYTES];
        bytes[..name.len()].copy_from_slice(name);
        Name {
            bytes,
            len: name.len() as u8,
        }
    }

    pub fn copied(&self) -> Name
        ensures { result ≡ self.now }
    {
        Name {
            bytes: self.bytes,
            len: self.len,
        }
    }

    pub fn as_slice(&self) -> &[u8]
        ensures bytes { result.now ≡ self.now }
        ensures len { length self.now ≤ MAX_NAME_BYTES }
    {
        &self.bytes[..self.len as usize]
    }

    pub fn is_same(&self, other: &Name) -> bool
        ensures { result ≡ is_same self.now other.now }
    {
        self.as_slice() == other.as_slice()
    }
}
