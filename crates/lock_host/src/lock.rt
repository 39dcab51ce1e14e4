//! A lock that is held, with its owner and its token.
ghost use Rattle.std.specs.Prelude.{◌≡◌};

use crate::name::Name;
use std::alloc::AllocError;

/// A lock that is held: by whom, and with which token.
#[derive(Drop)]
pub struct Lock {
    pub name: Name,
    pub owner: Name,
    pub token: u64,
}

impl Lock {
    pub fn copied(&self) -> Lock
        ensures { result ≡ self.now }
    {
        Lock {
            name: self.name.copied(),
            owner: self.owner.copied(),
            token: self.token,
        }
    }
}

impl Clone for Lock {
    ghost is_clone = { λ v w. w ≡ v };

    fn clone(&self) -> Result<Lock, AllocError> {
        Ok(self.copied())
    }
}
