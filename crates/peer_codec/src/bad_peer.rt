use nop_types::NoMemory as OutOfMemory;
use std::alloc::{AllocError, AllocFailed};

/// Why bytes are no peer message: the first of these tests that they fail. A first byte is there, it is a kind; then for each
/// field in order its bytes are there, and it is in range; nothing follows.
#[derive(Clone, Copy, Debug, PartialEq, Eq)]
pub enum BadPeer {
    /// Bytes are missing.
    Short,
    Kind,
    /// A field is out of its range.
    Field,
    /// Bytes follow the last field.
    Trailing,
    NoMemory,
}

impl From<OutOfMemory> for BadPeer {
    ghost use Rattle.std.specs.Prelude.{◌≡◌};
    ghost use Rattle.peer_codec.specs.declared.bad_peer.BadPeer.TheVariants.{NoMemory};

    ghost from_gives = { λ _ e. e ≡ NoMemory };

    fn from(_e: OutOfMemory) -> BadPeer {
        BadPeer::NoMemory
    }
}

impl From<AllocError> for BadPeer {
    ghost use Rattle.std.specs.Prelude.{◌≡◌};
    ghost use Rattle.peer_codec.specs.declared.bad_peer.BadPeer.TheVariants.{NoMemory};

    ghost from_gives = { λ _ e. e ≡ NoMemory };

    fn from(_e: AllocError) -> BadPeer {
        BadPeer::NoMemory
    }
}

impl<T: Drop> From<AllocFailed<T>> for BadPeer {
    ghost use Rattle.std.specs.Prelude.{◌≡◌};
    ghost use Rattle.peer_codec.specs.declared.bad_peer.BadPeer.TheVariants.{NoMemory};

    ghost from_gives = { λ _ e. e ≡ NoMemory };

    fn from(_e: AllocFailed<T>) -> BadPeer {
        BadPeer::NoMemory
    }
}
