//! A kind of value that a service saves: its bytes, and how it is read back.
ghost use Rattle.std.specs.Prelude.{◌≡◌, ◌++◌, ℕ, List, Option, option_map, IfOk, OnOk};
ghost use Rattle.saved_fields.specs.Fields.{IsField};

use nop_types::NoMemory;
use std::alloc::Global;

/// A kind of value that is saved, alone or in a list.
pub trait Field: Sized + Drop {
    /// The values that are saved.
    ghost fits: { Self → Type 0 };

    /// The bytes of a value.
    ghost spell: { Self → List ℕ };

    /// The value with which bytes begin, and what follows it.
    ghost read_at: { List ℕ → Option (Self × List ℕ) };

    /// Appends the bytes of the value.
    fn put(&self, to: &mut Vec<u8>) -> Result<(), NoMemory>
        ensures { OnOk result (to.new.items ≡ to.old.items ++ spell self.now) };

    /// The value with which the bytes begin, and what follows it; None where they begin with none.
    fn read(alloc: Global, bytes: &[u8]) -> Result<Option<(Self, &[u8])>, NoMemory>
        ensures { IfOk result (λ found.
            option_map (λ p. (p.0, p.1.now)) found ≡ read_at bytes.now) };

    ghost is_field: { IsField fits spell read_at };
}
