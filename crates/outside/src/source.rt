ghost use Rattle.std.specs.Prelude.{◌≡◌, ◌≤◌, List, ℕ, Option, length, IfOk};
ghost use Rattle.std.specs.Io.KnownBytes.{ReadConsumes};
ghost use Rattle.outside.specs.Causes.{count_after_read};

use crate::Failed;

/// Where bytes come from.
pub trait Source {
    /// The bytes that are left, where the source is observable.
    ghost left: { Self → Option (List ℕ) };

    /// How often it failed.
    ghost fault_count: { Self → ℕ };

    /// Takes bytes from the front of what is left, and puts them at the front of the buffer. 0 is the end, unless the
    /// buffer is empty. The count rises by one where it failed, and else stays.
    fn read(&mut self, buf: &mut [u8]) -> Result<usize, Failed>
        ensures most { IfOk result (λ n. n ≤ length buf.old) }
        ensures bytes { ReadConsumes (left self.old) (left self.new) result buf.new }
        ensures later { fault_count self.old ≤ fault_count self.new }
        ensures count { fault_count self.new ≡ count_after_read result (fault_count self.old) };

    /// How often it failed, up to the greatest number of 64 bits.
    fn faults(&self) -> u64
        ensures { result ≡ fault_count self.now };
}
