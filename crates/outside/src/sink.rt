ghost use Rattle.std.specs.Prelude.{◌≡◌, ◌≤◌, ◌<◌, List, ℕ, Option, length, IfOk, OnOk, OnErr, IsOkUnless};
ghost use Rattle.std.specs.Io.KnownBytes.{WriteAppends, Appends};
ghost use Rattle.outside.specs.Causes.{Rose, CountsFor, count_after};
ghost use Rattle.outside.specs.Prefixes.{AppendsPrefix};
ghost use Rattle.outside.specs.declared.errors.DeviceError.TheVariants as errors;

use crate::WriteError;

/// Where bytes go.
pub trait Sink {
    /// The bytes that it holds, where it is observable.
    ghost held: { Self → Option (List ℕ) };

    /// How often it failed.
    ghost fault_count: { Self → ℕ };

    /// Adds bytes from the front of the piece, and says how many. On an error it added nothing. The count rises by one where
    /// it failed, and else stays.
    fn write(&mut self, piece: &[u8]) -> Result<usize, WriteError>
        ensures most { IfOk result (λ n. n ≤ length piece.now) }
        ensures some { IfOk result (λ n. 0 < length piece.now → 0 < n) }
        ensures bytes { WriteAppends (held self.old) (held self.new) result piece.now }
        ensures later { fault_count self.old ≤ fault_count self.new }
        ensures count { fault_count self.new ≡ count_after result (fault_count self.old) };

    /// How often it failed, up to the greatest number of 64 bits.
    fn faults(&self) -> u64
        ensures { result ≡ fault_count self.now };
}

/// Writes all of the bytes, in as many calls as the sink needs. On an error a front of them was written, and not all.
#[tactic(auto, using(crate::proofs::Pieces::Appends_more))]
pub fn write_all<K: Sink>(sink: &mut K, bytes: &[u8]) -> Result<(), WriteError>
    ensures ok { OnOk result (Appends (K.held sink.old) (K.held sink.new) bytes.now) }
    ensures err { OnErr result (AppendsPrefix (K.held sink.old) (K.held sink.new) bytes.now) }
    ensures count { CountsFor (K.fault_count sink.old) (K.fault_count sink.new)
        errors.Failed result }
    ensures succeeds { ¬ Rose (K.fault_count sink.old) (K.fault_count sink.new)
        → IsOkUnless result errors.NoMemory }
{
    let mut at = 0;
    while at < bytes.len() {
        let count = sink.write(&bytes[at..])?;
        at += count;
    }
    Ok(())
}
