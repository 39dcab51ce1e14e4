//! A transcript in which results may be unnoted, read from a source.

ghost use Rattle.std.specs.Prelude.{◌≡◌, length, IfOk};
ghost use Rattle.outside.specs.Causes.{CountsFor};
ghost use Rattle.unnoted_reader.specs.Reading.{IsRead};

use crate::unnoted::Unnoted;
use outside::Source;
use std::alloc::Global;
use transcript_reader::{CheckError, Taken, read_rows};

/// Reads a whole transcript, in which `?` may stand for the result of a line that accepts: what it says, where such a
/// result has no byte; or the first line that breaks clause 1, or else clause 2. Of what claims nothing nothing is kept.
pub fn read_unnoted<S: Source>(alloc: Global, source: &mut S) -> Result<Unnoted, CheckError>
    ensures read { IsRead (S.left source.old) (S.left source.new) result }
    ensures marks { IfOk result (λ u. length u.marks.items ≡ length u.taken.claims.items) }
    ensures count { CountsFor (S.fault_count source.old) (S.fault_count source.new)
        CheckError.ReadFault result }
{
    let mut read = Unnoted {
        taken: Taken::new(alloc),
        marks: Vec::new(alloc),
    };
    read_rows(alloc, source, &mut read)?;
    Ok(read)
}
