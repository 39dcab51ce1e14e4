ghost use Rattle.std.specs.Prelude.{◌≡◌, [], OnOk};
ghost use Rattle.outside.specs.Causes.{CountsFor};
ghost use Rattle.schedule_text.specs.Stepping.{NeedsNoRead};
ghost use Rattle.replay.specs.Steps.{Gathers, Writes};

use crate::error::ReplayError;
use outside::{Sink, WriteError, write_all};
use schedule_text::Reader;

/// So many bytes are gathered before they are written.
pub const GATHERED_BYTES: usize = 0x1_0000;

/// Writes what was gathered.
pub fn flush<K: Sink>(sink: &mut K, pending: &mut Vec<u8>) -> Result<(), ReplayError>
    ensures writes { Writes (K.held sink.old) (K.held sink.new) pending.old.items result }
    ensures empty { OnOk result (pending.new.items ≡ []) }
    ensures count { CountsFor (K.fault_count sink.old) (K.fault_count sink.new)
        ReplayError.WriteFault result }
{
    match write_all(sink, pending) {
        Ok(()) => {
            pending.clear();
            Ok(())
        }
        Err(WriteError::Failed) => Err(ReplayError::WriteFault),
        Err(WriteError::NoMemory) => Err(ReplayError::NoMemory),
    }
}

/// Writes what was gathered, unless the next line is there already: a reader that will not read keeps nobody waiting.
#[tactic(auto, using(crate::proofs::Prefixes::misses_fails))]
pub fn write_decided<K: Sink>(
    reader: &Reader,
    pending: &mut Vec<u8>,
    sink: &mut K,
) -> Result<(), ReplayError>
    ensures gathers { Gathers (K.held sink.old) (K.held sink.new) pending.old.items
        pending.new.items [] result }
    ensures written { OnOk result (¬ NeedsNoRead reader.now → pending.new.items ≡ []) }
    ensures count { CountsFor (K.fault_count sink.old) (K.fault_count sink.new)
        ReplayError.WriteFault result }
{
    if !reader.has_line() {
        flush(sink, pending)?;
    }
    Ok(())
}
