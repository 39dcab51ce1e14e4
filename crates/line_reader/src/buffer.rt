ghost use Rattle.outside.specs.Causes.{CountsFor};
ghost use Rattle.line_reader.specs.Filling.{FillsFrom};

use crate::ReadError;
use bytes::BytesMut;
use outside::Source;

/// The most bytes of one read.
const PIECE_BYTES: usize = 4096;

// No contract says it, so here it stands once more.
const _: () = prove!(PIECE_BYTES == 4096);

/// Puts a piece of the source behind the bytes, and says how many bytes it has; 0 is the end.
pub fn fill<S: Source>(bytes: &mut BytesMut, source: &mut S) -> Result<usize, ReadError>
    ensures fills { FillsFrom (S.left source.old) (S.left source.new) bytes.old.items
        bytes.new.items result }
    ensures count { CountsFor (S.fault_count source.old) (S.fault_count source.new)
        ReadError.ReadFault result }
{
    bytes.reserve(PIECE_BYTES)?;
    let mut piece = [0u8; PIECE_BYTES];
    let count = source.read(&mut piece)?;
    bytes.extend_reserved(&piece[..count]);
    Ok(count)
}
