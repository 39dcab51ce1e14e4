//! Which datagrams are parts of a message that has several.
ghost use Rattle.std.specs.Prelude.{◌↔◌, IsTrue};
ghost use Rattle.nop_types.specs.Parts.{IsPart};

use nop_types::kinds::{COUNT_PLACE, FRAGMENT, FRAGMENT_HEADER_BYTES, KIND_PLACE};

/// Whether a datagram is a part of a message that has several: the fragment of such a message.
pub fn is_part(bytes: &[u8]) -> bool
    ensures { IsTrue result ↔ IsPart bytes.now }
{
    bytes.len() > FRAGMENT_HEADER_BYTES
        && bytes[KIND_PLACE] == FRAGMENT
        && bytes[COUNT_PLACE..COUNT_PLACE + 2] != [0, 1]
}
