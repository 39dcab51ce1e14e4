ghost use Rattle.std.specs.Prelude.{◌≡◌, ◌++◌, ◌∷◌, [], OnErr, OnOk};
ghost use Rattle.nop_types.specs.declared.output.Out.TheVariants.{Send};
ghost use Rattle.nop_types.specs.Ranges.{DatagramFits};
ghost use Rattle.oum_codec.specs.Spelling.{spelling};

use crate::encode;
use nop_types::{Bytes, Datagram, Dest, NoMemory, Out, Outbox};
use std::alloc::Global;

/// Sends a datagram.
pub fn send_datagram(
    alloc: Global,
    dest: Dest,
    datagram: &Datagram,
    out: &mut Outbox,
) -> Result<(), NoMemory>
    requires { DatagramFits datagram.now }
    ensures ok { OnOk result (out.new ≡ out.old ++ Send dest (spelling datagram.now) ∷ []) }
    ensures err { OnErr result (out.new ≡ out.old) }
{
    let mut bytes = Vec::new(alloc);
    encode(alloc, datagram, &mut bytes)?;
    out.push(Out::Send(dest, Bytes::from_vec(bytes)))
}
