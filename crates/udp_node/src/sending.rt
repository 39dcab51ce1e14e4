ghost use Rattle.std.specs.Prelude.{◌≡◌, ◌≤◌, ◌+◌, ◌∷◌, []};
ghost use Rattle.outside.specs.declared.link.LinkCall.TheVariants as calls;
ghost use Rattle.udp_node.specs.Ports.{is_skipped, unless, datagrams_to, datagrams_from};
ghost use Rattle.udp_node.specs.Sends.{side_of, SendsAll, Unpolled};

use crate::Address;
use nop_types::{Dest, NoMemory};
use outside::{Link, LinkError};

/// Sends a datagram. A send that fails is a loss, and is counted.
pub(crate) fn send_one<L: Link>(
    port: u16,
    bytes: &[u8],
    link: &mut L,
    lost: &mut u64,
) -> Result<(), NoMemory>
    ensures sends { SendsAll (calls.Sent port bytes.now ∷ []) result
        (side_of L.Link link.old lost.old) (side_of L.Link link.new lost.new) }
    ensures unpolled { Unpolled L.Link link.old link.new }
    ensures port { L.own_port link.new ≡ L.own_port link.old }
{
    match link.send(port, bytes) {
        Ok(()) => Ok(()),
        Err(LinkError::Failed) => {
            *lost = lost.saturating_add(1);
            Ok(())
        }
        Err(LinkError::NoMemory) => Err(NoMemory),
    }
}

/// Sends a datagram, unless its port is left out.
#[tactic(auto, using(crate::proofs::SendLemmas::no_sends))]
fn send_unless_skipped<L: Link>(
    port: u16,
    skipped: Option<u16>,
    bytes: &[u8],
    link: &mut L,
    lost: &mut u64,
) -> Result<(), NoMemory>
    ensures sends { SendsAll (unless (is_skipped skipped port)
        (calls.Sent port bytes.now) []) result
        (side_of L.Link link.old lost.old) (side_of L.Link link.new lost.new) }
    ensures unpolled { Unpolled L.Link link.old link.new }
    ensures port { L.own_port link.new ≡ L.own_port link.old }
{
    match skipped {
        Some(other) => {
            if port == other {
                Ok(())
            } else {
                send_one(port, bytes, link, lost)
            }
        }
        None => send_one(port, bytes, link, lost),
    }
}

/// Sends a datagram to each of so many ports, but for the one that is left out.
fn send_each<L: Link>(
    first: u16,
    count: u16,
    skipped: Option<u16>,
    bytes: &[u8],
    link: &mut L,
    lost: &mut u64,
) -> Result<(), NoMemory>
    requires { first + count ≤ 65535 }
    ensures sends { SendsAll (datagrams_from bytes.now skipped first count) result
        (side_of L.Link link.old lost.old) (side_of L.Link link.new lost.new) }
    ensures unpolled { Unpolled L.Link link.old link.new }
    ensures port { L.own_port link.new ≡ L.own_port link.old }
{
    for i in 0..count {
        send_unless_skipped(first + i, skipped, bytes, link, lost)?;
    }
    Ok(())
}

/// Sends a datagram to each port of its destination, in ascending order; one to all replicas not to the own port, and behind them to
/// the observers of the configuration. Failed sends are counted; where memory runs out, what was sent before is sent.
#[tactic(auto, using(crate::proofs::SendLemmas::then_all, crate::proofs::SendLemmas::prefix_more))]
pub fn send_to<L: Link>(
    at: &Address,
    dest: Dest,
    bytes: &[u8],
    link: &mut L,
    lost: &mut u64,
) -> Result<(), NoMemory>
    ensures sends { SendsAll (datagrams_to at.now dest bytes.now) result
        (side_of L.Link link.old lost.old) (side_of L.Link link.new lost.new) }
    ensures unpolled { Unpolled L.Link link.old link.new }
    ensures port { L.own_port link.new ≡ L.own_port link.old }
{
    let targets = at.targets(dest);
    send_each(
        targets.first,
        targets.count,
        targets.skipped,
        bytes,
        link,
        lost,
    )?;
    send_each(at.second_port(), targets.more, None, bytes, link, lost)
}
