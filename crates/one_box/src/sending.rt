ghost use Rattle.std.specs.Prelude.{◌≡◌, drop, slice_get, OnOk};
ghost use Rattle.std.specs.Option.{option_to_list};
ghost use Rattle.outside.specs.Observed.{Stays};
ghost use Rattle.udp_node.specs.Sends.{side, Sends};
ghost use Rattle.one_box.specs.ClusterRun.{posts};

use nop_types::{Host, NoMemory};
use outside::Link;
use udp_node::{Address, send_to};
use world::World;

/// Sends the datagram with this index to each port of its destination.
fn send_one<H: Host, L: Link>(
    world: &World<H>,
    index: u64,
    at: &Address,
    link: &mut L,
    lost: &mut u64,
) -> Result<(), NoMemory>
    ensures sends { OnOk result (Sends
        (posts at.now (option_to_list (slice_get world.now.state.sent index)))
        (side (L.trace link.old) lost.old (L.loss_count link.old))
        (side (L.trace link.new) lost.new (L.loss_count link.new))) }
    ensures answers { Stays (L.answers link.old) (L.answers link.new) }
    ensures faults { L.fault_count link.new ≡ L.fault_count link.old }
    ensures port { L.own_port link.new ≡ L.own_port link.old }
{
    match world.sent_to(index) {
        Some(dest) => match world.sent(index)? {
            Some(bytes) => send_to(at, dest, bytes.as_slice(), link, lost),
            None => Ok(()),
        },
        None => Ok(()),
    }
}

/// Sends over an actor's link the datagrams of the network from this index on.
pub(crate) fn send_since<H: Host, L: Link>(
    world: &World<H>,
    count: u64,
    at: &Address,
    link: &mut L,
    lost: &mut u64,
) -> Result<(), NoMemory>
    ensures sends { OnOk result (Sends (posts at.now (drop count world.now.state.sent))
        (side (L.trace link.old) lost.old (L.loss_count link.old))
        (side (L.trace link.new) lost.new (L.loss_count link.new))) }
    ensures answers { Stays (L.answers link.old) (L.answers link.new) }
    ensures faults { L.fault_count link.new ≡ L.fault_count link.old }
    ensures port { L.own_port link.new ≡ L.own_port link.old }
{
    for i in count..world.sent_count() {
        send_one(world, i, at, link, lost)?;
    }
    Ok(())
}
