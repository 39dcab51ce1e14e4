//! Links as they are attached and given back.

ghost use Rattle.std.specs.Prelude.{◌≡◌, ◌<◌, ◌++◌, ◌∷◌, [], length, map, OnOk};
ghost use Rattle.outside.specs.Causes.{CountsFor};
ghost use Rattle.outside.specs.declared.errors.DeviceError.TheVariants as devices;
ghost use Rattle.attached_links.specs.Attaching.{AllAttached, Attaches, HasRoom, Holds};
ghost use Rattle.attached_links.specs.Attaching.{lost_of, ports_side};

use crate::attached::{AttachedLink, Seat};
use outside::{AttachError, Ports};
use std::alloc::AllocFailed;

/// Gives a link back.
fn detach_one<P: Ports, S: Drop>(ports: &mut P, held: AttachedLink<P::L, S>)
    requires { length (P.detached ports.old) < P.attached ports.old }
    ensures detached { P.detached ports.new ≡ P.detached ports.old ++ held.link ∷ [] }
    ensures attached { P.attached ports.new ≡ P.attached ports.old }
    ensures faults { P.fault_count ports.new ≡ P.fault_count ports.old }
{
    let AttachedLink {
        link,
        at: _,
        lost: _,
        state: _state,
    } = held;
    ports.detach(link);
}

/// Attaches a link at the port of a seat, behind the others.
fn attach_one<P: Ports, S: Drop>(
    seat: Seat<S>,
    ports: &mut P,
    links: &mut Vec<AttachedLink<P::L, S>>,
) -> Result<(), AttachError>
    ensures attaches { Attaches P.L.Link seat result
        (ports_side (P.to_come ports.old) (P.attached ports.old) (P.detached ports.old))
        (ports_side (P.to_come ports.new) (P.attached ports.new) (P.detached ports.new))
        links.old.items links.new.items }
    ensures count { CountsFor (P.fault_count ports.old) (P.fault_count ports.new)
        devices.Failed result }
{
    let Seat { at, state } = seat;
    match ports.attach(at.port_of(at.own)) {
        Ok(link) => {
            let held = AttachedLink {
                link,
                at,
                lost: 0,
                state,
            };
            match links.push(held) {
                Ok(()) => Ok(()),
                Err(failed) => {
                    let AllocFailed { value } = failed;
                    detach_one(ports, value);
                    Err(AttachError::NoMemory)
                }
            }
        }
        Err(e) => Err(e),
    }
}

/// Attaches a link at the port of each seat, in order.
pub fn attach_all<P: Ports, S: Drop>(
    seats: Vec<Seat<S>>,
    ports: &mut P,
    links: &mut Vec<AttachedLink<P::L, S>>,
) -> Result<(), AttachError>
    requires { links.old.items ≡ [] }
    ensures attaches { OnOk result (AllAttached P.L.Link seats.items
        (ports_side (P.to_come ports.old) (P.attached ports.old) (P.detached ports.old))
        (ports_side (P.to_come ports.new) (P.attached ports.new) (P.detached ports.new))
        links.new.items) }
    ensures holds { Holds (P.attached ports.old) (P.detached ports.old) (P.attached ports.new)
        (P.detached ports.new) links.new.items }
    ensures room { HasRoom (P.attached ports.new) (P.detached ports.new) links.new.items }
    ensures count { CountsFor (P.fault_count ports.old) (P.fault_count ports.new)
        devices.Failed result }
{
    for seat in seats {
        if let Err(e) = attach_one(seat, ports, links) {
            return Err(e);
        }
    }
    Ok(())
}

/// Gives all links back, in order.
pub fn detach_all<P: Ports, S: Drop>(ports: &mut P, links: Vec<AttachedLink<P::L, S>>)
    requires { HasRoom (P.attached ports.old) (P.detached ports.old) links.items }
    ensures detached { P.detached ports.new
        ≡ P.detached ports.old ++ map (λ x. x.link) links.items }
    ensures attached { P.attached ports.new ≡ P.attached ports.old }
    ensures faults { P.fault_count ports.new ≡ P.fault_count ports.old }
{
    let mut rest = links.into_iter();
    while let Some(held) = rest.next() {
        detach_one(ports, held);
    }
    rest.destroy_empty();
}

/// How many sends failed over all links, up to the greatest number of 64 bits.
pub fn lost_of<L, S>(links: &[AttachedLink<L, S>]) -> u64
    ensures { result ≡ lost_of links.now }
{
    let mut lost = 0u64;
    for held in links {
        lost = lost.saturating_add(held.lost);
    }
    lost
}
