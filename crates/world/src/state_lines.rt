ghost use Rattle.std.specs.Prelude.{◌≡◌, ◌≤◌, ◌++◌, OnOk, length, map};
ghost use Rattle.world.specs.SeatOutcomes.{seated_of};
ghost use Rattle.world.specs.StateLines.{
  entries_text,
  observer_text,
  observers_text,
  replica_text,
  replicas_text,
};

use crate::main_log::prefix;
use crate::seat::Seat;
use nop_types::{Entry, Host, MAX_LENGTH, MAX_OBSERVERS, MAX_REPLICAS, NoMemory};
use observer::Observer;
use replica_core::Replica;
use transcript_text::{entry_line, observer_line, replica_line};

fn put_entries(replica: u8, entries: &[Entry], to: &mut Vec<u8>) -> Result<(), NoMemory>
    requires { length entries.now ≤ MAX_LENGTH }
    ensures { OnOk result (to.new.items ≡ to.old.items ++ entries_text replica 1 entries.now) }
{
    for (i, entry) in entries.iter().enumerate() {
        entry_line(replica, i as u32 + 1, entry, to)?;
    }
    Ok(())
}

fn put_replica<H: Host>(
    archive: &[Entry],
    number: u8,
    seat: &Seat<Replica<H>>,
    to: &mut Vec<u8>,
) -> Result<(), NoMemory>
    ensures { OnOk result (to.new.items ≡ to.old.items
        ++ replica_text archive.now number (seated_of (λ r. r.state) seat.now)) }
{
    let core = &seat.core;
    let len = core.log().len();
    replica_line(
        number,
        seat.crashed,
        core.status(),
        core.view(),
        len,
        core.sync_point(),
        to,
    )?;
    put_entries(number, prefix(archive, core.sync_point()), to)
}

/// Appends the lines of all replicas, whose synchronised entries are in the archive. Where memory runs out, `to` keeps the lines
/// before, each of them whole.
pub fn put_replicas<H: Host>(
    archive: &[Entry],
    seats: &[Seat<Replica<H>>],
    to: &mut Vec<u8>,
) -> Result<(), NoMemory>
    requires { length seats.now ≤ MAX_REPLICAS }
    ensures { OnOk result (to.new.items ≡ to.old.items
        ++ replicas_text archive.now 0 (map (seated_of (λ r. r.state)) seats.now)) }
{
    for (i, seat) in seats.iter().enumerate() {
        put_replica(archive, i as u8, seat, to)?;
    }
    Ok(())
}

fn put_observer<H: Host>(
    number: u8,
    seat: &Seat<Observer<H>>,
    to: &mut Vec<u8>,
) -> Result<(), NoMemory>
    ensures { OnOk result (to.new.items ≡ to.old.items
        ++ observer_text number (seated_of (λ o. o.state) seat.now)) }
{
    observer_line(number, seat.crashed, seat.core.position(), to)
}

/// Appends the lines of all observers. Where memory runs out, `to` keeps the lines before, each of them whole.
pub fn put_observers<H: Host>(seats: &[Seat<Observer<H>>], to: &mut Vec<u8>) -> Result<(), NoMemory>
    requires { length seats.now ≤ MAX_OBSERVERS }
    ensures { OnOk result (to.new.items ≡ to.old.items
        ++ observers_text 0 (map (seated_of (λ o. o.state)) seats.now)) }
{
    for (i, seat) in seats.iter().enumerate() {
        put_observer(i as u8, seat, to)?;
    }
    Ok(())
}
