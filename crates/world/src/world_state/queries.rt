//! What else is read from a world.

ghost use Rattle.std.specs.Prelude.{◌≡◌, option_map, slice_get};
ghost use Rattle.std.specs.Option.{option_copied};
ghost use Rattle.world.specs.Parts.{parts_of};
ghost use Rattle.world.specs.WorldSteps.{main_view, main_log, entry};

use super::World;
use crate::main_log::{LogParts, log_at, main_log, main_view};
use nop_types::{Dest, Entry, Host, View};

impl<H: Host> World<H> {
    /// The destination of the datagram with this index, None where it was not sent yet.
    pub fn sent_to(&self, i: u64) -> Option<Dest>
        ensures { result ≡ option_map (λ s. s.dest) (slice_get self.now.state.sent i) }
    {
        self.actors.network.sent_to(i)
    }

    /// The greatest last normal view, by session and then by leader number, among all replicas, crashed ones too.
    pub fn main_view(&self) -> View
        ensures { result ≡ main_view self.now.state }
    {
        main_view(&self.actors)
    }

    /// The log of the leader of that view, from which the history is read: what is synchronised, and what is above.
    pub fn main_log(&self) -> LogParts<'_>
        ensures { parts_of result ≡ main_log self.now.state }
    {
        main_log(&self.actors)
    }

    /// What is in a slot of a replica's log, also in one that is synchronised. None exactly where the replica is not of the
    /// configuration or no entry stands there.
    pub fn entry(&self, replica: u8, slot: u32) -> Option<&Entry>
        ensures { option_copied result ≡ entry self.now.state replica slot }
    {
        let log = log_at(
            self.actors.archive.entries(),
            &self.actors.replicas,
            replica,
        );
        let place = slot.checked_sub(1)? as usize;
        match log.synchronised.get(place) {
            Some(entry) => Some(entry),
            None => log.kept.get(place - log.synchronised.len()),
        }
    }
}
