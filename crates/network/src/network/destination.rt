//! Where datagrams were sent to.

ghost use Rattle.std.specs.Prelude.{◌≡◌, slice_get, option_map};

use super::{Mark, Network, mark_at};
use nop_types::Dest;

fn destination(marks: &[Mark], index: u64) -> Option<Dest>
    ensures { result ≡ option_map (λ m. m.dest) (slice_get marks.now index) }
{
    if index >= marks.len() as u64 {
        return None;
    }
    Some(mark_at(marks, index as usize).dest)
}

impl Network {
    /// The destination of the datagram with this index, None where no datagram has it.
    #[tactic(auto, using(crate::proofs::MarkLemmas::all_destinations))]
    pub fn sent_to(&self, index: u64) -> Option<Dest>
        ensures { result ≡ option_map (λ s. s.dest) (slice_get self.now index) }
    {
        destination(&self.marks, index)
    }
}
