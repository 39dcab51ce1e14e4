ghost use Rattle.std.specs.Prelude.{◌≡◌, ◌≤◌, length, IfOk, IfSome};
ghost use Rattle.nop_types.specs.declared.limits.TheConstants.{MAX_DATAGRAM_BYTES};
ghost use Rattle.outside.specs.Causes.{CountsFor};
ghost use Rattle.outside.specs.Links.{Polls};
ghost use Rattle.outside.specs.declared.errors.DeviceError.TheVariants as devices;
ghost use Rattle.udp_node.specs.Sends.{side_of, PollsLink};

use nop_types::Bytes;
use outside::{Link, LinkError};

/// Polls the link. What its count of losses rises by is lost: it found then that datagrams of earlier sends could not be sent.
#[tactic(auto, using(crate::proofs::SendLemmas::polled_link, outside::proofs::Counts::counts_after))]
pub fn poll_link<L: Link>(link: &mut L, lost: &mut u64) -> Result<Option<Bytes>, LinkError>
    ensures short { IfOk result (λ r. IfSome r (λ datagram. length datagram
        ≤ MAX_DATAGRAM_BYTES)) }
    ensures polls { PollsLink result
        (side_of L.Link link.old lost.old) (side_of L.Link link.new lost.new) }
    ensures answer { Polls (L.answers link.old) (L.answers link.new) result }
    ensures count { CountsFor (L.fault_count link.old) (L.fault_count link.new)
        devices.Failed result }
    ensures port { L.own_port link.new ≡ L.own_port link.old }
{
    let before = link.losses();
    let answer = link.poll();
    *lost = lost.saturating_add(link.losses() - before);
    answer
}
