ghost use Rattle.std.specs.Prelude.{◌≡◌, OnOk};
ghost use Rattle.one_box.specs.ClusterRun.{deliver, poll};
ghost use Rattle.one_box.specs.Counting.{AtMost, part_of};
ghost use Rattle.one_box.specs.Showing.{course_of, links_of, Acts, Serves, place_of};
ghost use Rattle.network.specs.Finding.{first_index};

use crate::course::Course;
use crate::node::BoxActor;
use crate::taking::take;
use nop_types::{Host, NoMemory};
use outside::{Link, LinkError};
use schedule_text::Event;
use udp_node::{poll_link, rearm_due};

/// A datagram came: where it equals one that was sent it is delivered, else it is dropped and counted.
fn deliver<H: Host, L: Link>(
    course: &mut Course<H>,
    node: &mut BoxActor<L>,
    datagram: &[u8],
) -> Result<(), NoMemory>
    ensures acts { OnOk result (Acts (links_of L.Link) H.meaning
        (λ c n. deliver H.meaning (first_index datagram.now c.world.sent) c n)
        (course_of course.old) node.old (course_of course.new) node.new) }
    ensures few { AtMost 1 course.old.events.items course.new.events.items }
    ensures timers { node.new.timers.items ≡ node.old.timers.items }
    ensures place { place_of (links_of L.Link) node.new ≡ place_of (links_of L.Link) node.old }
{
    match course.world.find(datagram) {
        Some(index) => take(course, node, Event::Deliver(index, node.at.own)),
        None => {
            course.stray = course.stray.saturating_add(1);
            Ok(())
        }
    }
}

/// The timers that were due are due again a period later; then one poll of the link.
pub(crate) fn poll<H: Host, L: Link>(
    course: &mut Course<H>,
    node: &mut BoxActor<L>,
    now: u64,
) -> Result<(), LinkError>
    ensures serves { Serves (links_of L.Link) H.meaning (λ c n. poll H.meaning now c n) result
        (course_of course.old) node.old (course_of course.new) node.new }
    ensures few { AtMost 1 course.old.events.items course.new.events.items }
    ensures part { part_of node.new ≡ part_of node.old }
    ensures place { place_of (links_of L.Link) node.new ≡ place_of (links_of L.Link) node.old }
{
    rearm_due(&mut node.timers, now);
    match poll_link(&mut node.link, &mut node.lost) {
        Ok(None) => Ok(()),
        Ok(Some(datagram)) => match deliver(course, node, datagram.as_slice()) {
            Ok(()) => Ok(()),
            Err(NoMemory) => Err(LinkError::NoMemory),
        },
        Err(e) => Err(e),
    }
}
