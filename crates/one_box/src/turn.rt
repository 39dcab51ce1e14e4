ghost use Rattle.std.specs.Prelude.{◌≡◌, map, OnOk};
ghost use Rattle.one_box.specs.ClusterRun.{node_turn, turn};
ghost use Rattle.one_box.specs.Counting.{AtMost, part_of, turn_of};
ghost use Rattle.one_box.specs.Showing.{course_of, links_of, Serves, Turns, place_of};

use crate::course::Course;
use crate::firing::fire_due;
use crate::node::BoxActor;
use crate::polling::poll;
use nop_types::{Host, NoMemory, Op};
use outside::{Link, LinkError};

/// An actor's part of a turn: its timers that are due, and then one poll.
fn node_turn<H: Host, L: Link>(
    course: &mut Course<H>,
    node: &mut BoxActor<L>,
    ops: &[Op],
    now: u64,
) -> Result<(), LinkError>
    ensures serves { Serves (links_of L.Link) H.meaning
        (λ c n. node_turn H.meaning ops.now now c n) result
        (course_of course.old) node.old (course_of course.new) node.new }
    ensures few { OnOk result (AtMost (part_of node.old) course.old.events.items
        course.new.events.items) }
    ensures part { part_of node.new ≡ part_of node.old }
    ensures place { place_of (links_of L.Link) node.new ≡ place_of (links_of L.Link) node.old }
{
    match fire_due(course, node, ops, now) {
        Ok(()) => poll(course, node, now),
        Err(NoMemory) => Err(LinkError::NoMemory),
    }
}

/// One turn: each actor has its part, one after the other.
pub(crate) fn turn<H: Host, L: Link>(
    course: &mut Course<H>,
    nodes: &mut Vec<BoxActor<L>>,
    ops: &[Op],
    now: u64,
) -> Result<(), LinkError>
    ensures turns { Turns (links_of L.Link) H.meaning
        (λ c ns. turn H.meaning ops.now now c ns) result
        (course_of course.old) nodes.old.items (course_of course.new) nodes.new.items }
    ensures few { OnOk result (AtMost (turn_of nodes.old.items) course.old.events.items
        course.new.events.items) }
    ensures parts { map part_of nodes.new.items ≡ map part_of nodes.old.items }
    ensures places { map (place_of (links_of L.Link)) nodes.new.items
        ≡ map (place_of (links_of L.Link)) nodes.old.items }
{
    for i in 0..nodes.len() {
        let node = &mut nodes[i];
        if let Err(e) = node_turn(course, node, ops, now) {
            return Err(e);
        }
    }
    Ok(())
}
