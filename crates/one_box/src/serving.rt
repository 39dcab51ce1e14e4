ghost use Rattle.std.specs.Prelude.{◌≡◌, ◌*◌, map, OnOk};
ghost use Rattle.one_box.specs.ClusterRun.{all_accepted};
ghost use Rattle.one_box.specs.Counting.{AtMost, turn_of};
ghost use Rattle.one_box.specs.Running.{Runs, RunsObserved};
ghost use Rattle.one_box.specs.Showing.{course_of, links_of, place_of};

use crate::course::Course;
use crate::node::BoxActor;
use crate::turn::turn;
use nop_types::{Host, Op};
use outside::{Clock, Link, LinkError};

/// The turns that were taken, and whether all ops were accepted.
#[derive(Clone, Copy)]
pub(crate) struct Taken {
    pub(crate) turns: u64,
    pub(crate) done: bool,
}

fn all_accepted<H: Host>(course: &Course<H>, ops: &[Op]) -> bool
    ensures { result ≡ all_accepted ops.now (course_of course.now) }
{
    course.accepts == ops.len() as u64
}

/// At most `turns` turns, until all ops are accepted.
pub(crate) fn take_turns<H: Host, L: Link, C: Clock>(
    course: &mut Course<H>,
    nodes: &mut Vec<BoxActor<L>>,
    ops: &[Op],
    turns: u64,
    now: u64,
    clock: &mut C,
) -> Result<Taken, LinkError>
    ensures observed { RunsObserved (links_of L.Link)
        H.meaning ops.now turns now (C.values clock.old) result
        (course_of course.old) nodes.old.items (course_of course.new) nodes.new.items }
    ensures runs { Runs (links_of L.Link) H.meaning
        ops.now turns result (course_of course.old) nodes.old.items (course_of course.new)
        nodes.new.items }
    ensures few { OnOk result (AtMost (turns * turn_of nodes.old.items) course.old.events.items
        course.new.events.items) }
    ensures places { map (place_of (links_of L.Link)) nodes.new.items
        ≡ map (place_of (links_of L.Link)) nodes.old.items }
{
    let mut now = now;
    let mut taken = 0;
    while taken < turns {
        if let Err(e) = turn(course, nodes, ops, now) {
            return Err(e);
        }
        taken += 1;
        if all_accepted(course, ops) {
            return Ok(Taken {
                turns: taken,
                done: true,
            });
        }
        now = now.max(clock.now());
    }
    let done = all_accepted(course, ops);
    Ok(Taken { turns: taken, done })
}
