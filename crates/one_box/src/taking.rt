ghost use Rattle.std.specs.Prelude.{◌≡◌, OnOk, OnErr};
ghost use Rattle.one_box.specs.ClusterRun.{take};
ghost use Rattle.one_box.specs.Counting.{AtMost};
ghost use Rattle.one_box.specs.Showing.{
  course_of,
  links_of,
  Acts,
  GoesOn,
  IsNoJunk,
  IsRefusal,
  Steps,
  place_of,
};

use crate::course::Course;
use crate::node::BoxActor;
use crate::sending::send_since;
use nop_types::{Host, NoMemory};
use outside::Link;
use schedule_text::Event;
use world::StepError;

/// A refused event changes nothing.
fn refused(error: StepError) -> Result<(), NoMemory>
    ensures ok { OnOk result (IsRefusal error) }
    ensures err { OnErr result (error ≡ StepError.NoMemory) }
{
    match error {
        StepError::NoMemory => Err(NoMemory),
        _ => Ok(()),
    }
}

/// One event of the world, which is kept unless it is refused.
fn keep_step<H: Host>(course: &mut Course<H>, event: Event) -> Result<(), NoMemory>
    requires { IsNoJunk event }
    ensures steps { OnOk result (Steps H.meaning event (course_of course.old)
        (course_of course.new)) }
    ensures goes { OnOk result (GoesOn H.meaning (course_of course.old) (course_of course.new)) }
    ensures few { AtMost 1 course.old.events.items course.new.events.items }
{
    match course.world.step(&event) {
        Ok(lines) => course.keep(event, lines),
        Err(e) => refused(e),
    }
}

/// One event of an actor: what the actor sent goes over its link.
pub(crate) fn take<H: Host, L: Link>(
    course: &mut Course<H>,
    node: &mut BoxActor<L>,
    event: Event,
) -> Result<(), NoMemory>
    requires { IsNoJunk event }
    ensures acts { OnOk result (Acts (links_of L.Link) H.meaning (λ c n. take H.meaning c n event)
        (course_of course.old) node.old (course_of course.new) node.new) }
    ensures few { AtMost 1 course.old.events.items course.new.events.items }
    ensures timers { node.new.timers.items ≡ node.old.timers.items }
    ensures place { place_of (links_of L.Link) node.new ≡ place_of (links_of L.Link) node.old }
{
    let count = course.world.sent_count();
    match keep_step(course, event) {
        Ok(()) => send_since(
            &course.world,
            count,
            &node.at,
            &mut node.link,
            &mut node.lost,
        ),
        Err(NoMemory) => Err(NoMemory),
    }
}
