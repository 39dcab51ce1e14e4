ghost use Rattle.std.specs.Prelude.{◌≡◌, ◌<◌, IfOk, OnOk, Some};
ghost use Rattle.std.specs.Prelude.{length, nat_le, option_map, slice_get};
ghost use Rattle.one_box.specs.ClusterRun.{fire_due, fire_if};
ghost use Rattle.one_box.specs.Firing.{next_after, next_event, tick_event, timer_event};
ghost use Rattle.one_box.specs.Counting.{AtMost};
ghost use Rattle.one_box.specs.Showing.{course_of, links_of, Acts, place_of};

use crate::course::Course;
use crate::node::BoxActor;
use crate::taking::take;
use nop_types::{Actor, Host, NoMemory, Op, Tick};
use outside::Link;
use schedule_text::Event;
use udp_node::Timer;
use world::World;

fn op_at(ops: &[Op], place: usize) -> Option<&Op>
    ensures { option_map (λ op. op.now) result ≡ slice_get ops.now place }
{
    match ops.get(place) {
        Some(op) => Some(op),
        None => None,
    }
}

fn submit(client: u32, op: &Op) -> Result<Option<Event>, NoMemory>
    ensures { IfOk result (λ e. e ≡ Some (Event.Submit client op.now)) }
{
    Ok(Some(Event::Submit(client, op.try_clone()?)))
}

/// The tick Next: a client that takes an op is given this one, if it is there.
fn next_event<H: Host>(
    world: &World<H>,
    own: Actor,
    op: Option<&Op>,
) -> Result<Option<Event>, NoMemory>
    ensures { IfOk result (λ e. e ≡ next_event world.now.state own
        (option_map (λ op. op.now) op.entry)) }
{
    let Actor::Client(client) = own else {
        return Ok(None);
    };
    if !world.takes(client) {
        return Ok(None);
    }
    match op {
        Some(op) => submit(client, op),
        None => Ok(None),
    }
}

/// The tick Next gives a client its next op; each other tick is an event.
fn tick_event<H: Host>(
    world: &World<H>,
    own: Actor,
    op: Option<&Op>,
    tick: Tick,
) -> Result<Option<Event>, NoMemory>
    ensures { IfOk result (λ e. e ≡ tick_event world.now.state own
        (option_map (λ op. op.now) op.entry) tick) }
{
    match tick {
        Tick::Next => next_event(world, own, op),
        Tick::Install(_) => Ok(None),
        _ => Ok(Some(Event::Tick(own, tick))),
    }
}

/// What a timer delivers: nothing where it is not due.
fn timer_event<H: Host>(
    world: &World<H>,
    own: Actor,
    op: Option<&Op>,
    timer: Timer,
    now: u64,
) -> Result<Option<Event>, NoMemory>
    ensures { IfOk result (λ e. e ≡ timer_event world.now.state own
        (option_map (λ op. op.now) op.entry) timer now) }
{
    if timer.due <= now {
        tick_event(world, own, op, timer.tick)
    } else {
        Ok(None)
    }
}

/// The place of an actor's next op after an event: a client's is behind one that was there.
fn next_after(event: &Event, place: usize, clients: u8) -> Result<usize, NoMemory>
    ensures { IfOk result (λ n. n ≡ next_after event.now place clients) }
{
    match event {
        Event::Submit(..) => match place.checked_add(clients as usize) {
            Some(n) => Ok(n),
            None => Err(NoMemory),
        },
        _ => Ok(place),
    }
}

fn timer_at<L>(node: &BoxActor<L>, i: usize) -> Timer
    requires { i < length node.now.timers.items }
    ensures { slice_get node.now.timers.items i ≡ Some result }
{
    node.timers[i]
}

/// A timer fires where it is due.
fn fire<H: Host, L: Link>(
    course: &mut Course<H>,
    node: &mut BoxActor<L>,
    ops: &[Op],
    timer: Timer,
    now: u64,
) -> Result<(), NoMemory>
    ensures acts { OnOk result (Acts (links_of L.Link) H.meaning
        (λ c n. fire_if H.meaning ops.now (nat_le timer.due now) c n timer.tick)
        (course_of course.old) node.old (course_of course.new) node.new) }
    ensures few { AtMost 1 course.old.events.items course.new.events.items }
    ensures timers { node.new.timers.items ≡ node.old.timers.items }
    ensures place { place_of (links_of L.Link) node.new ≡ place_of (links_of L.Link) node.old }
{
    let op = op_at(ops, node.next_op);
    let Some(event) = timer_event(&course.world, node.at.own, op, timer, now)? else {
        return Ok(());
    };
    node.next_op = next_after(&event, node.next_op, course.world.config().clients())?;
    take(course, node, event)
}

/// The timers that are due fire, in order.
pub(crate) fn fire_due<H: Host, L: Link>(
    course: &mut Course<H>,
    node: &mut BoxActor<L>,
    ops: &[Op],
    now: u64,
) -> Result<(), NoMemory>
    ensures acts { OnOk result (Acts (links_of L.Link) H.meaning
        (λ c n. fire_due H.meaning ops.now now n.timers c n)
        (course_of course.old) node.old (course_of course.new) node.new) }
    ensures few { OnOk result (AtMost (length node.old.timers.items) course.old.events.items
        course.new.events.items) }
    ensures timers { node.new.timers.items ≡ node.old.timers.items }
    ensures place { place_of (links_of L.Link) node.new ≡ place_of (links_of L.Link) node.old }
{
    for i in 0..node.timers.len() {
        let timer = timer_at(node, i);
        fire(course, node, ops, timer, now)?;
    }
    Ok(())
}
