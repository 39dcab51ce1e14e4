//! Events that are drawn, and the world that they lead to, as other programs for the same protocol
//! have them.

use kv_host::KvHost;
use nop_types::{Actor, Config};
use replay::events;
use safety::run_events;
use schedule_text::Event;
use std::alloc::Global;
use std::process::Abort;
use world::{StepError, World};

/// Whether the events lead to a world with so many datagrams, whose main log has so many requests.
fn lead_to(alloc: Global, config: Config, events: &[Event], sent: u64, requests: usize) -> bool {
    let world: Result<World<KvHost>, StepError> = run_events(alloc, config, events);
    let Ok(world) = world else {
        return false;
    };
    let is_history = world
        .history()
        .is_ok_and(|history| history.len() == requests);
    is_history && world.sent_count() == sent
}

#[test]
fn drawn_events(rt: HostRuntime) {
    let drawn = events::<KvHost>(rt.alloc(), 7, 20_000).ok();
    let (config, drawn) = drawn.expect(&rt, "memory");
    assert!(rt; lead_to(rt.alloc(), config, &drawn, 7555, 40));
    let early = [Event::Deliver(0, Actor::Replica(3))];
    let refused: Result<World<KvHost>, StepError> = run_events(rt.alloc(), config, &early);
    assert!(rt; refused.err() == Some(StepError::NoSuchDatagram { index: 0, sent: 0 }));
}

/// As many events as may be are drawn.
#[test]
fn the_most_drawn_events(rt: HostRuntime) {
    let (_config, drawn) = events::<KvHost>(rt.alloc(), 7, 100_000)
        .ok()
        .expect(&rt, "memory");
    assert!(rt; drawn.len() == 100_000);
    assert!(rt; matches!(drawn.last(), Some(Event::Deliver(42944, Actor::Replica(3)))));
}
