//! Cores that ran out of memory. The test ends well whichever allocation is refused:
//! `bench/failed-world.sh` refuses each in turn, and counts the runs in which a step answered so.

use kv_host::KvHost;
use nop_types::{Config, Core, Input, NoMemory, Outbox, Tick};
use replica_core::Replica;
use sequencer::Sequencer;
use session_control::Controller;
use std::alloc::Global;
use std::process::Abort;

/// A ping of controller 0 for sequencer 0.
const PING: &[u8] = b"NO\x03\x06\0\0\0\0\0\x01";

/// Whether the core has no memory for a step. It then has none for one that needs none, and sends
/// nothing.
fn fails_for_good<C: Core + Drop>(
    rt: &impl Abort,
    alloc: Global,
    core: Result<C, NoMemory>,
    input: Input<'_>,
) -> bool {
    let Ok(mut core) = core else {
        return false;
    };
    let mut out = Outbox::new(alloc);
    if core.step(input, &mut out).is_ok() {
        return false;
    }
    let again = core.step(Input::Packet(b""), &mut out);
    assert!(rt; again.is_err() && out.as_slice().is_empty());
    true
}

#[test]
fn cores_fail_for_good(rt: HostRuntime) {
    let alloc = rt.alloc();
    let config = Config::new(3, 2, 1, 1, 0).expect(&rt, "a group");
    let replica: Result<Replica<KvHost>, NoMemory> = Replica::new(alloc, config, 0);
    let mut failed = fails_for_good(&rt, alloc, replica, Input::Tick(Tick::Suspect));
    let controller = Controller::new(alloc, config, 0);
    failed |= fails_for_good(&rt, alloc, controller, Input::Tick(Tick::Probe));
    let sequencer = Sequencer::new(alloc, 0);
    failed |= fails_for_good(&rt, alloc, sequencer, Input::Packet(PING));
    if failed {
        let _ = println!(rt; "failed");
    }
}
