//! An observer that is driven by hand. What is expected was worked out from the rules of the
//! protocol and from its formats.
use crate::rows::check_text;
use crate::scripts::{play, timers};
use kv_host::KvHost;
use nop_types::{Config, Host, Outbox};
use observer::Observer;
use std::alloc::Global;
use std::process::Abort;
use std::slice::from_mut;

/// An observer of three replicas.
pub fn opened_observer<H: Host>(rt: &impl Abort, alloc: Global) -> Observer<H> {
    let config = Config::new(3, 1, 1, 1, 1).expect(rt, "a group");
    Observer::new(alloc, config, 0).expect(rt, "memory")
}

/// A leader tells a put, which is read once its length is committed.
const SYNCHRONISED: &str = "\
0 packet 4e4f0308 00 0000000000000001 0000 0001 17 00 00000000 0000000000000001 00000000 00000001 01 00000000 0000000000000001 0007 5000016b000176
0 packet 4e4f0309 00000000 0000000000000001 0001 6b
  0 One(Client(0)) 4e4f030a000000000000000000000000000000000100046e6f6e65
0 packet 4e4f0308 00 0000000000000002 0000 0001 19 00 00000000 0000000000000001 00000001
0 packet 4e4f0309 00000000 0000000000000002 0001 6b
  1 One(Client(0)) 4e4f030a000000000100000000000000000000000200023d76
";

/// The log is not told: then its commit says nothing.
const UNTOLD: &str = "\
0 packet 4e4f0309 00000000 0000000000000001 0001 6b
  0 One(Client(0)) 4e4f030a000000000000000000000000000000000100046e6f6e65
0 packet 4e4f0308 00 0000000000000002 0000 0001 19 00 00000000 0000000000000001 00000001
0 packet 4e4f0309 00000000 0000000000000002 0001 6b
  1 One(Client(0)) 4e4f030a000000000000000000000000000000000200046e6f6e65
";

/// What is no message of a replica changes nothing: another kind, a tag of 2, a number of the
/// sender that is not that of its fragment, and three bytes too few. Nor does a log whose
/// checkpoint is no saved map, and its commit. Then it goes on: a put is told and committed.
const MALFORMED: &str = "\
0 packet 4e4f0308 00 0000000000000001 0000 0001 0f
0 packet 4e4f0308 00 0000000000000002 0000 0001 17 00 00000000 0000000000000001 00000000 00000001 02
0 packet 4e4f0308 01 0000000000000003 0000 0001 19 00 00000000 0000000000000001 00000001
0 packet 4e4f0308 00 0000000000000004 0000 0001 19 00 00000000 0000000000000001 00
0 packet 4e4f0308 00 0000000000000005 0000 0001 17 00 00000000 0000000000000001 00000001 00000003 000000 00000000 00000000
0 packet 4e4f0308 00 0000000000000006 0000 0001 19 00 00000000 0000000000000001 00000001
0 packet 4e4f0309 00000000 0000000000000001 0001 6b
  0 One(Client(0)) 4e4f030a000000000000000000000000000000000100046e6f6e65
0 packet 4e4f0308 00 0000000000000007 0000 0001 17 00 00000000 0000000000000001 00000000 00000001 01 00000000 0000000000000001 0007 5000016b000176
0 packet 4e4f0308 00 0000000000000008 0000 0001 19 00 00000000 0000000000000001 00000001
0 packet 4e4f0309 00000000 0000000000000002 0001 6b
  1 One(Client(0)) 4e4f030a000000000100000000000000000000000200023d76
";

/// What an observer is given, with its outputs, and its position at the end.
static SCRIPTS: [(&str, u32); 3] = [(SYNCHRONISED, 1), (UNTOLD, 0), (MALFORMED, 1)];

#[test]
fn observers(rt: HostRuntime) {
    let alloc = rt.alloc();
    for (script, position) in &SCRIPTS {
        let mut core = opened_observer::<KvHost>(&rt, alloc);
        play(
            &rt,
            alloc,
            from_mut(&mut core),
            &mut Outbox::new(alloc),
            script,
        );
        assert_eq!(rt; core.position(), *position);
        check_text(&rt, &timers(&rt, alloc, &core), "None None None None");
    }
}
