//! A client that asks an observer until an answer is new enough, driven by hand. What is expected
//! was worked out from the rules and from the formats.
use crate::scripts::play;
use fresh_reads::FreshRead;
use nop_types::{Config, Core, Key, Outbox};
use std::slice::from_mut;

/// The read is sent again while it waits. An answer at position 1 is behind: the next tick asks
/// anew, under another id. One at position 2 ends it.
const BEHIND: &str = "\
0 tick retry
  0 reading 1 0
  1 One(Observer(0)) 4e4f030900000000000000000000000100016b
0 tick retry
  2 One(Observer(0)) 4e4f030900000000000000000000000100016b
0 packet 4e4f030a 00 00000001 00000000 0000000000000001 0004 6e6f6e65
  3 answered 1 1 6e6f6e65
0 tick next
0 packet 4e4f030a 00 00000002 00000000 0000000000000001 0004 6e6f6e65
0 tick retry
  4 reading 2 0
  5 One(Observer(0)) 4e4f030900000000000000000000000200016b
0 packet 4e4f030a 00 00000002 00000000 0000000000000002 0002 3d76
  6 answered 2 2 3d76
0 tick retry
";

#[test]
fn a_read_asks_until_an_answer_is_new_enough(rt: HostRuntime) {
    let alloc = rt.alloc();
    let config = Config::new(3, 1, 1, 1, 1).expect(&rt, "a group");
    let key = Key::new(alloc, b"k").expect(&rt, "memory");
    let mut core = FreshRead::new(alloc, config, 0, 0, key, 2).expect(&rt, "memory");
    assert!(rt; !core.done());
    play(
        &rt,
        alloc,
        from_mut(&mut core),
        &mut Outbox::new(alloc),
        BEHIND,
    );
    assert!(rt; core.done());
}
