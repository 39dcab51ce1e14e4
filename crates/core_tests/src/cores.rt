//! A sequencer, controllers and clients that are driven by hand. What is expected was worked out
//! from the rules of the protocol and from its formats.
ghost use Rattle.std.specs.Prelude.{◌<◌};

use crate::rows::{check_shown, check_text};
use crate::scripts::{play, timers};
use client_quorum::Client;
use nop_types::{Config, Core, MAX_CONTROLLERS, Op, Outbox, Request};
use sequencer::Sequencer;
use session_control::Controller;
use std::alloc::Global;
use std::process::Abort;
use std::slice::from_mut;

/// Sequencer 1 stamps nothing without a session, and answers pings of its own, each to its
/// controller. Session 2 is installed twice, and the numbers go on. A greater session of another
/// controller is taken, and a smaller one is answered with that. What is for others, what does not
/// decode, and what is no packet change nothing.
const SEQUENCER: &str = "\
0 packet 4e4f0301 00000000 0000000000000001 0007 5000016b000176
0 packet 4e4f0306 00 01 00000003
  0 One(Controller(0)) 4e4f0307000100000003
0 packet 4e4f0306 03 01 00000003
  1 One(Controller(3)) 4e4f0307030100000003
0 packet 4e4f0306 00 00 00000003
0 packet 4e4f0304 00 02 0000000000000002
0 packet 4e4f0304 00 01 0000000000000002
  2 One(Controller(0)) 4e4f030500010000000000000002
0 packet 4e4f0301 00000000 0000000000000001 0007 5000016b000176
  3 Replicas 4e4f03020000000000000002000000000000000100000000000000000000000100075000016b000176
0 packet 4e4f0304 00 01 0000000000000002
  4 One(Controller(0)) 4e4f030500010000000000000002
0 packet 4e4f0301 00000000 0000000000000001 0007 5000016b000176
  5 Replicas 4e4f03020000000000000002000000000000000200000000000000000000000100075000016b000176
0 packet 4e4f0304 01 01 0000000100000001
  6 One(Controller(1)) 4e4f030501010000000100000001
0 packet 4e4f0304 00 01 0000000000000003
  7 One(Controller(0)) 4e4f030500010000000100000001
0 packet 4e4f0301 00000000 0000000000000001 0007 5000016b000176
  8 Replicas 4e4f03020000000100000001000000000000000100000000000000000000000100075000016b000176
0 packet 4e4f0304 03 01 ffffffffffffffff
  9 One(Controller(3)) 4e4f03050301ffffffffffffffff
0 packet 4e4f0305 00 01 0000000000000002
0 packet 4e4f0307 00 01 00000002
0 packet 4e4f0302 0000000000000001 0000000000000001 00000000 0000000000000001 0000
0 packet 4e4f0304 00 01 0000000000000000
0 packet 4e4f0304 00 01 00000000000000
0 packet 4e
0 submit 6f70
0 tick resend
0 tick install 0
";

#[test]
fn a_sequencer(rt: HostRuntime) {
    let alloc = rt.alloc();
    let mut core = Sequencer::new(alloc, 1).expect(&rt, "memory");
    let mut sent = Outbox::new(alloc);
    play(&rt, alloc, from_mut(&mut core), &mut sent, SEQUENCER);
    let expected = "SequencerState { number: 1, session: 18446744073709551615, next: 1 }";
    check_shown(&rt, alloc, &core.state(), expected);
    check_text(&rt, &timers(&rt, alloc, &core), "None None None None");
    let request = Request {
        client: 7,
        id: 5,
        op: Op::new(alloc, b"op").expect(&rt, "memory"),
    };
    let stamped = core.stamp(&request).expect(&rt, "memory");
    let expected =
        "Some(Stamped { session: 18446744073709551615, number: 1, request: Request { client: 7, id: 5, op: Op { bytes: [111, 112] } } })";
    check_shown(&rt, alloc, &stamped, expected);
}

/// Probes that are answered and some that are not, and orders, with two sequencers. Answers of an
/// older round, of another sequencer, for another session and for another controller do not count.
/// After three misses the next sequencer gets a new session, and after the last the first.
const CONTROLLER: &str = "\
0 tick resend
0 tick probe
  0 One(Sequencer(0)) 4e4f0306000000000001
0 tick probe
  1 One(Sequencer(0)) 4e4f0306000000000002
0 packet 4e4f0307 00 00 00000001
0 packet 4e4f0307 00 01 00000002
0 packet 4e4f0307 00 00 00000002
0 tick probe
  2 One(Sequencer(0)) 4e4f0306000000000003
0 tick probe
  3 One(Sequencer(0)) 4e4f0306000000000004
0 tick probe
  4 One(Sequencer(0)) 4e4f0306000000000005
0 packet 4e4f0307 01 00 00000005
0 tick probe
  5 One(Sequencer(1)) 4e4f030400010000000000000002
0 tick resend
  6 One(Sequencer(1)) 4e4f030400010000000000000002
0 packet 4e4f0305 00 00 0000000000000002
0 packet 4e4f0305 00 01 0000000000000001
0 packet 4e4f0305 01 01 0000000000000002
0 tick resend
  7 One(Sequencer(1)) 4e4f030400010000000000000002
0 packet 4e4f0305 00 01 0000000000000002
0 tick resend
0 tick install 2
0 tick install 1
  8 One(Sequencer(1)) 4e4f030400010000000000000003
0 tick probe
  9 One(Sequencer(1)) 4e4f0306000100000006
0 tick probe
  10 One(Sequencer(1)) 4e4f0306000100000007
0 tick probe
  11 One(Sequencer(1)) 4e4f0306000100000008
0 tick probe
  12 One(Sequencer(0)) 4e4f030400000000000000000004
0 tick suspect
0 packet 4e4f0304 00 00 0000000000000009
0 packet 4e4f0306 00 00 00000009
0 packet 4e4f0305 00 00 0000000000000004 00
0 submit 6f70
";

/// Two controllers give sessions to one sequencer, the other one the greater. The first is told
/// that, and passes it: its next session is the first one of its next epoch.
const TWO: &str = "\
1 tick install 1
  0 One(Sequencer(1)) 4e4f030401010000000100000001
0 tick install 1
  1 One(Sequencer(1)) 4e4f030400010000000000000002
1 packet 4e4f0305 01 01 0000000100000001
0 packet 4e4f0305 00 01 0000000100000001
0 tick resend
  2 One(Sequencer(1)) 4e4f030400010000000000000002
0 tick install 1
  3 One(Sequencer(1)) 4e4f030400010000000400000001
0 packet 4e4f0305 00 01 0000000400000001
0 tick resend
1 tick resend
";

/// The greatest session that a controller saw counts, of whatever sequencer: smaller ones, and
/// those told to others, change nothing. In the epoch that it goes on to, the count rises again.
const SEEN: &str = "\
0 tick install 0
  0 One(Sequencer(0)) 4e4f030403000000000300000001
0 packet 4e4f0305 03 01 0000000400000003
0 packet 4e4f0305 03 00 0000000300000002
0 packet 4e4f0305 02 00 0000000900000001
0 tick install 1
  1 One(Sequencer(1)) 4e4f030403010000000700000001
0 tick install 0
  2 One(Sequencer(0)) 4e4f030403000000000700000002
0 packet 4e4f0305 03 00 0000000700000009
0 tick install 1
  3 One(Sequencer(1)) 4e4f030403010000000b00000001
";

/// In the last epoch of its own the controller still moves. Above that it does not.
const LAST_SESSION: &str = "\
0 packet 4e4f0305 00 02 fffffffb00000005
0 tick install 1
  0 One(Sequencer(1)) 4e4f03040001fffffffc00000001
0 tick install 0
  1 One(Sequencer(0)) 4e4f03040000fffffffc00000002
0 packet 4e4f0305 00 02 fffffffc00000003
0 tick install 1
0 tick probe
  2 One(Sequencer(0)) 4e4f0306000000000001
0 tick probe
  3 One(Sequencer(0)) 4e4f0306000000000002
0 tick probe
  4 One(Sequencer(0)) 4e4f0306000000000003
0 tick probe
";

/// Controllers of a group with one client and four controllers: the number of the first one, how
/// many there are, and how many replicas and sequencers; what they are given, with their outputs;
/// and what the first one keeps at the end, behind its configuration.
type Controllers = (u8, u8, (u8, u8), &'static str, &'static str);

static CONTROLLERS: [Controllers; 4] = [
    (
        0,
        1,
        (3, 2),
        CONTROLLER,
        "number: 0, session: 4, seen: 0, current: 0, confirmed: false, round: 8, heard: true, missed: 0 }",
    ),
    (
        0,
        2,
        (3, 2),
        TWO,
        "number: 0, session: 17179869185, seen: 4294967297, current: 1, confirmed: true, round: 0, heard: true, missed: 0 }",
    ),
    (
        3,
        1,
        (3, 2),
        SEEN,
        "number: 3, session: 47244640257, seen: 30064771081, current: 1, confirmed: false, round: 0, heard: true, missed: 0 }",
    ),
    (
        0,
        1,
        (1, 4),
        LAST_SESSION,
        "number: 0, session: 18446744056529682434, seen: 18446744056529682435, current: 0, confirmed: false, round: 3, heard: false, missed: 2 }",
    ),
];

fn check_controllers(rt: &impl Abort, alloc: Global, row: &Controllers) {
    let (first, count, (replicas, sequencers), script, expected) = *row;
    let config = Config::new(replicas, sequencers, 1, 4, 0).expect(rt, "a group");
    let mut cores = Vec::new(alloc);
    for i in 0..count {
        let number = first.wrapping_add(i);
        assert!(rt; number < MAX_CONTROLLERS);
        let core = Controller::new(alloc, config, number).expect(rt, "memory");
        cores.push(core).expect(rt, "memory");
    }
    play(rt, alloc, &mut cores, &mut Outbox::new(alloc), script);
    let first = cores.first().expect(rt, "a controller");
    let text = format!(in alloc; "{:?}", first.state()).expect(rt, "memory");
    let (_config, kept) = text.split_once("}, ").expect(rt, "a configuration");
    check_text(rt, kept, expected);
    let timers = timers(rt, alloc, first);
    check_text(
        rt,
        &timers,
        "Some((Resend, 100)) Some((Probe, 300)) None None",
    );
}

#[test]
fn controllers(rt: HostRuntime) {
    for row in &CONTROLLERS {
        check_controllers(&rt, rt.alloc(), row);
    }
}

/// One op of its own and one that is submitted: the second is accepted first, by a follower's reply
/// that comes twice and its leader's. A reply is kept for its own request, and what is open is sent
/// again.
const CLIENT: &str = "\
0 tick next
  0 submitted 1
  1 Sequencers 4e4f030100000000000000000000000100075000016b000176
0 submit 5000016b000176
  2 submitted 2
  3 Sequencers 4e4f030100000000000000000000000200075000016b000176
0 packet 4e4f0303 01 00000000 0000000000000001 00000002 00000000 0000000000000002 00 0000
0 packet 4e4f0303 01 00000000 0000000000000001 00000002 00000000 0000000000000002 00 0000
0 tick retry
  4 Sequencers 4e4f030100000000000000000000000100075000016b000176
  5 Sequencers 4e4f030100000000000000000000000200075000016b000176
0 packet 4e4f0303 00 00000000 0000000000000001 00000001 00000000 0000000000000001 01 0004 6e6f6e65
0 packet 4e4f0303 00 00000000 0000000000000001 00000002 00000000 0000000000000002 01 0004 6e6f6e65
  6 accepted 2 6e6f6e65
0 tick retry
  7 Sequencers 4e4f030100000000000000000000000100075000016b000176
0 packet 4e4f0303 01 00000000 0000000000000001 00000001 00000000 0000000000000001 00 0000
  8 accepted 1 6e6f6e65
0 packet 4e4f0303 01 00000000 0000000000000001 00000001 00000000 0000000000000001 00 0000
0 tick retry
0 tick next
";

/// A client of three replicas with so many ops of its own, each a put.
pub fn client(rt: &impl Abort, alloc: Global, count: usize) -> Client {
    let config = Config::new(3, 1, 1, 1, 0).expect(rt, "a group");
    let mut ops = Vec::new(alloc);
    for _ in 0..count {
        let op = Op::new(alloc, b"P\0\x01k\0\x01v").expect(rt, "memory");
        ops.push(op).expect(rt, "memory");
    }
    Client::new(alloc, config, 0, ops).expect(rt, "memory")
}

/// The slot of the acceptance of an id.
fn slot_of(core: &Client, id: u64) -> Option<u32> {
    match core.accepted(id) {
        Some(accept) => Some(accept.slot),
        None => None,
    }
}

/// Eight requests are open, and the ninth op is busy. So it is where the first one is still open,
/// which the next id would exceed by eight.
const EIGHT: &str = "\
0 submit 5000016b000176
  0 submitted 1
  1 Sequencers 4e4f030100000000000000000000000100075000016b000176
0 submit 5000016b000176
  2 submitted 2
  3 Sequencers 4e4f030100000000000000000000000200075000016b000176
0 submit 5000016b000176
  4 submitted 3
  5 Sequencers 4e4f030100000000000000000000000300075000016b000176
0 submit 5000016b000176
  6 submitted 4
  7 Sequencers 4e4f030100000000000000000000000400075000016b000176
0 submit 5000016b000176
  8 submitted 5
  9 Sequencers 4e4f030100000000000000000000000500075000016b000176
0 submit 5000016b000176
  10 submitted 6
  11 Sequencers 4e4f030100000000000000000000000600075000016b000176
0 submit 5000016b000176
  12 submitted 7
  13 Sequencers 4e4f030100000000000000000000000700075000016b000176
0 submit 5000016b000176
  14 submitted 8
  15 Sequencers 4e4f030100000000000000000000000800075000016b000176
0 submit 5000016b000176
  16 busy
0 packet 4e4f0303 01 00000000 0000000000000001 00000002 00000000 0000000000000002 00 0000
0 packet 4e4f0303 00 00000000 0000000000000001 00000002 00000000 0000000000000002 01 0004 6e6f6e65
  17 accepted 2 6e6f6e65
0 submit 5000016b000176
  18 busy
0 packet 4e4f0303 01 00000000 0000000000000001 00000001 00000000 0000000000000001 00 0000
0 packet 4e4f0303 00 00000000 0000000000000001 00000001 00000000 0000000000000001 01 0004 6e6f6e65
  19 accepted 1 6e6f6e65
0 submit 5000016b000176
  20 submitted 9
  21 Sequencers 4e4f030100000000000000000000000900075000016b000176
";

/// How many ops a client has of its own, what it is given, with its outputs; whether it is done at
/// the end, and the slots at which the ids from 0 on were accepted.
type Clients = (usize, &'static str, bool, [Option<u32>; 4]);

static CLIENTS: [Clients; 2] = [
    (1, CLIENT, true, [None, Some(1), Some(2), None]),
    (0, EIGHT, false, [None, None, Some(2), None]),
];

#[test]
fn clients(rt: HostRuntime) {
    let alloc = rt.alloc();
    for (count, script, done, slots) in &CLIENTS {
        let mut core = client(&rt, alloc, *count);
        play(
            &rt,
            alloc,
            from_mut(&mut core),
            &mut Outbox::new(alloc),
            script,
        );
        assert!(rt; core.done() == *done);
        let given = [
            slot_of(&core, 0),
            slot_of(&core, 1),
            slot_of(&core, 2),
            slot_of(&core, 3),
        ];
        assert!(rt; given == *slots);
        let timers = timers(&rt, alloc, &core);
        check_text(&rt, &timers, "Some((Next, 0)) Some((Retry, 200)) None None");
    }
}
