//! Datagrams that no actor of the group sent, or that are cut: they change nothing, or no more than
//! the step tables say. What is expected was worked out from the rules of the protocol and from its
//! formats.
use crate::cores::client;
use crate::groups::opened;
use crate::observers::opened_observer;
use crate::rows::{bytes_of, check_shown};
use crate::scripts::play;
use kv_host::KvHost;
use nop_types::{Config, Core, Host, Input, Outbox};
use replica_core::Replica;
use sequencer::Sequencer;
use session_control::Controller;
use std::alloc::Global;
use std::process::Abort;
use std::slice::from_mut;

/// Datagrams of all kinds. Each but the last two is taken by one of the cores below: a request, the
/// same stamped, the same stamped in session 2, a leader's and a follower's reply to it, an order
/// and its answer, a probe and its answer, and a question for a slot. The last two are a read of a
/// key and an answer to it.
const DATAGRAMS: &str = "\
4e4f0301 00000000 0000000000000001 0007 5000016b000176
4e4f0302 0000000000000001 0000000000000001 00000000 0000000000000001 0007 5000016b000176
4e4f0302 0000000000000002 0000000000000002 00000000 0000000000000001 0007 5000016b000176
4e4f0303 00 00000000 0000000000000001 00000001 00000000 0000000000000001 01 0004 6e6f6e65
4e4f0303 01 00000000 0000000000000001 00000001 00000000 0000000000000001 00 0000
4e4f0304 00 00 0000000000000002
4e4f0305 00 01 0000000000000002
4e4f0306 00 00 00000001
4e4f0307 00 01 00000001
4e4f0308 01 0000000000000001 0000 0001 100100000000000000000000000100000001
4e4f0309 00000000 0000000000000001 0001 6b
4e4f030a 00 00000001 00000000 0000000000000001 0002 3d76";

/// The same with a field out of its range: ids, sessions, rounds, a slot and a message of 0, a
/// message number of 2^48, ops of 641 bytes, replicas 7, a tag of 2, a result without a tag,
/// results of 258 bytes, controllers 4, sequencers 4, a count of 0 and one of 4,097, keys of 0 and
/// 65 bytes, an observer 4.
const OUT_OF_RANGE: &str = "\
4e4f0301 00000000 0000000000000000 0007 5000016b000176
4e4f0301 00000000 0000000000000001 0281 78*641
4e4f0302 0000000000000000 0000000000000001 00000000 0000000000000001 0007 5000016b000176
4e4f0302 0000000000000001 0001000000000000 00000000 0000000000000001 0007 5000016b000176
4e4f0302 0000000000000001 0000000000000001 00000000 0000000000000001 0281 78*641
4e4f0303 07 00000000 0000000000000001 00000001 00000000 0000000000000001 01 0004 6e6f6e65
4e4f0303 00 00000000 0000000000000001 00000000 00000000 0000000000000001 01 0004 6e6f6e65
4e4f0303 00 00000000 0000000000000001 00000001 00000000 0000000000000001 02 0004 6e6f6e65
4e4f0303 00 00000000 0000000000000001 00000001 00000000 0000000000000001 00 0004 6e6f6e65
4e4f0303 00 00000000 0000000000000001 00000001 00000000 0000000000000001 01 0102 3d*258
4e4f0304 00 00 0000000000000000
4e4f0304 00 04 0000000000000002
4e4f0304 04 00 0000000000000002
4e4f0305 00 01 0000000000000000
4e4f0305 04 01 0000000000000002
4e4f0306 00 00 00000000
4e4f0306 04 00 00000001
4e4f0307 00 04 00000001
4e4f0307 04 01 00000001
4e4f0308 07 0000000000000001 0000 0001 100100000000000000000000000100000001
4e4f0308 01 0000000000000000 0000 0001 100100000000000000000000000100000001
4e4f0308 01 0000000000000001 0000 0000 100100000000000000000000000100000001
4e4f0308 01 0000000000000001 0000 1001 00*1400
4e4f0309 00000000 0000000000000000 0001 6b
4e4f0309 00000000 0000000000000001 0000
4e4f0309 00000000 0000000000000001 0041 6b*65
4e4f030a 04 00000001 00000000 0000000000000001 0002 3d76
4e4f030a 00 00000001 00000000 0000000000000000 0002 3d76
4e4f030a 00 00000001 00000000 0000000000000001 0102 3d*258";

/// Places in a datagram, and bytes there: no such magic, version or kind.
const CHANGES: [(usize, u8); 6] = [(0, 0x4f), (1, 0x4e), (2, 2), (2, 4), (3, 0), (3, 11)];

/// A core takes these bytes, and gives nothing.
fn ignores<C: Core>(rt: &impl Abort, alloc: Global, core: &mut C, bytes: &[u8]) {
    let mut out = Outbox::new(alloc);
    core.step(Input::Packet(bytes), &mut out)
        .expect(rt, "memory");
    assert!(rt; out.as_slice().is_empty());
}

/// A core ignores each front of these bytes but the whole of them, them with another byte in one
/// place, and with one more.
fn ignores_bad<C: Core>(rt: &impl Abort, alloc: Global, core: &mut C, bytes: &[u8]) {
    for len in 0..bytes.len() {
        ignores(rt, alloc, core, &bytes[..len]);
    }
    for (place, byte) in &CHANGES {
        let mut changed = bytes.to_vec(alloc).expect(rt, "memory");
        assert!(rt; *place < changed.len());
        changed[*place] = *byte;
        ignores(rt, alloc, core, &changed);
    }
    let mut longer = bytes.to_vec(alloc).expect(rt, "memory");
    longer.push(0).expect(rt, "memory");
    ignores(rt, alloc, core, &longer);
}

/// A core ignores what is no datagram, and the datagrams that do not begin with one of these
/// fronts.
fn takes_only<C: Core>(rt: &impl Abort, alloc: Global, core: &mut C, taken: &str) {
    for row in DATAGRAMS.lines() {
        let bytes = bytes_of(rt, alloc, row);
        ignores_bad(rt, alloc, core, &bytes);
        let (prefix, _rest) = row.split_once(' ').expect(rt, "a row");
        if !taken.contains(prefix) {
            ignores(rt, alloc, core, &bytes);
        }
    }
    for row in OUT_OF_RANGE.lines() {
        ignores(rt, alloc, core, &bytes_of(rt, alloc, row));
    }
}

/// Three replicas ignore them, and take the stamped request as if nothing had come.
fn replicas_take_only<H: Host>(rt: &impl Abort, alloc: Global) {
    let mut cores: Vec<Replica<H>> = opened(rt, alloc);
    for core in &mut cores {
        takes_only(rt, alloc, core, "4e4f0302 4e4f0308");
        assert!(rt; core.held(1) == 0);
    }
    play(rt, alloc, &mut cores, &mut Outbox::new(alloc), AS_BEFORE);
}

const AS_BEFORE: &str = "\
0 packet 4e4f0302 0000000000000001 0000000000000001 00000000 0000000000000001 0007 5000016b000176
  0 One(Client(0)) 4e4f030300000000000000000000000001000000010000000000000000000000010100046e6f6e65
1 packet 4e4f0302 0000000000000001 0000000000000001 00000000 0000000000000001 0007 5000016b000176
  1 One(Client(0)) 4e4f03030100000000000000000000000100000001000000000000000000000001000000
";

#[test]
fn replicas_ignore_what_is_no_datagram(rt: HostRuntime) {
    replicas_take_only::<KvHost>(&rt, rt.alloc());
}

/// An observer answers the read of a key that it does not have.
const READ: &str = "\
0 packet 4e4f0309 00000000 0000000000000001 0001 6b
  0 One(Client(0)) 4e4f030a000000000000000000000000000000000100046e6f6e65
";

#[test]
fn an_observer_ignores_what_is_no_datagram(rt: HostRuntime) {
    let alloc = rt.alloc();
    let mut core = opened_observer::<KvHost>(&rt, alloc);
    takes_only(&rt, alloc, &mut core, "4e4f0308 4e4f0309");
    assert!(rt; core.position() == 0);
    let mut sent = Outbox::new(alloc);
    play(&rt, alloc, from_mut(&mut core), &mut sent, READ);
}

/// A sequencer stamps the first request with the first number.
const STAMPED: &str = "\
0 packet 4e4f0301 00000000 0000000000000001 0007 5000016b000176
  0 Replicas 4e4f03020000000000000001000000000000000100000000000000000000000100075000016b000176
";

#[test]
fn a_sequencer_ignores_what_is_no_datagram(rt: HostRuntime) {
    let alloc = rt.alloc();
    let mut core = Sequencer::new(alloc, 0).expect(&rt, "memory");
    takes_only(&rt, alloc, &mut core, "4e4f0301 4e4f0304 4e4f0306");
    let expected = "SequencerState { number: 0, session: 1, next: 1 }";
    check_shown(&rt, alloc, &core.state(), expected);
    let mut sent = Outbox::new(alloc);
    play(&rt, alloc, from_mut(&mut core), &mut sent, STAMPED);
}

/// A controller waits for answers to an order and to a probe.
const ORDERED: &str = "\
0 tick install 1
  0 One(Sequencer(1)) 4e4f030400010000000000000002
0 tick probe
  1 One(Sequencer(1)) 4e4f0306000100000001
";

#[test]
fn a_controller_ignores_what_is_no_datagram(rt: HostRuntime) {
    let alloc = rt.alloc();
    let config = Config::new(3, 2, 1, 1, 0).expect(&rt, "a group");
    let mut core = Controller::new(alloc, config, 0).expect(&rt, "memory");
    let mut sent = Outbox::new(alloc);
    play(&rt, alloc, from_mut(&mut core), &mut sent, ORDERED);
    let before = core.state();
    takes_only(&rt, alloc, &mut core, "4e4f0305 4e4f0307");
    assert!(rt; core.state() == before);
}

/// A client submits its op.
const SUBMITTED: &str = "\
0 tick next
  0 submitted 1
  1 Sequencers 4e4f030100000000000000000000000100075000016b000176
";

/// Replies of replica 6, which is not there, for another id and for another client change nothing:
/// the follower's reply is the first of a quorum, and the leader's the last.
const REPLIES: &str = "\
0 packet 4e4f0303 06 00000000 0000000000000001 00000001 00000000 0000000000000001 00 0000
0 packet 4e4f0303 00 00000000 0000000000000001 00000001 00000000 0000000000000002 01 0004 6e6f6e65
0 packet 4e4f0303 00 00000000 0000000000000001 00000001 00000001 0000000000000001 01 0004 6e6f6e65
0 packet 4e4f0303 01 00000000 0000000000000001 00000001 00000000 0000000000000001 00 0000
0 packet 4e4f0303 06 00000000 0000000000000001 00000001 00000000 0000000000000001 01 0004 6e6f6e65
0 packet 4e4f0303 00 00000000 0000000000000001 00000001 00000000 0000000000000001 01 0004 6e6f6e65
  2 accepted 1 6e6f6e65
";

#[test]
fn a_client_ignores_replies_of_others(rt: HostRuntime) {
    let alloc = rt.alloc();
    let mut core = client(&rt, alloc, 1);
    let mut sent = Outbox::new(alloc);
    play(&rt, alloc, from_mut(&mut core), &mut sent, SUBMITTED);
    takes_only(&rt, alloc, &mut core, "4e4f0303");
    play(&rt, alloc, from_mut(&mut core), &mut sent, REPLIES);
    assert!(rt; core.state().last_id == 1);
}
