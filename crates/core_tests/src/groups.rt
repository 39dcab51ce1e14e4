//! Groups of three replicas of the key-value service that are driven by hand. What is expected was
//! worked out from the rules of the protocol and from its formats.
use crate::forged::FORGED;
use crate::rows::{bytes_of, check_text, put_entries, put_line};
use crate::scripts::{play, timers};
use crate::trimmed::TRIMMED;
use kv_host::KvHost;
use nop_types::{
    Actor, Checkpoint, Config, Core, Dest, Host, Input, Out, Outbox, SavedClient, View,
};
use replica_core::Replica;
use std::alloc::Global;
use std::process::Abort;

/// Adds a client of a checkpoint: its number, and each id that has a result, with the result. The
/// last one is its greatest id.
fn put_client(rt: &impl Abort, alloc: Global, saved: &SavedClient, to: &mut String) {
    let text = format!(in alloc; " [{}", saved.client).expect(rt, "memory");
    to.push_str(&text).expect(rt, "memory");
    for answered in &saved.kept {
        let result = hex::encode(alloc, answered.result.as_slice()).expect(rt, "memory");
        let text = format!(in alloc; ", {}, {result}", answered.id).expect(rt, "memory");
        to.push_str(&text).expect(rt, "memory");
    }
    to.push_str("]").expect(rt, "memory");
}

/// Adds a checkpoint: the bytes of the host's state, and the clients.
fn put_checkpoint(rt: &impl Abort, alloc: Global, checkpoint: &Checkpoint, to: &mut String) {
    let host = hex::encode(alloc, checkpoint.host().as_slice()).expect(rt, "memory");
    let text = format!(in alloc; " {host}").expect(rt, "memory");
    to.push_str(&text).expect(rt, "memory");
    for saved in checkpoint.clients() {
        put_client(rt, alloc, saved, to);
    }
}

/// Adds a replica's log: its checkpoint, if it has one, the entries above its sync point, and
/// whether it is full.
fn put_log<H: Host>(rt: &impl Abort, alloc: Global, core: &Replica<H>, to: &mut String) {
    let log = core.log();
    if let Some(checkpoint) = log.checkpoint() {
        put_checkpoint(rt, alloc, checkpoint, to);
    }
    put_entries(rt, alloc, log.entries(), to);
    if !log.has_room() {
        to.push_str(" full").expect(rt, "memory");
    }
}

/// A line for each replica: its view, status, last normal view, sync point, how many slots are
/// executed, and its log.
fn states<H: Host>(rt: &impl Abort, alloc: Global, cores: &[Replica<H>]) -> String {
    let mut lines = String::new(alloc);
    for core in cores {
        let status = core.status();
        let (view, normal): (View, View) = (core.view(), core.last_normal());
        let (point, executed) = (core.sync_point(), core.executed());
        let text = format!(in alloc;
            "{status:?} ({}, {}, {}, {}) ({point}, {executed})",
            view.leader, view.session, normal.leader, normal.session
        );
        lines
            .push_str(&text.expect(rt, "memory"))
            .expect(rt, "memory");
        put_log(rt, alloc, core, &mut lines);
        put_line(rt, "", &mut lines);
    }
    lines
}

/// Three replicas to which nothing has come.
pub fn opened<H: Host>(rt: &impl Abort, alloc: Global) -> Vec<Replica<H>> {
    let config = Config::new(3, 2, 2, 1, 0).expect(rt, "a group");
    let mut cores = Vec::new(alloc);
    for number in 0..config.replicas() {
        let core = Replica::new(alloc, config, number).expect(rt, "memory");
        cores.push(core).expect(rt, "memory");
    }
    cores
}

/// What cores are given, with their outputs, and their states at the end, a line each.
pub type Script = (&'static str, &'static str);

/// Plays scripts, each with three replicas to which nothing has come, and compares their states at
/// the end.
fn play_all<H: Host>(rt: &impl Abort, alloc: Global, scripts: &[Script]) {
    for (script, expected) in scripts {
        let mut cores: Vec<Replica<H>> = opened(rt, alloc);
        play(rt, alloc, &mut cores, &mut Outbox::new(alloc), script);
        check_text(rt, &states(rt, alloc, &cores), expected);
    }
}

#[test]
fn scripts_of_three_replicas(rt: HostRuntime) {
    play_all::<KvHost>(&rt, rt.alloc(), &GROUPS);
    play_all::<KvHost>(&rt, rt.alloc(), &TRIMMED);
    play_all::<KvHost>(&rt, rt.alloc(), &FORGED);
}

#[test]
fn a_replica_has_three_timers(rt: HostRuntime) {
    let config = Config::new(3, 2, 2, 1, 0).expect(&rt, "a group");
    let core: Replica<KvHost> = Replica::new(rt.alloc(), config, 0).expect(&rt, "memory");
    let expected = "Some((Resend, 50)) Some((Sync, 100)) Some((Watch, 1000)) None";
    check_text(&rt, &timers(&rt, rt.alloc(), &core), expected);
}

/// While its gap waits, a leader neither replies nor synchronises nor begins another gap. It tells
/// the gap again, on a tick and to whom asks for the slot. A vote for another slot, made by hand,
/// changes nothing, and neither does a late one. After the right one slots 2 and 3 are replied for,
/// and the next gap begins in slot 4.
const GAP: &str = "\
0 packet 4e4f0302 0000000000000001 0000000000000002 00000001 0000000000000001 0004 4700016b
  0 Replicas 4e4f030800000000000000000100000001120000000000000000000000000100000001
0 packet 4e4f0302 0000000000000001 0000000000000003 00000000 0000000000000001 0007 5000016b000176
0 packet 4e4f0302 0000000000000001 0000000000000005 00000000 0000000000000001 0007 5000016b000176
0 tick sync
0 tick resend
  1 Replicas 4e4f030800000000000000000200000001120000000000000000000000000100000001
1 packet 4e4f0302 0000000000000001 0000000000000002 00000001 0000000000000001 0004 4700016b
  2 One(Replica(0)) 4e4f030801000000000000000100000001100100000000000000000000000100000001
0 sent 2
  3 One(Replica(1)) 4e4f030800000000000000000300000001120000000000000000000000000100000001
1 sent 3
  4 One(Replica(0)) 4e4f030801000000000000000200000001130100000000000000000000000100000001
  5 One(Client(1)) 4e4f03030100000000000000000000000100000002000000010000000000000001000000
1 sent 1
  6 One(Replica(0)) 4e4f030801000000000000000300000001130100000000000000000000000100000001
0 packet 4e4f0308 01 0000000000000009 0000 0001 13 01 00000000 0000000000000001 00000002
0 packet 4e4f0308 01 0000000000000009 0000 0001 10 01 00000000 0000000000000001 00000002
0 sent 4
  7 One(Client(1)) 4e4f030300000000000000000000000001000000020000000100000000000000010100046e6f6e65
  8 One(Client(0)) 4e4f030300000000000000000000000001000000030000000000000000000000010100046e6f6e65
  9 Replicas 4e4f030800000000000000000400000001120000000000000000000000000100000004
0 sent 6
";

const GAP_ENDS: &str = "\
Normal (0, 1, 0, 1) (0, 4) (0, 0) (1, 1) (0, 1) (0, 0)
Normal (0, 1, 0, 1) (0, 0) (0, 0) (1, 1)
Normal (0, 1, 0, 1) (0, 0)
";

/// A leader in Normal suspects nobody. A follower does where it heard nothing of its leader between
/// two ticks, here after a commit of what it has; so does a replica that waits for its view to
/// start.
const WATCH: &str = "\
0 tick watch
0 tick watch
1 tick watch
1 packet 4e4f0308 00 0000000000000001 0000 0001 19 00 00000000 0000000000000001 00000000
1 tick watch
1 tick watch
  0 Replicas 4e4f0308010000000000000001000000011401000000010000000000000001
1 tick watch
1 tick watch
  1 Replicas 4e4f0308010000000000000002000000011401000000020000000000000001
  2 One(Replica(2)) 4e4f030801000000000000000300000001150100000002000000000000000100000000000000000000000100000000000000010000000000000000
";

const WATCH_ENDS: &str = "\
Normal (0, 1, 0, 1) (0, 0)
Change (2, 1, 0, 1) (0, 0)
Normal (0, 1, 0, 1) (0, 0)
";

/// A leader and a follower answer three requests that are no ops of the service. Then that leader
/// is suspected, and the next view keeps them with the same answers. The change and the start come
/// in two fragments each, in the other order, and again: a change that is joined a second time is
/// late, and gets the start.
const VIEW_CHANGE: &str = "\
0 packet 4e4f0302 0000000000000001 0000000000000001 00000000 0000000000000001 0280 78*640
  0 One(Client(0)) 4e4f03030000000000000000000000000100000001000000000000000000000001010003626164
0 packet 4e4f0302 0000000000000001 0000000000000002 00000000 0000000000000002 0280 78*640
  1 One(Client(0)) 4e4f03030000000000000000000000000100000002000000000000000000000002010003626164
0 packet 4e4f0302 0000000000000001 0000000000000003 00000000 0000000000000003 0280 78*640
  2 One(Client(0)) 4e4f03030000000000000000000000000100000003000000000000000000000003010003626164
2 packet 4e4f0302 0000000000000001 0000000000000001 00000000 0000000000000001 0280 78*640
  3 One(Client(0)) 4e4f03030200000000000000000000000100000001000000000000000000000001000000
2 packet 4e4f0302 0000000000000001 0000000000000002 00000000 0000000000000002 0280 78*640
  4 One(Client(0)) 4e4f03030200000000000000000000000100000002000000000000000000000002000000
2 packet 4e4f0302 0000000000000001 0000000000000003 00000000 0000000000000003 0280 78*640
  5 One(Client(0)) 4e4f03030200000000000000000000000100000003000000000000000000000003000000
1 tick suspect
  6 Replicas 4e4f0308010000000000000001000000011401000000010000000000000001
2 sent 6
  7 Replicas 4e4f0308020000000000000001000000011402000000010000000000000001
  8 One(Replica(1)) 1417 bytes
  9 One(Replica(1)) 624 bytes
1 sent 9
1 sent 9
1 sent 8
  10 Replicas 1417 bytes
  11 Replicas 612 bytes
  12 One(Client(0)) 4e4f03030100000001000000000000000100000001000000000000000000000001010003626164
  13 One(Client(0)) 4e4f03030100000001000000000000000100000002000000000000000000000002010003626164
  14 One(Client(0)) 4e4f03030100000001000000000000000100000003000000000000000000000003010003626164
0 sent 11
0 sent 10
  15 One(Client(0)) 4e4f03030000000001000000000000000100000001000000000000000000000001000000
  16 One(Client(0)) 4e4f03030000000001000000000000000100000002000000000000000000000002000000
  17 One(Client(0)) 4e4f03030000000001000000000000000100000003000000000000000000000003000000
1 sent 8
1 sent 9
  18 One(Replica(2)) 1417 bytes
  19 One(Replica(2)) 612 bytes
2 sent 19
2 sent 18
  20 One(Client(0)) 4e4f03030200000001000000000000000100000001000000000000000000000001000000
  21 One(Client(0)) 4e4f03030200000001000000000000000100000002000000000000000000000002000000
  22 One(Client(0)) 4e4f03030200000001000000000000000100000003000000000000000000000003000000
";

const VIEW_CHANGE_ENDS: &str = "\
Normal (1, 1, 1, 1) (0, 0) (0, 1) (0, 2) (0, 3)
Normal (1, 1, 1, 1) (0, 3) (0, 1) (0, 2) (0, 3)
Normal (1, 1, 1, 1) (0, 0) (0, 1) (0, 2) (0, 3)
";

/// A follower that missed a request takes it from the leader's log, replies, and votes; then both
/// have it synchronised, and in its place a checkpoint: the map, and the client with its id and
/// result. Messages made by hand change nothing: a commit before the log came, a view that is asked
/// for by the replica itself, by one that is not there, and in fragments of another than its
/// sender, and a start of the next view without the request that is synchronised.
const SYNCHRONISATION: &str = "\
0 packet 4e4f0302 0000000000000001 0000000000000001 00000000 0000000000000001 0007 5000016b000176
  0 One(Client(0)) 4e4f030300000000000000000000000001000000010000000000000000000000010100046e6f6e65
0 tick sync
  1 Replicas 4e4f030800000000000000000100000001170000000000000000000000000100000000000000010100000000000000000000000100075000016b000176
2 packet 4e4f0308 00 0000000000000009 0000 0001 19 00 00000000 0000000000000001 00000001
2 packet 4e4f0308 02 0000000000000009 0000 0001 14 02 00000001 0000000000000001
2 packet 4e4f0308 03 0000000000000009 0000 0001 14 03 00000001 0000000000000001
2 packet 4e4f0308 01 0000000000000009 0000 0001 14 00 00000001 0000000000000001
2 sent 1
  2 One(Client(0)) 4e4f03030200000000000000000000000100000001000000000000000000000001000000
  3 One(Replica(0)) 4e4f030802000000000000000100000001180200000000000000000000000100000001
2 packet 4e4f0302 0000000000000001 0000000000000002 00000001 0000000000000001 0004 4700016b
  4 One(Client(1)) 4e4f03030200000000000000000000000100000002000000010000000000000001000000
0 sent 3
  5 Replicas 4e4f030800000000000000000200000001190000000000000000000000000100000001
  6 trimmed 1 (0, 1)
2 sent 5
  7 trimmed 1 (0, 1)
0 tick sync
  8 Replicas 4e4f030800000000000000000300000001190000000000000000000000000100000001
2 packet 4e4f0308 01 0000000000000009 0000 0001 16 01 00000001 0000000000000001 0000000000000001 00000000 00000000
";

const SYNCHRONISATION_ENDS: &str = "\
Normal (0, 1, 0, 1) (1, 1) 0000000100016b000176 [0, 1, 6e6f6e65]
Normal (0, 1, 0, 1) (0, 0)
Normal (0, 1, 0, 1) (1, 1) 0000000100016b000176 [0, 1, 6e6f6e65] (1, 1)
";

/// A leader and a follower have a request synchronised, so it moved out of their logs. Messages
/// made by hand then tell of a NO-OP in its slot: a gap commit and a log in the same view, and what
/// the next view starts with. The follower answers them, and the checkpoint stays. Another follower
/// asks the leader for the slot, and tells a late change: it gets the checkpoint, though the view
/// started with nothing.
const SYNCHRONISED: &str = "\
0 packet 4e4f0302 0000000000000001 0000000000000001 00000000 0000000000000001 0007 5000016b000176
  0 One(Client(0)) 4e4f030300000000000000000000000001000000010000000000000000000000010100046e6f6e65
0 tick sync
  1 Replicas 4e4f030800000000000000000100000001170000000000000000000000000100000000000000010100000000000000000000000100075000016b000176
2 sent 1
  2 One(Client(0)) 4e4f03030200000000000000000000000100000001000000000000000000000001000000
  3 One(Replica(0)) 4e4f030802000000000000000100000001180200000000000000000000000100000001
0 sent 3
  4 Replicas 4e4f030800000000000000000200000001190000000000000000000000000100000001
  5 trimmed 1 (0, 1)
2 sent 4
  6 trimmed 1 (0, 1)
2 packet 4e4f0308 00 0000000000000009 0000 0001 12 00 00000000 0000000000000001 00000001
  7 One(Replica(0)) 4e4f030802000000000000000200000001130200000000000000000000000100000001
2 packet 4e4f0308 00 000000000000000a 0000 0001 17 00 00000000 0000000000000001 00000000 00000001 00
  8 One(Replica(0)) 4e4f030802000000000000000300000001180200000000000000000000000100000001
0 packet 4e4f0308 01 0000000000000009 0000 0001 10 01 00000000 0000000000000001 00000001
  9 One(Replica(1)) 4e4f0308000000000000000003000000011700000000000000000000000001000000010000000a0000000100016b0001760000000100000000000000000000000101000000000000000100046e6f6e6500000000
0 packet 4e4f0308 01 000000000000000a 0000 0001 15 01 00000000 0000000000000001 00000000 0000000000000001 0000000000000001 00000000 00000000
  10 One(Replica(1)) 4e4f03080000000000000000040000000116000000000000000000000000010000000000000002000000010000000a0000000100016b0001760000000100000000000000000000000101000000000000000100046e6f6e6500000000
2 packet 4e4f0308 01 000000000000000b 0000 0001 16 01 00000001 0000000000000001 0000000000000003 00000000 00000002 00 00
";

const SYNCHRONISED_ENDS: &str = "\
Normal (0, 1, 0, 1) (1, 1) 0000000100016b000176 [0, 1, 6e6f6e65]
Normal (0, 1, 0, 1) (0, 0)
Normal (1, 1, 1, 1) (1, 1) 0000000100016b000176 [0, 1, 6e6f6e65] (0, 0)
";

/// A follower without a log is told the checkpoint of a put: it takes that, and replies to nobody.
/// Logs made by hand then tell of an empty map: with the same sync point, where the own checkpoint
/// stays, and slot 2 alone is taken, and with a greater one, whose checkpoint is taken. With what
/// the next view starts with the put is there again. Another replica starts that view with the
/// checkpoint of a change that it is told.
const TOLD: &str = "\
2 packet 4e4f0308 00 0000000000000009 0000 0001 17 00 00000000 0000000000000001 00000001 0000000a 0000000100016b000176 00000001 00000000 0000000000000001 01 0000000000000001 0004 6e6f6e65 00000000
  0 One(Replica(0)) 4e4f030802000000000000000100000001180200000000000000000000000100000001
2 packet 4e4f0308 00 000000000000000a 0000 0001 17 00 00000000 0000000000000001 00000001 00000004 00000000 00000000 00000001 01 00000001 0000000000000001 0004 4700016b
  1 One(Client(1)) 4e4f03030200000000000000000000000100000002000000010000000000000001000000
  2 One(Replica(0)) 4e4f030802000000000000000200000001180200000000000000000000000100000002
2 packet 4e4f0308 00 000000000000000b 0000 0001 17 00 00000000 0000000000000001 00000002 00000004 00000000 00000000 00000000
  3 One(Replica(0)) 4e4f030802000000000000000300000001180200000000000000000000000100000002
2 packet 4e4f0308 01 0000000000000009 0000 0001 16 01 00000001 0000000000000001 0000000000000004 00000003 0000000a 0000000100016b000176 00000001 00000000 0000000000000001 01 0000000000000001 0004 6e6f6e65 00000000
1 tick suspect
  4 Replicas 4e4f0308010000000000000001000000011401000000010000000000000001
1 packet 4e4f0308 02 0000000000000009 0000 0001 15 02 00000001 0000000000000001 00000000 0000000000000001 0000000000000002 00000001 0000000a 0000000100016b000176 00000001 00000000 0000000000000001 01 0000000000000001 0004 6e6f6e65 00000000
  5 Replicas 4e4f03080100000000000000020000000116010000000100000000000000010000000000000002000000010000000a0000000100016b0001760000000100000000000000000000000101000000000000000100046e6f6e6500000000
";

const TOLD_ENDS: &str = "\
Normal (0, 1, 0, 1) (0, 0)
Normal (1, 1, 1, 1) (1, 1) 0000000100016b000176 [0, 1, 6e6f6e65]
Normal (1, 1, 1, 1) (3, 3) 0000000100016b000176 [0, 1, 6e6f6e65]
";

/// The scripts above.
static GROUPS: [Script; 6] = [
    (GAP, GAP_ENDS),
    (WATCH, WATCH_ENDS),
    (VIEW_CHANGE, VIEW_CHANGE_ENDS),
    (SYNCHRONISATION, SYNCHRONISATION_ENDS),
    (SYNCHRONISED, SYNCHRONISED_ENDS),
    (TOLD, TOLD_ENDS),
];

/// A get, stamped in session 1.
fn stamped(rt: &impl Abort, alloc: Global, number: u64, client: u32, id: u64) -> Vec<u8> {
    let row = format!(in alloc;
        "4e4f0302 0000000000000001 {number:016x} {client:08x} {id:016x} 0004 4700016b"
    );
    bytes_of(rt, alloc, &row.expect(rt, "memory"))
}

/// After a request of each of the clients 0 to 255, as many as a log serves: a client, an id, and
/// whether the leader replies. It does for an id that comes late, and not for one that is eight
/// behind.
const LATER: [(u32, u64, bool); 9] = [
    (256, 1, false),
    (0, 1, true),
    (256, 2, false),
    (255, 9, true),
    (255, 1, false),
    (255, 2, true),
    (300, 1, false),
    (u32::MAX, u64::MAX, false),
    (7, u64::MAX, true),
];

/// Whether the replica replies to a get, with one datagram to its client.
fn replies<H: Host>(
    rt: &impl Abort,
    alloc: Global,
    core: &mut Replica<H>,
    number: u64,
    client: u32,
    id: u64,
) -> bool {
    let bytes = stamped(rt, alloc, number, client, id);
    let mut out = Outbox::new(alloc);
    core.step(Input::Packet(&bytes), &mut out)
        .expect(rt, "memory");
    match out.as_slice() {
        [] => false,
        [Out::Send(Dest::One(Actor::Client(to)), _)] => {
            assert!(rt; *to == client);
            true
        }
        _ => panic!(rt; "something else is sent"),
    }
}

fn check_served<H: Host>(rt: &impl Abort, alloc: Global) {
    let mut cores: Vec<Replica<H>> = opened(rt, alloc);
    let core = cores.first_mut().expect(rt, "a replica");
    for client in 0..256u32 {
        assert!(rt;
            replies(rt, alloc, core, u64::from(client) + 1, client, 1),
            "client {client}"
        );
    }
    for (row, (client, id, replied)) in LATER.iter().enumerate() {
        let answer = replies(rt, alloc, core, row as u64 + 257, *client, *id);
        assert!(rt; answer == *replied, "row {row}");
    }
    assert!(rt; core.log().len() == 265);
}

#[test]
fn the_first_clients_are_served(rt: HostRuntime) {
    check_served::<KvHost>(&rt, rt.alloc());
}
