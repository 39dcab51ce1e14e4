//! Messages between replicas: bytes and what they spell, logs that are borrowed, and the longest
//! message.
ghost use Rattle.nop_types.specs.Checkpoints.{CheckpointFits};
ghost use Rattle.nop_types.specs.Ranges.{PeerFits};

use crate::datagrams;
use crate::joining::check_cut;
use crate::rows::{bytes_of, check, is_expected, put, put_times, text};
use nop_types::{Answered, Bytes, Checkpoint, Entry, LogRef, Peer, SavedClient, View};
use peer_codec::{EncodedPeer, LogBody, decode_peer, encode_peer, encode_with_log, read_peer};
use std::alloc::Global;
use std::process::Abort;

/// The examples of the formats: bytes, and the message that they spell. The logs have the sync
/// points 0, 1 and 2; the first checkpoint saves a map of one key, where one client has written it,
/// and the second has nothing in it. The last nine messages have fields and logs at their greatest:
/// two clients, ids and results too, eight results of one client, and a sync point with as many
/// entries as it leaves, 4,096 or none.
const EXAMPLES: &str = "\
10 01 00000000 0000000000000001 00000001 = Peer { sender: 1, view: View { leader: 0, session: 1 }, body: SlotLookup(1) }
11 00 00000000 0000000000000001 00000001 00000000 0000000000000001 0007 5000016b000176 = Peer { sender: 0, view: View { leader: 0, session: 1 }, body: Found(1, Request { client: 0, id: 1, op: Op { bytes: [80, 0, 1, 107, 0, 1, 118] } }) }
12 00 00000000 0000000000000001 00000001 = Peer { sender: 0, view: View { leader: 0, session: 1 }, body: GapCommit(1) }
13 01 00000000 0000000000000001 00000001 = Peer { sender: 1, view: View { leader: 0, session: 1 }, body: GapRep(1) }
14 01 00000001 0000000000000001 = Peer { sender: 1, view: View { leader: 1, session: 1 }, body: ViewChangeReq }
14 01 00000001 0000000100000000 = Peer { sender: 1, view: View { leader: 1, session: 4294967296 }, body: ViewChangeReq }
15 02 00000001 0000000000000001 00000000 0000000000000001 0000000000000003 00000001 0000000a 0000000100016b000176 00000001 00000000 0000000000000001 01 0000000000000001 0004 6e6f6e65 00000001 01 00000001 0000000000000001 0004 4700016b = Peer { sender: 2, view: View { leader: 1, session: 1 }, body: ViewChange { last_normal: View { leader: 0, session: 1 }, next: 3, log: Log { sync_point: 1, checkpoint: Some(Checkpoint { host: Bytes { bytes: [0, 0, 0, 1, 0, 1, 107, 0, 1, 118] }, clients: [SavedClient { client: 0, greatest: 1, kept: [Answered { id: 1, result: Bytes { bytes: [110, 111, 110, 101] } }] }] }), entries: [Req(Request { client: 1, id: 1, op: Op { bytes: [71, 0, 1, 107] } })] } } }
16 01 00000001 0000000000000001 0000000000000003 00000002 00000000 00000000 00000002 00 01 00000001 0000000000000001 0004 4700016b = Peer { sender: 1, view: View { leader: 1, session: 1 }, body: StartView { next: 3, log: Log { sync_point: 2, checkpoint: Some(Checkpoint { host: Bytes { bytes: [] }, clients: [] }), entries: [NoOp, Req(Request { client: 1, id: 1, op: Op { bytes: [71, 0, 1, 107] } })] } } }
17 00 00000000 0000000000000001 00000000 00000001 01 00000000 0000000000000001 0007 5000016b000176 = Peer { sender: 0, view: View { leader: 0, session: 1 }, body: SyncPrepare(Log { sync_point: 0, checkpoint: None, entries: [Req(Request { client: 0, id: 1, op: Op { bytes: [80, 0, 1, 107, 0, 1, 118] } })] }) }
18 01 00000000 0000000000000001 00000001 = Peer { sender: 1, view: View { leader: 0, session: 1 }, body: SyncRep(1) }
19 00 00000000 0000000000000001 00000001 = Peer { sender: 0, view: View { leader: 0, session: 1 }, body: SyncCommit(1) }
16 01 00000001 0000000000000001 0001000000000000 00000000 00000000 = Peer { sender: 1, view: View { leader: 1, session: 1 }, body: StartView { next: 281474976710656, log: Log { sync_point: 0, checkpoint: None, entries: [] } } }
18 01 00000000 0000000000000001 00000000 = Peer { sender: 1, view: View { leader: 0, session: 1 }, body: SyncRep(0) }
10 06 ffffffff ffffffffffffffff ffffffff = Peer { sender: 6, view: View { leader: 4294967295, session: 18446744073709551615 }, body: SlotLookup(4294967295) }
18 06 ffffffff ffffffffffffffff ffffffff = Peer { sender: 6, view: View { leader: 4294967295, session: 18446744073709551615 }, body: SyncRep(4294967295) }
19 00 00000000 0000000000000001 ffffffff = Peer { sender: 0, view: View { leader: 0, session: 1 }, body: SyncCommit(4294967295) }
17 06 ffffffff ffffffffffffffff ffffefff 00000000 00000000 00001000 00*4096 = Peer { sender: 6, view: View { leader: 4294967295, session: 18446744073709551615 }, body: SyncPrepare(Log { sync_point: 4294963199, checkpoint: Some(Checkpoint { host: Bytes { bytes: [] }, clients: [] }), entries: [NoOp, NoOp..
17 00 00000000 0000000000000001 ffffffff 00000000 00000002 00000000 0000000000000001 01 0000000000000001 0000 ffffffff ffffffffffffffff 02 fffffffffffffff8 0000 ffffffffffffffff 0001 ff 00000000 = Peer { sender: 0, view: View { leader: 0, session: 1 }, body: SyncPrepare(Log { sync_point: 4294967295, checkpoint: Some(Checkpoint { host: Bytes { bytes: [] }, clients: [SavedClient { client: 0, greatest: 1, kept: [Answered { id: 1, result: Bytes { bytes: [] } }] }, SavedClient { client: 4294967295, greatest: 18446744073709551615, kept: [Answered { id: 18446744073709551608, result: Bytes { bytes: [] } }, Answered { id: 18446744073709551615, result: Bytes { bytes: [255] } }] }] }), entries: [] }) }
17 00 00000000 0000000000000001 00000001 00000000 00000001 00000007 0000000000000008 08 0000000000000001 0000 0000000000000002 0000 0000000000000003 0000 0000000000000004 0000 0000000000000005 0000 0000000000000006 0000 0000000000000007 0000 0000000000000008 0000 00000000 = Peer { sender: 0, view: View { leader: 0, session: 1 }, body: SyncPrepare(Log { sync_point: 1, checkpoint: Some(Checkpoint { host: Bytes { bytes: [] }, clients: [SavedClient { client: 7, greatest: 8, kept: [Answered { id: 1, result: Bytes { bytes: [] } }, Answered { id: 2, result: Bytes { bytes: [] } }, Answered { id: 3, result: Bytes { bytes: [] } }, Answered { id: 4, result: Bytes { bytes: [] } }, Answered { id: 5, result: Bytes { bytes: [] } }, Answered { id: 6, result: Bytes { bytes: [] } }, Answered { id: 7, result: Bytes { bytes: [] } }, Answered { id: 8, result: Bytes { bytes: [] } }] }] }), entries: [] }) }
17 00 00000000 0000000000000001 00000000 00000001 01 ffffffff ffffffffffffffff 0280 ff*640 = Peer { sender: 0, view: View { leader: 0, session: 1 }, body: SyncPrepare(Log { sync_point: 0, checkpoint: None, entries: [Req(Request { client: 4294967295, id: 18446744073709551615, op: Op { bytes: [255, 255..
11 00 00000000 0000000000000001 ffffffff ffffffff ffffffffffffffff 0280 ff*640 = Peer { sender: 0, view: View { leader: 0, session: 1 }, body: Found(4294967295, Request { client: 4294967295, id: 18446744073709551615, op: Op { bytes: [255, 255..
15 06 ffffffff ffffffffffffffff ffffffff ffffffffffffffff 0001000000000000 ffffefff 00000002 ffff 00000001 ffffffff ffffffffffffffff 01 ffffffffffffffff 0101 ff*257 00001000 01ffffffffffffffffffffffff0000*4096 = Peer { sender: 6, view: View { leader: 4294967295, session: 18446744073709551615 }, body: ViewChange { last_normal: View { leader: 4294967295, session: 18446744073709551615 }, next: 281474976710656, log: Log { sync_point: 4294963199, checkpoint: Some(Checkpoint { host: Bytes { bytes: [255, 255] }, clients: [SavedClient { client: 4294967295, greatest: 18446744073709551615, kept: [Answered { id: 18446744073709551615, result: Bytes { bytes: [255, 255..";

/// Bytes, and the first test that they fail: no bytes, other kinds, a sender of 7, a session of 0,
/// a slot of 0, a next number of 2^48 + 1, bytes that are missing within a sync point and after
/// one, 4,097 entries, a tag of 2, an op of 641 bytes, and bytes that are missing or too many. The
/// last ones are of checkpoints: a host of 1,400,001 bytes, one of which a byte is missing, 257
/// clients, a client that is not there, one that comes twice, two that descend, a result of 258
/// bytes, one that is missing, no count of entries, an entry more than the greatest length allows,
/// and a checkpoint behind a sync point of 0. Then of a client's results: a greatest id of 0, no
/// count, a count of 0 and of 9, ids of 0, eight behind the greatest, equal to the one before and
/// above the greatest, a last one that is not the greatest, and what comes after the greatest: an
/// id, nothing, and an id after the greatest of 64 bits.
const REFUSALS: &str = "\
= Short
0f = Kind
1a = Kind
10 = Short
10 07 = Field
10 01 00000000 00000000000001 = Short
10 01 00000000 0000000000000000 = Field
15 02 00000001 0000000000000001 00000000 0000000000000000 = Field
10 01 00000000 0000000000000001 0000 = Short
10 01 00000000 0000000000000001 00000000 = Field
10 01 00000000 0000000000000001 00000001 00 = Trailing
16 01 00000001 0000000000000001 0001000000000001 00000000 = Field
17 00 00000000 0000000000000001 000000 = Short
16 01 00000001 0000000000000001 0000000000000003 0000 = Short
17 00 00000000 0000000000000001 ffffffff = Short
17 00 00000000 0000000000000001 00000000 00001001 = Field
17 00 00000000 0000000000000001 00000000 00000001 = Short
17 00 00000000 0000000000000001 00000000 00000001 02 = Field
17 00 00000000 0000000000000001 00000000 00000001 01 00000000 0000000000000001 0281 = Field
11 00 00000000 0000000000000001 00000001 00000000 0000000000000001 0281 ff*641 = Field
11 00 00000000 0000000000000001 00000001 00000000 0000000000000001 0280 ff*641 = Trailing
11 00 00000000 0000000000000001 00000001 00000000 0000000000000001 0280 ff*639 = Short
17 00 00000000 0000000000000001 00000001 00155cc1 = Field
17 00 00000000 0000000000000001 00000001 00000002 00 = Short
17 00 00000000 0000000000000001 00000001 00000000 00000101 = Field
17 00 00000000 0000000000000001 00000001 00000000 00000001 0000 = Short
17 00 00000000 0000000000000001 00000002 00000000 00000002 00000001 0000000000000001 01 0000000000000001 0000 00000001 = Field
17 00 00000000 0000000000000001 00000002 00000000 00000002 00000001 0000000000000001 01 0000000000000001 0000 00000000 = Field
17 00 00000000 0000000000000001 00000001 00000000 00000001 00000000 0000000000000001 01 0000000000000001 0102 = Field
17 00 00000000 0000000000000001 00000001 00000000 00000001 00000000 0000000000000001 01 0000000000000001 0001 = Short
17 00 00000000 0000000000000001 00000001 00000000 00000000 = Short
17 00 00000000 0000000000000001 ffffffff 00000000 00000000 00000001 = Field
17 00 00000000 0000000000000001 fffff000 00000000 00000000 00001000 = Field
17 00 00000000 0000000000000001 00000000 00000000 00000000 00000000 = Trailing
17 00 00000000 0000000000000001 00000001 00000000 00000001 00000000 0000000000000000 = Field
17 00 00000000 0000000000000001 00000001 00000000 00000001 00000000 0000000000000001 = Short
17 00 00000000 0000000000000001 00000001 00000000 00000001 00000000 0000000000000001 00 = Field
17 00 00000000 0000000000000001 00000001 00000000 00000001 00000000 0000000000000009 09 = Field
17 00 00000000 0000000000000001 00000001 00000000 00000001 00000000 0000000000000002 02 0000000000000000 = Field
17 00 00000000 0000000000000001 00000001 00000000 00000001 00000000 0000000000000009 02 0000000000000001 = Field
17 00 00000000 0000000000000001 00000001 00000000 00000001 00000000 0000000000000003 03 0000000000000001 0000 0000000000000001 = Field
17 00 00000000 0000000000000001 00000001 00000000 00000001 00000000 0000000000000002 02 0000000000000003 = Field
17 00 00000000 0000000000000001 00000001 00000000 00000001 00000000 0000000000000002 01 0000000000000001 = Field
17 00 00000000 0000000000000001 00000001 00000000 00000001 00000000 0000000000000002 03 0000000000000002 0000 0000000000000002 = Field
17 00 00000000 0000000000000001 00000001 00000000 00000001 00000000 0000000000000002 03 0000000000000002 0000 = Short
17 00 00000000 0000000000000001 00000001 00000000 00000001 00000000 ffffffffffffffff 02 ffffffffffffffff 0000 ffffffffffffffff = Field";

/// Whether a message is written as these bytes.
fn is_spelled(rt: &impl Abort, alloc: Global, message: &Peer, bytes: &[u8]) -> bool
    requires { PeerFits message.now }
{
    let mut to = Vec::new(alloc);
    encode_peer(alloc, message, &mut to).expect(rt, "memory");
    to.as_slice() == bytes
}

/// What the bytes spell, or the test that they fail. What is spelled is written as the same bytes.
fn shown(rt: &impl Abort, alloc: Global, bytes: &[u8]) -> String {
    let is_read = read_peer(alloc, bytes).expect(rt, "memory").is_some();
    match decode_peer(alloc, bytes) {
        Err(bad) => {
            check(rt, !is_read, "refused");
            text(rt, alloc, &bad)
        }
        Ok(message) => {
            let is_same = is_spelled(rt, alloc, &message, bytes);
            check(rt, is_read && is_same, "spelled");
            text(rt, alloc, &message)
        }
    }
}

/// Rows of messages between replicas, or of datagrams.
fn check_rows(rt: &impl Abort, alloc: Global, of_peers: bool, rows: &str) {
    for row in rows.lines() {
        let (bytes, expected) = row.split_once("= ").expect(rt, "a row");
        let bytes = bytes_of(rt, alloc, bytes);
        let given = if of_peers {
            shown(rt, alloc, &bytes)
        } else {
            datagrams::shown(rt, alloc, &bytes)
        };
        check(rt, is_expected(&given, expected), row);
    }
}

#[test]
fn rows(rt: HostRuntime) {
    check_rows(&rt, rt.alloc(), false, datagrams::EXAMPLES);
    check_rows(&rt, rt.alloc(), false, datagrams::LIMITS);
    check_rows(&rt, rt.alloc(), false, datagrams::REFUSALS);
    check_rows(&rt, rt.alloc(), true, EXAMPLES);
    check_rows(&rt, rt.alloc(), true, REFUSALS);
}

/// The entries of a log of two NO-OPs, which messages borrow.
const NO_OPS: [Entry; 2] = [Entry::NoOp, Entry::NoOp];

const FIRST: View = View {
    leader: 0,
    session: 1,
};

const SECOND: View = View {
    leader: 1,
    session: 1,
};

/// A checkpoint of a host's state of two bytes and a client.
fn saved(rt: &impl Abort, alloc: Global) -> Checkpoint
    ensures { CheckpointFits result }
{
    let result = Bytes::new(alloc, b"=v").expect(rt, "memory");
    let kept = vec![in alloc; Answered { id: 2, result }].expect(rt, "memory");
    let client = SavedClient {
        client: 7,
        greatest: 2,
        kept,
    };
    let host = Bytes::new(alloc, b"kv").expect(rt, "memory");
    let clients = vec![in alloc; client].expect(rt, "memory");
    let checkpoint = Checkpoint::new(host, clients).expect(rt, "within the limits");
    let _host = checkpoint.host();
    checkpoint
}

const CHANGE: &str =
    "15 02 00000001 0000000000000001 00000000 0000000000000001 0000000000000003 00000001 00000002 6b76 00000001 00000007 0000000000000002 01 0000000000000002 0002 3d76 00000002 00 00";

/// A ViewChange of replica 2, whose log borrows.
fn change(rt: &impl Abort, alloc: Global, checkpoint: &Checkpoint) -> EncodedPeer
    requires { CheckpointFits checkpoint.now }
{
    let log = LogRef {
        sync_point: 1,
        checkpoint: Some(checkpoint),
        entries: &NO_OPS,
    };
    let body = LogBody::ViewChange {
        last_normal: FIRST,
        next: 3,
        log,
    };
    EncodedPeer::with_log(alloc, 2, SECOND, body).expect(rt, "memory")
}

#[test]
fn spells_a_borrowed_log(rt: HostRuntime) {
    let checkpoint = saved(&rt, rt.alloc());
    let change = change(&rt, rt.alloc(), &checkpoint);
    check(&rt, change.sender() == 2, "its sender");
    let bytes = bytes_of(&rt, rt.alloc(), CHANGE);
    check(&rt, change.as_slice() == bytes.as_slice(), "its bytes");
}

/// Appends a SyncPrepare of replica 0, whose log borrows.
fn append_log(rt: &impl Abort, alloc: Global, to: &mut Vec<u8>) {
    let log = LogRef {
        sync_point: 0,
        checkpoint: None,
        entries: &NO_OPS,
    };
    encode_with_log(alloc, 0, FIRST, LogBody::SyncPrepare(log), to).expect(rt, "memory");
}

#[test]
fn appends_a_borrowed_log(rt: HostRuntime) {
    let mut to = Vec::new(rt.alloc());
    put(&rt, b"before", &mut to);
    append_log(&rt, rt.alloc(), &mut to);
    let bytes = b"before\x17\0\0\0\0\0\0\0\0\0\0\0\0\x01\0\0\0\0\0\0\0\x02\0\0";
    check(&rt, to.as_slice() == bytes.as_slice(), "appended");
}

/// The parts of a ViewChange with the greatest log: all fields before its host's state, its clients
/// without their numbers, and its entries.
const BEFORE_HOST: &str =
    "15 06 ffffffff ffffffffffffffff ffffffff ffffffffffffffff 0001000000000000 ffffefff 00155cc0";

const OF_CLIENT: &str =
    "ffffffffffffffff 08 fffffffffffffff8 0101 ff*257 fffffffffffffff9 0101 ff*257 fffffffffffffffa 0101 ff*257 fffffffffffffffb 0101 ff*257 fffffffffffffffc 0101 ff*257 fffffffffffffffd 0101 ff*257 fffffffffffffffe 0101 ff*257 ffffffffffffffff 0101 ff*257";

const OF_ENTRY: &str = "01 ffffffff ffffffffffffffff 0280 ff*640";

/// The clients of the longest message, each with eight results.
fn put_clients(rt: &impl Abort, alloc: Global, to: &mut Vec<u8>) {
    put(rt, b"\0\0\x01\0", to);
    let of_client = bytes_of(rt, alloc, OF_CLIENT);
    check(rt, of_client.len() == 2145, "a client");
    for client in 0..256u32 {
        put(rt, &client.to_be_bytes(), to);
        put(rt, &of_client, to);
    }
}

/// The longest message. Its clients have 550,148 bytes.
fn longest(rt: &impl Abort, alloc: Global) -> Vec<u8> {
    let mut to = bytes_of(rt, alloc, BEFORE_HOST);
    put_times(rt, b"h", 1_400_000, &mut to);
    let before = to.len();
    put_clients(rt, alloc, &mut to);
    check(rt, to.len().saturating_sub(before) == 550_148, "clients");
    put(rt, b"\0\0\x10\0", &mut to);
    put_times(rt, &bytes_of(rt, alloc, OF_ENTRY), 4096, &mut to);
    to
}

/// Whether the bytes are a message that is written as them.
fn is_whole(rt: &impl Abort, alloc: Global, bytes: &[u8]) -> bool {
    match decode_peer(alloc, bytes) {
        Ok(message) => is_spelled(rt, alloc, &message, bytes),
        Err(_) => false,
    }
}

#[test]
fn longest_message(rt: HostRuntime) {
    let bytes = longest(&rt, rt.alloc());
    check(&rt, bytes.len() == 4_633_074, "its length");
    check(&rt, is_whole(&rt, rt.alloc(), &bytes), "a message");
    check_cut(&rt, rt.alloc(), &bytes, 3310, 491);
}
