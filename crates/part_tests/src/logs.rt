//! Logs of replicas: their entries, sync points and checkpoints, other logs that they take, and
//! lookups of slots.
use crate::checking::{check, check_row};
use crate::requests::request;
use nop_types::{Bytes, Checkpoint, Entry, Log, LogRef, MAX_SLOTS, Request};
use replica_log::{Answer, ReplicaLog, answer};
use std::alloc::Global;
use std::process::Abort;

/// A request with this id, or a NO-OP for 0.
fn entry(rt: &impl Abort, alloc: Global, id: u64) -> Entry {
    if id == 0 {
        return Entry::NoOp;
    }
    Entry::Req(request(rt, alloc, 7, id, b"op"))
}

/// A sync point, the name of the checkpoint that stands there (0 for none), and the ids of the
/// entries above it.
pub type Ids = (u32, u8, &'static [u64]);

/// A checkpoint without clients, with its name as the host's bytes.
fn checkpoint(rt: &impl Abort, alloc: Global, name: u8) -> Option<Checkpoint> {
    if name == 0 {
        return None;
    }
    let host = Bytes::new(alloc, &[name]).expect(rt, "memory");
    Checkpoint::new(host, Vec::new(alloc))
}

/// A log with this sync point, this checkpoint and these entries.
pub fn log_of(rt: &impl Abort, alloc: Global, expected: Ids) -> Log {
    let (sync_point, name, ids) = expected;
    let mut entries = Vec::new(alloc);
    for id in ids {
        let entry = entry(rt, alloc, *id);
        entries.push(entry).expect(rt, "memory");
    }
    assert!(rt; entries.len() <= MAX_SLOTS);
    assert!(rt; sync_point <= 10_000);
    Log::new(sync_point, checkpoint(rt, alloc, name), entries)
}

fn is_entry(entry: &Entry, id: u64) -> bool {
    match entry {
        Entry::NoOp => id == 0,
        Entry::Req(request) => request.id == id,
    }
}

/// The entries have these ids, 0 for a NO-OP.
pub fn is_log(entries: &[Entry], ids: &[u64]) -> bool {
    if entries.len() != ids.len() {
        return false;
    }
    for (entry, id) in entries.iter().zip(ids) {
        if !is_entry(entry, *id) {
            return false;
        }
    }
    true
}

/// The checkpoint has this name, 0 for none.
fn is_checkpoint(checkpoint: Option<&Checkpoint>, name: u8) -> bool {
    match checkpoint {
        Some(checkpoint) => checkpoint.host().as_slice() == [name].as_slice(),
        None => name == 0,
    }
}

/// The log has this sync point, this checkpoint and these entries.
pub fn is_expected(log: LogRef<'_>, expected: Ids) -> bool {
    log.sync_point == expected.0
        && is_checkpoint(log.checkpoint, expected.1)
        && is_log(log.entries, expected.2)
}

/// Lays another log over, and says how many slots are appended.
fn overlay(rt: &impl Abort, log: &mut ReplicaLog, other: Log) -> u32 {
    let before = log.len();
    log.overlay(other).expect(rt, "memory");
    log.len().saturating_sub(before)
}

/// A replica's log with this sync point, checkpoint and ids.
fn adopted(rt: &impl Abort, alloc: Global, expected: Ids) -> ReplicaLog {
    let mut log = ReplicaLog::new(alloc);
    log.adopt(log_of(rt, alloc, expected));
    log
}

/// A log of five slots, two of them synchronised, with a NO-OP in place of the request of slot 4.
fn log_of_five(rt: &impl Abort, alloc: Global) -> ReplicaLog {
    let mut log = adopted(rt, alloc, (2, 5, &[3, 4]));
    check(rt, log.has_room(), "room for one more");
    log.append(entry(rt, alloc, 6)).expect(rt, "memory");
    check(rt, log.len() == 5, "five slots");
    check(rt, log.sync_point() == 2, "two are synchronised");
    log.put_noop(4);
    log
}

/// Slots 3 and 4 are there, and none below or above the five.
fn has_slots(log: &ReplicaLog) -> bool {
    log.at(0).is_none()
        && log.at(2).is_none()
        && matches!(log.at(3), Some(Entry::Req(_)))
        && matches!(log.at(4), Some(Entry::NoOp))
        && log.at(6).is_none()
}

/// What is synchronised of the five slots, and their front.
fn has_fronts(log: &ReplicaLog) -> bool {
    log.sync_point() == 2
        && log.len() == 5
        && is_expected(log.first(2), (2, 5, &[]))
        && is_expected(log.first(4), (2, 5, &[3, 0]))
}

#[test]
fn entries(rt: HostRuntime) {
    let log = log_of_five(&rt, rt.alloc());
    check(&rt, has_slots(&log), "slots");
    check(&rt, has_fronts(&log), "fronts");
    let expected = (2, 5, [3, 0, 6].as_slice());
    check(&rt, is_expected(log.as_ref(), expected), "by reference");
    let copy = log.copy().expect(&rt, "memory");
    check(&rt, is_expected(copy.as_ref(), expected), "its copy");
    let new = ReplicaLog::new(rt.alloc());
    check(&rt, is_expected(new.as_ref(), (0, 0, &[])), "a new log");
    check(&rt, new.has_room(), "with room");
}

/// A sync point, the name of its checkpoint, the ids that are passed, and the ids that are kept.
type Rise = (u32, u8, &'static [u64], &'static [u64]);

/// The sync point rises from 2 on: to 4, to 4 with another checkpoint, and to the end.
static RISES: [Rise; 3] = [(4, 7, &[3, 0], &[6]), (4, 8, &[], &[6]), (5, 9, &[6], &[])];

/// Whether the sync point rises so, and the log stays as long as before.
fn rises(rt: &impl Abort, alloc: Global, log: &mut ReplicaLog, rise: &Rise) -> bool {
    let (slot, name, passed, kept) = *rise;
    let checkpoint = checkpoint(rt, alloc, name).expect(rt, "a checkpoint");
    assert!(rt; log.sync_point() <= slot && slot <= log.len());
    let out = log.raise(slot, checkpoint).expect(rt, "memory");
    is_expected(out.as_ref(), (0, 0, passed))
        && is_expected(log.as_ref(), (slot, name, kept))
        && log.len() == 5
}

#[test]
fn sync_points_rise(rt: HostRuntime) {
    let mut log = adopted(&rt, rt.alloc(), (2, 5, &[3, 0, 6]));
    for (row, rise) in RISES.iter().enumerate() {
        check_row(&rt, rises(&rt, rt.alloc(), &mut log, rise), row);
    }
}

/// An own log, another one, and what the own log is after the other was adopted, and after it was
/// laid over.
type Taking = (Ids, Ids, Ids, Ids);

/// The other sync point is smaller, or as great: the own checkpoint stays, and what stands above
/// the own sync point is taken. Then it is greater: the other log is taken whole; laid over, the
/// own entries above its end stay.
static TAKINGS: [Taking; 10] = [
    (
        (0, 0, &[1]),
        (0, 0, &[4, 5]),
        (0, 0, &[4, 5]),
        (0, 0, &[4, 5]),
    ),
    (
        (0, 0, &[1, 2, 3]),
        (0, 0, &[4, 0]),
        (0, 0, &[4, 0]),
        (0, 0, &[4, 0, 3]),
    ),
    (
        (1, 7, &[2, 3]),
        (0, 0, &[4, 0]),
        (1, 7, &[0]),
        (1, 7, &[0, 3]),
    ),
    ((2, 7, &[]), (0, 0, &[4, 5, 6]), (2, 7, &[6]), (2, 7, &[6])),
    ((2, 7, &[3]), (0, 0, &[4]), (2, 7, &[]), (2, 7, &[3])),
    (
        (2, 7, &[3]),
        (2, 8, &[6, 5]),
        (2, 7, &[6, 5]),
        (2, 7, &[6, 5]),
    ),
    ((3, 7, &[8]), (1, 8, &[2, 3]), (3, 7, &[]), (3, 7, &[8])),
    ((1, 7, &[2, 3]), (2, 8, &[]), (2, 8, &[]), (2, 8, &[3])),
    (
        (1, 7, &[2, 3, 4]),
        (3, 8, &[0, 6]),
        (3, 8, &[0, 6]),
        (3, 8, &[0, 6]),
    ),
    ((0, 0, &[1]), (4, 8, &[]), (4, 8, &[]), (4, 8, &[])),
];

/// Whether both calls take the other log so.
fn takes(rt: &impl Abort, alloc: Global, row: &Taking) -> bool {
    let mut log = adopted(rt, alloc, row.0);
    log.adopt(log_of(rt, alloc, row.1));
    let mut other = adopted(rt, alloc, row.0);
    overlay(rt, &mut other, log_of(rt, alloc, row.1));
    is_expected(log.as_ref(), row.2) && is_expected(other.as_ref(), row.3)
}

#[test]
fn takings(rt: HostRuntime) {
    for (number, row) in TAKINGS.iter().enumerate() {
        check_row(&rt, takes(&rt, rt.alloc(), row), number);
    }
}

fn name(answer: Answer<'_>) -> &'static str {
    match answer {
        Answer::Below => "below",
        Answer::Found(Request { id: 9, .. }) => "found",
        Answer::Found(_) => "found another",
        Answer::GapAgain => "gap again",
        Answer::Begin => "begin",
        Answer::Nothing => "nothing",
    }
}

/// The slot that is asked for, the answer with two slots that are synchronised and two above, and
/// the answer where votes for a gap are waited for.
static LOOKUPS: [(u32, &str, &str); 6] = [
    (0, "below", "below"),
    (2, "below", "below"),
    (3, "found", "found"),
    (4, "gap again", "gap again"),
    (5, "begin", "nothing"),
    (6, "nothing", "nothing"),
];

#[test]
fn lookups(rt: HostRuntime) {
    let log = adopted(&rt, rt.alloc(), (2, 5, &[9, 0]));
    for (row, (slot, first, second)) in LOOKUPS.iter().enumerate() {
        check_row(&rt, name(answer(&log, false, *slot)) == *first, row);
        check_row(&rt, name(answer(&log, true, *slot)) == *second, row);
    }
}

/// As many requests as a log keeps above its sync point, whose ids count from 1.
pub fn full(rt: &impl Abort, alloc: Global) -> Log {
    let mut entries = Vec::new(alloc);
    for id in 1..=MAX_SLOTS as u64 {
        let entry = entry(rt, alloc, id);
        entries.push(entry).expect(rt, "memory");
    }
    assert!(rt; entries.len() <= MAX_SLOTS);
    Log::new(0, None, entries)
}

/// A replica's log without room: all of it but the last slot was appended, and that one came with
/// another log.
pub fn full_log(rt: &impl Abort, alloc: Global) -> ReplicaLog {
    let mut log = ReplicaLog::new(alloc);
    for id in 1..MAX_SLOTS as u64 {
        check(rt, log.has_room(), "room");
        log.append(entry(rt, alloc, id)).expect(rt, "memory");
    }
    let other = full(rt, alloc);
    let added = overlay(rt, &mut log, other);
    check(rt, added == 1, "one slot is appended");
    log
}

/// The log ends with its last slot, which has the request of that id.
pub fn is_full(entries: &[Entry]) -> bool {
    entries.len() == MAX_SLOTS && is_log(&entries[MAX_SLOTS - 1..], &[MAX_SLOTS as u64])
}

/// A log that is full, and asked for a slot past its last one.
fn has_no_room(log: &ReplicaLog) -> bool {
    is_full(log.entries())
        && !log.has_room()
        && name(answer(log, false, MAX_SLOTS as u32 + 1)) == "nothing"
}

#[test]
fn full_logs(rt: HostRuntime) {
    let mut log = full_log(&rt, rt.alloc());
    check(&rt, has_no_room(&log), "full");
    let added = overlay(&rt, &mut log, full(&rt, rt.alloc()));
    check(&rt, added == 0, "no slot is appended");
    check(&rt, has_no_room(&log), "full as before");
    let copy = log.copy().expect(&rt, "memory");
    check(&rt, is_full(copy.entries()), "a copy");
    let copy = copy.try_clone().expect(&rt, "memory");
    check(&rt, is_full(copy.entries()), "a copy of it");
}
