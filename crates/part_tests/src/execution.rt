//! Logs that are executed, undone, and begun with a checkpoint.
ghost use Rattle.std.specs.Prelude.{◌≡◌};
ghost use Rattle.nop_types.specs.Logs.{Trimmed, length_of};
ghost use Rattle.nop_types.specs.Ranges.{EntryFits, LogFits};
ghost use Rattle.executor.specs.Running.{reached};
ghost use Rattle.executor.specs.Undoing.{HasExecuted};

use crate::checking::{check, check_clients, check_row};
use crate::logs::full_log;
use crate::requests::{is_expected, request};
use executor::{Executor, checkpoint_loads};
use kv_host::KvHost;
use nop_types::{Bytes, Checkpoint, Entry, Host, MAX_SLOTS};
use replica_log::ReplicaLog;
use std::alloc::Global;
use std::process::Abort;

/// The entries of a log: a client, an id and an op, or a NO-OP for the id 0.
static SLOTS: [(u32, u64, &[u8]); 9] = [
    (0, 0, b""),
    (1, 10, b"P\0\x01k\0\x01v"),
    (1, 3, b"G\0\x01k"),
    (1, 10, b"P\0\x01k\0\x01v"),
    (1, 2, b"D\0\x01k"),
    (2, 1, b"G\0\x01k"),
    (3, 1, b"D\0\x01k"),
    (4, 1, b"G\0\x01k"),
    (u32::MAX, u64::MAX, b""),
];

/// The answers that are kept: an id eight behind the greatest one of its client has none, and one
/// that did not come.
static RESULTS: [(u32, u64, Option<&[u8]>); 9] = [
    (1, 10, Some(b"none")),
    (1, 3, Some(b"=v")),
    (1, 2, None),
    (1, 11, None),
    (2, 1, Some(b"=v")),
    (3, 1, Some(b"=v")),
    (4, 1, Some(b"none")),
    (u32::MAX, u64::MAX, Some(b"bad")),
    (0, 0, None),
];

fn entry(rt: &impl Abort, alloc: Global, client: u32, id: u64, op: &[u8]) -> Entry
    ensures { EntryFits result }
{
    if id == 0 {
        return Entry::NoOp;
    }
    Entry::Req(request(rt, alloc, client, id, op))
}

/// Appends a request, or a NO-OP for the id 0.
fn append(rt: &impl Abort, alloc: Global, log: &mut ReplicaLog, client: u32, id: u64, op: &[u8])
    requires { LogFits log.old }
    ensures { LogFits log.new }
{
    assert!(rt; log.has_room());
    log.append(entry(rt, alloc, client, id, op))
        .expect(rt, "memory");
}

fn log_of_slots(rt: &impl Abort, alloc: Global) -> ReplicaLog
    ensures { LogFits result }
{
    let mut log = ReplicaLog::new(alloc);
    for (client, id, op) in &SLOTS {
        append(rt, alloc, &mut log, *client, *id, op);
    }
    log
}

/// Executes a log without a checkpoint up to a slot.
fn started<H: Host>(rt: &impl Abort, alloc: Global, log: &ReplicaLog, slot: u32) -> Executor<H>
    ensures point { log.now.sync_point ≡ 0 }
    ensures reached { reached result ≡ slot }
    ensures run { HasExecuted H.state H.meaning H.undo_of log.now result }
{
    assert!(rt; log.sync_point() == 0 && log.checkpoint().is_none() && slot <= log.len());
    let mut executor: Executor<H> = Executor::new(alloc).expect(rt, "memory");
    executor.run_to(log, slot).expect(rt, "memory");
    executor
}

/// The executor has this result of a request, or none.
fn has_result<H: Host>(
    executor: &Executor<H>,
    client: u32,
    id: u64,
    expected: Option<&[u8]>,
) -> bool {
    is_expected(executor.result(client, id), expected)
}

/// Executes a log without a checkpoint, undoes it down to slot 1, and executes it again.
fn executed_again<H: Host>(rt: &impl Abort, alloc: Global, log: &ReplicaLog) -> Executor<H>
    ensures { HasExecuted H.state H.meaning H.undo_of log.now result }
{
    let mut executor: Executor<H> = started(rt, alloc, log, log.len());
    assert!(rt; executor.reached() >= 1);
    executor.rewind(log, 1);
    check(
        rt,
        has_result(&executor, 2, 1, None),
        "no result of client 2",
    );
    executor.run_to(log, log.len()).expect(rt, "memory");
    executor
}

fn check_answers<H: Host>(rt: &impl Abort, executor: &Executor<H>) {
    for (row, (client, id, expected)) in RESULTS.iter().enumerate() {
        check_row(rt, has_result(executor, *client, *id, *expected), row);
    }
}

fn check_results<H: Host>(rt: &impl Abort, alloc: Global) {
    let log = log_of_slots(rt, alloc);
    let executor: Executor<H> = executed_again(rt, alloc, &log);
    check_answers(rt, &executor);
}

/// A full log is executed at once, undone down to slot 1, and executed again; each op of it is no
/// op of the service.
fn check_full<H: Host>(rt: &impl Abort, alloc: Global) {
    let log = full_log(rt, alloc);
    let executor: Executor<H> = executed_again(rt, alloc, &log);
    check(rt, executor.reached() == log.len(), "the whole log");
    let last = has_result(&executor, 7, MAX_SLOTS as u64, Some(b"bad"));
    check(rt, last, "the last answer");
}

/// The log begins with the checkpoint of what is executed.
fn trim<H: Host>(rt: &impl Abort, log: &mut ReplicaLog, executor: &mut Executor<H>)
    requires fits { LogFits log.old }
    requires run { HasExecuted H.state H.meaning H.undo_of log.old executor.old }
    ensures run { HasExecuted H.state H.meaning H.undo_of log.new executor.new }
    ensures point { log.new.sync_point ≡ reached executor.new }
{
    let slot = executor.reached();
    let checkpoint = executor.checkpoint().expect(rt, "memory");
    let _passed = log.raise(slot, checkpoint).expect(rt, "memory");
    executor.rebase();
}

/// A client's ids in the order in which they come, each a get of a key that is not there. The last
/// one leaves all others behind.
static IN_ONE_WINDOW: [u64; 9] = [3, 1, 8, 2, 7, 4, 6, 5, 16];

/// Whether the first of these ids have a result, and no others.
fn have_results<H: Host>(executor: &Executor<H>, count: usize) -> bool {
    for (place, id) in IN_ONE_WINDOW.iter().enumerate() {
        let expected: Option<&[u8]> = if place < count { Some(b"none") } else { None };
        if !has_result(executor, 7, *id, expected) {
            return false;
        }
    }
    true
}

fn log_of_one_window(rt: &impl Abort, alloc: Global) -> ReplicaLog {
    let mut log = ReplicaLog::new(alloc);
    for id in &IN_ONE_WINDOW {
        assert!(rt; log.has_room());
        log.append(entry(rt, alloc, 7, *id, b"G\0\x01k"))
            .expect(rt, "memory");
    }
    log
}

/// Results that left the window come back where what drove them out is undone.
fn check_one_window<H: Host>(rt: &impl Abort, alloc: Global) {
    let log = log_of_one_window(rt, alloc);
    check(rt, log.len() == 9, "nine slots");
    let mut executor: Executor<H> = started(rt, alloc, &log, 9);
    check(rt, has_result(&executor, 7, 8, None), "8 left the window");
    check(rt, has_result(&executor, 7, 16, Some(b"none")), "16 came");
    executor.rewind(&log, 8);
    check(rt, have_results(&executor, 8), "the first eight");
    executor.rewind(&log, 3);
    check(rt, have_results(&executor, 3), "the first three");
}

/// After a get of each of the clients 0 to 255: a client, an id and an op, and the answer to it in
/// the end.
static AFTER_THE_FIRST: [(u32, u64, &[u8], Option<&[u8]>); 9] = [
    (256, 1, b"P\0\x01k\0\x01v", None),
    (0, 2, b"G\0\x01k", Some(b"none")),
    (256, 2, b"P\0\x01k\0\x01v", None),
    (255, 2, b"P\0\x01k\0\x01w", Some(b"none")),
    (u32::MAX, u64::MAX, b"D\0\x01k", None),
    (255, 2, b"P\0\x01k\0\x01w", Some(b"none")),
    (1, 2, b"G\0\x01k", Some(b"=w")),
    (256, 3, b"D\0\x01k", None),
    (3, 2, b"G\0\x01k", Some(b"=w")),
];

fn log_of_many_clients(rt: &impl Abort, alloc: Global) -> ReplicaLog
    ensures { LogFits result }
{
    let mut log = ReplicaLog::new(alloc);
    for client in 0..256u32 {
        append(rt, alloc, &mut log, client, 1, b"G\0\x01k");
    }
    for (client, id, op, _answer) in &AFTER_THE_FIRST {
        append(rt, alloc, &mut log, *client, *id, op);
    }
    log
}

fn check_after_the_first<H: Host>(rt: &impl Abort, executor: &Executor<H>) {
    for (row, (client, id, _op, expected)) in AFTER_THE_FIRST.iter().enumerate() {
        check_row(rt, has_result(executor, *client, *id, *expected), row);
    }
    check(rt, has_result(executor, 2, 1, Some(b"none")), "client 2");
}

/// The log begins with a checkpoint of all 256 clients, from which it is executed.
fn check_from_there<H: Host>(
    rt: &impl Abort,
    alloc: Global,
    log: &ReplicaLog,
    executor: &mut Executor<H>,
) {
    let saved = log.checkpoint().expect(rt, "a checkpoint");
    check(rt, saved.clients().len() == 256, "all clients");
    assert!(rt; checkpoint_loads::<H>(alloc, Some(saved)).expect(rt, "memory"));
    executor.restart(log).expect(rt, "memory");
    assert!(rt; executor.reached() == 263 && log.len() == 265);
    executor.run_to(log, 265).expect(rt, "memory");
    check_after_the_first(rt, executor);
}

/// A request of the 257th client is not executed, nor is its next one; a served client's next one
/// is. So it is from a checkpoint on that has all 256 clients.
fn check_many_clients<H: Host>(rt: &impl Abort, alloc: Global) {
    let mut log = log_of_many_clients(rt, alloc);
    let mut executor: Executor<H> = executed_again(rt, alloc, &log);
    check_after_the_first(rt, &executor);
    assert!(rt; log.sync_point() == 0 && log.len() == 265 && executor.reached() == 265);
    executor.rewind(&log, 263);
    trim(rt, &mut log, &mut executor);
    check_from_there(rt, alloc, &log, &mut executor);
}

/// The clients that the checkpoint of the log above has, as their derive shows them.
const IN_THE_CHECKPOINT: &str =
    "[SavedClient { client: 1, greatest: 10, kept: [Answered { id: 3, result: Bytes { bytes: [61, 118] } }, Answered { id: 10, result: Bytes { bytes: [110, 111, 110, 101] } }] }, SavedClient { client: 2, greatest: 1, kept: [Answered { id: 1, result: Bytes { bytes: [61, 118] } }] }, SavedClient { client: 3, greatest: 1, kept: [Answered { id: 1, result: Bytes { bytes: [61, 118] } }] }, SavedClient { client: 4, greatest: 1, kept: [Answered { id: 1, result: Bytes { bytes: [110, 111, 110, 101] } }] }, SavedClient { client: 4294967295, greatest: 18446744073709551615, kept: [Answered { id: 18446744073709551615, result: Bytes { bytes: [98, 97, 100] } }] }]";

fn check_checkpoint<H: Host>(rt: &impl Abort, alloc: Global) {
    let log = log_of_slots(rt, alloc);
    let executor: Executor<H> = executed_again(rt, alloc, &log);
    let checkpoint = executor.checkpoint().expect(rt, "memory");
    check_clients(rt, alloc, checkpoint.clients(), IN_THE_CHECKPOINT);
}

/// At the checkpoint of slot 5, the rest of the log is executed and undone.
fn check_the_rest<H: Host>(rt: &impl Abort, log: &ReplicaLog, executor: &mut Executor<H>)
    requires run { HasExecuted H.state H.meaning H.undo_of log.now executor.old }
    ensures there { 9 ≡ length_of Trimmed log.now }
    ensures reached { reached executor.new ≡ 5 }
    ensures run { HasExecuted H.state H.meaning H.undo_of log.now executor.new }
{
    assert!(rt; log.sync_point() == 5 && log.len() == 9 && executor.reached() == 5);
    executor.run_to(log, 9).expect(rt, "memory");
    check_answers(rt, executor);
    executor.rewind(log, 5);
    check(rt, has_result(executor, 2, 1, None), "none of client 2");
    check(
        rt,
        has_result(executor, 1, 10, Some(b"none")),
        "of client 1",
    );
}

/// The log up to slot 5 is executed, and a checkpoint is in place of its entries. The rest is
/// executed, undone and executed again.
fn check_trimmed<H: Host>(rt: &impl Abort, alloc: Global) -> (ReplicaLog, Executor<H>)
    ensures { HasExecuted H.state H.meaning H.undo_of result.0 result.1 }
{
    let mut log = log_of_slots(rt, alloc);
    let mut executor: Executor<H> = started(rt, alloc, &log, 5);
    trim(rt, &mut log, &mut executor);
    check_the_rest(rt, &log, &mut executor);
    check(
        rt,
        has_result(&executor, 1, 3, Some(b"=v")),
        "an earlier id",
    );
    executor.run_to(&log, 9).expect(rt, "memory");
    check_answers(rt, &executor);
    (log, executor)
}

/// An executor that is anywhere begins anew with the checkpoint of the log, and has the same
/// answers.
fn check_restarted<H: Host>(rt: &impl Abort, alloc: Global) {
    let (log, mut executor) = check_trimmed::<H>(rt, alloc);
    let loads = checkpoint_loads::<H>(alloc, log.checkpoint()).expect(rt, "memory");
    assert!(rt; loads && log.checkpoint().is_some());
    executor.restart(&log).expect(rt, "memory");
    check(rt, has_result(&executor, 2, 1, None), "none of client 2");
    check(
        rt,
        has_result(&executor, 1, 10, Some(b"none")),
        "of client 1",
    );
    check_the_rest(rt, &log, &mut executor);
}

/// A checkpoint of this host's state, without clients, loads.
fn loads<H: Host>(rt: &impl Abort, alloc: Global, host: &[u8]) -> bool {
    let host = Bytes::new(alloc, host).expect(rt, "memory");
    let checkpoint = Checkpoint::new(host, Vec::new(alloc)).expect(rt, "a checkpoint");
    checkpoint_loads::<H>(alloc, Some(&checkpoint)).expect(rt, "memory")
}

/// No checkpoint loads, and so does that of no keys; without its count it does not.
fn check_what_loads<H: Host>(rt: &impl Abort, alloc: Global) {
    assert!(rt; checkpoint_loads::<H>(alloc, None).expect(rt, "memory"));
    check(rt, loads::<H>(rt, alloc, b"\0\0\0\0"), "no keys");
    check(rt, !loads::<H>(rt, alloc, b""), "no count");
}

#[test]
fn executions(rt: HostRuntime) {
    check_results::<KvHost>(&rt, rt.alloc());
    check_full::<KvHost>(&rt, rt.alloc());
    check_one_window::<KvHost>(&rt, rt.alloc());
    check_many_clients::<KvHost>(&rt, rt.alloc());
    check_checkpoint::<KvHost>(&rt, rt.alloc());
    check_restarted::<KvHost>(&rt, rt.alloc());
    check_what_loads::<KvHost>(&rt, rt.alloc());
}
