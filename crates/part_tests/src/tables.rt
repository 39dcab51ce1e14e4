//! What is kept for each client, and what a checkpoint may have of it.
ghost use Rattle.std.specs.Prelude.{◌≡◌, ◌&&◌};
ghost use Rattle.nop_types.specs.declared.limits.TheConstants.{WINDOW};
ghost use Rattle.nop_types.specs.Tables.{is_new_to, kept_for, serves};

use crate::checking::{check, check_clients, check_row};
use crate::requests::request;
use client_table::{ClientTable, Judged};
use nop_types::{Answered, Bytes, Checkpoint, SavedClient};
use std::alloc::Global;
use std::process::Abort;

fn is_fresh(table: &ClientTable, client: u32, id: u64) -> bool {
    matches!(table.judge(client, id), Judged::Fresh)
}

fn is_stale(table: &ClientTable, client: u32, id: u64) -> bool {
    matches!(table.judge(client, id), Judged::Stale)
}

/// The table takes a request of the client with this id.
fn takes(rt: &impl Abort, alloc: Global, table: &ClientTable, client: u32, id: u64) -> bool
    ensures { result ≡ (serves table.now client
        && is_new_to WINDOW (kept_for table.now client) id) }
{
    table.takes(&request(rt, alloc, client, id, b"x"))
}

/// An answer that tells its client and its id.
fn answer_to(rt: &impl Abort, alloc: Global, client: u32, id: u64) -> Bytes {
    let mut answer = Vec::from_slice(alloc, &client.to_be_bytes()).expect(rt, "memory");
    answer
        .extend_from_slice(&id.to_be_bytes())
        .expect(rt, "memory");
    Bytes::from_vec(answer)
}

/// Keeps the answer to a request of the client that the table takes.
fn keep(rt: &impl Abort, alloc: Global, table: &mut ClientTable, client: u32, id: u64) {
    check(rt, takes(rt, alloc, table, client, id), "it is taken");
    let answer = answer_to(rt, alloc, client, id);
    table.keep(client, id, answer).expect(rt, "memory");
}

/// The table has this answer to the request.
fn has_answer(table: &ClientTable, client: u32, id: u64, expected: &[u8]) -> bool {
    match table.judge(client, id) {
        Judged::Same(answer) => answer.as_slice() == expected,
        _ => false,
    }
}

/// A client and an id, where the greatest id of client 7 is 15 and has its answer: whether it is
/// new, and whether it is stale. Ids from 8 on are new, but for 15.
static VERDICTS: [(u32, u64, bool, bool); 8] = [
    (7, 7, false, true),
    (7, 1, false, true),
    (7, 8, true, false),
    (7, 14, true, false),
    (7, 15, false, false),
    (7, 16, true, false),
    (6, 15, true, false),
    (u32::MAX, u64::MAX, true, false),
];

/// Each verdict, and that the table takes what is new and nothing else.
fn check_verdicts(rt: &impl Abort, alloc: Global, table: &ClientTable) {
    for (row, (client, id, fresh, stale)) in VERDICTS.iter().enumerate() {
        check_row(rt, is_fresh(table, *client, *id) == *fresh, row);
        check_row(rt, is_stale(table, *client, *id) == *stale, row);
        let taken = takes(rt, alloc, table, *client, *id);
        check_row(rt, taken == *fresh, row);
    }
}

#[test]
fn last_answers(rt: HostRuntime) {
    let mut table = ClientTable::new(rt.alloc());
    check(&rt, is_fresh(&table, 7, 15), "15 is new");
    check(&rt, takes(&rt, rt.alloc(), &table, 7, 15), "15 is taken");
    let answer = Bytes::new(rt.alloc(), b"=v").expect(&rt, "memory");
    table.keep(7, 15, answer).expect(&rt, "memory");
    check(&rt, has_answer(&table, 7, 15, b"=v"), "its answer");
    check_verdicts(&rt, rt.alloc(), &table);
}

/// Client 0 was given the ids 2 to 8, and then 9: with that one the id 1 is eight behind.
#[test]
fn ids_of_a_window(rt: HostRuntime) {
    let mut table = ClientTable::new(rt.alloc());
    for id in 2..9u64 {
        keep(&rt, rt.alloc(), &mut table, 0, id);
    }
    check(&rt, is_fresh(&table, 0, 1), "1 is new");
    keep(&rt, rt.alloc(), &mut table, 0, 9);
    check(&rt, is_stale(&table, 0, 1), "1 is stale");
    check(&rt, is_fresh(&table, 0, 10), "10 is new");
    let expected = b"\0\0\0\0\0\0\0\0\0\0\0\x02";
    check(&rt, has_answer(&table, 0, 2, expected), "the answer to 2");
}

/// A table in which clients 0 to 254 have an id, and client 0 another one.
fn clients_but_one(rt: &impl Abort, alloc: Global) -> ClientTable {
    let mut table = ClientTable::new(alloc);
    for client in 0..255u32 {
        keep(rt, alloc, &mut table, client, 1);
    }
    keep(rt, alloc, &mut table, 0, 2);
    table
}

/// A client, and whether it is served where clients 0 to 254 and the last one are in the table.
static SERVED: [(u32, bool); 5] = [
    (0, true),
    (254, true),
    (u32::MAX, true),
    (255, false),
    (256, false),
];

/// With 256 clients in the table each of them is served, and no other one: a request with the
/// greatest id, which no client has, is taken.
#[test]
fn as_many_clients_as_are_served(rt: HostRuntime) {
    let mut table = clients_but_one(&rt, rt.alloc());
    let is_served = takes(&rt, rt.alloc(), &table, 255, u64::MAX);
    check(&rt, is_served, "255 is served");
    let is_served = takes(&rt, rt.alloc(), &table, u32::MAX, u64::MAX);
    check(&rt, is_served, "so is the last");
    keep(&rt, rt.alloc(), &mut table, u32::MAX, 1);
    for (row, (client, expected)) in SERVED.iter().enumerate() {
        let is_served = takes(&rt, rt.alloc(), &table, *client, u64::MAX);
        check_row(&rt, is_served == *expected, row);
    }
    check(&rt, is_fresh(&table, 255, 1), "an id of 255 is new");
}

/// A client with an id, as they were kept. The id 12 drives 3 and 4 out, and 11 is kept before it.
static KEPT: [(u32, u64); 7] = [
    (9, 3),
    (u32::MAX, u64::MAX),
    (0, 1),
    (9, 4),
    (9, 12),
    (9, 5),
    (9, 11),
];

/// The clients of that table as they are saved, each with its greatest id and its ids with their
/// answers.
const SAVED: &str =
    "[SavedClient { client: 0, greatest: 1, kept: [Answered { id: 1, result: Bytes { bytes: [0, 0, 0, 0, 0, 0, 0, 0, 0, 0, 0, 1] } }] }, SavedClient { client: 9, greatest: 12, kept: [Answered { id: 5, result: Bytes { bytes: [0, 0, 0, 9, 0, 0, 0, 0, 0, 0, 0, 5] } }, Answered { id: 11, result: Bytes { bytes: [0, 0, 0, 9, 0, 0, 0, 0, 0, 0, 0, 11] } }, Answered { id: 12, result: Bytes { bytes: [0, 0, 0, 9, 0, 0, 0, 0, 0, 0, 0, 12] } }] }, SavedClient { client: 4294967295, greatest: 18446744073709551615, kept: [Answered { id: 18446744073709551615, result: Bytes { bytes: [255, 255, 255, 255, 255, 255, 255, 255, 255, 255, 255, 255] } }] }]";

/// The table that the clients and ids above lead to.
fn kept_table(rt: &impl Abort, alloc: Global) -> ClientTable {
    let mut table = ClientTable::new(alloc);
    for (client, id) in &KEPT {
        keep(rt, alloc, &mut table, *client, *id);
    }
    table
}

/// The table that is loaded from a checkpoint which has these clients.
fn loaded_from(rt: &impl Abort, alloc: Global, clients: Vec<SavedClient>) -> ClientTable {
    let host = Bytes::new(alloc, b"").expect(rt, "memory");
    let checkpoint = Checkpoint::new(host, clients).expect(rt, "a checkpoint");
    let (_host, clients) = checkpoint.into_parts();
    ClientTable::load(alloc, clients).expect(rt, "memory")
}

fn check_loaded(rt: &impl Abort, table: &ClientTable) {
    check(
        rt,
        matches!(table.judge(9, 5), Judged::Same(_)),
        "5 has an answer",
    );
    check(rt, is_fresh(table, 9, 6), "6 is new");
    check(rt, is_stale(table, 9, 4), "4 is stale");
    check(rt, is_fresh(table, 1, 1), "client 1 is new");
}

#[test]
fn a_table_is_saved_and_loaded(rt: HostRuntime) {
    let table = kept_table(&rt, rt.alloc());
    let clients = table.saved(rt.alloc()).expect(&rt, "memory");
    check_clients(&rt, rt.alloc(), &clients, SAVED);
    let loaded = loaded_from(&rt, rt.alloc(), clients);
    check_loaded(&rt, &loaded);
    let again = loaded.saved(rt.alloc()).expect(&rt, "memory");
    check_clients(&rt, rt.alloc(), &again, SAVED);
}

/// A client whose greatest id is told, with results of some ids.
fn saved(rt: &impl Abort, alloc: Global, client: u32, greatest: u64, ids: &[u64]) -> SavedClient {
    let mut kept = Vec::new(alloc);
    for id in ids {
        let result = Bytes::new(alloc, b"none").expect(rt, "memory");
        kept.push(Answered { id: *id, result }).expect(rt, "memory");
    }
    SavedClient {
        client,
        greatest,
        kept,
    }
}

/// How long a host's state is, the numbers of the clients, the greatest id of each and the ids of
/// its results, and whether a checkpoint may have all that. Numbers ascend; ids ascend up to the
/// greatest one from 1 on, less than eight behind.
type Made = (usize, &'static [u32], u64, &'static [u64], bool);

static CHECKPOINTS: [Made; 20] = [
    (0, &[], 1, &[1], true),
    (1_400_000, &[0, 1, u32::MAX], 1, &[1], true),
    (1_400_001, &[], 1, &[1], false),
    (0, &[3, 3], 1, &[1], false),
    (0, &[3, 2], 1, &[1], false),
    (0, &[0], 1, &[1], true),
    (0, &[7], 1, &[1], true),
    (0, &[7], 8, &[1, 2, 3, 4, 5, 6, 7, 8], true),
    (0, &[7], 9, &[2, 9], true),
    (0, &[7], u64::MAX, &[u64::MAX - 7, u64::MAX], true),
    (0, &[7], 0, &[], false),
    (0, &[7], 0, &[0], false),
    (0, &[7], 1, &[], false),
    (0, &[7], 1, &[0, 1], false),
    (0, &[7], 9, &[1, 9], false),
    (0, &[7], 9, &[9, 8], false),
    (0, &[7], 9, &[8, 8, 9], false),
    (0, &[7], 9, &[8], false),
    (0, &[7], 9, &[9, 10], false),
    (0, &[7], u64::MAX, &[u64::MAX, u64::MAX], false),
];

/// Whether a checkpoint of the row is made.
fn is_made(rt: &impl Abort, alloc: Global, row: &Made) -> bool {
    let (len, numbers, greatest, ids, _expected) = row;
    let mut clients = Vec::new(alloc);
    for number in *numbers {
        let client = saved(rt, alloc, *number, *greatest, ids);
        clients.push(client).expect(rt, "memory");
    }
    let bytes = vec![in alloc; 7u8; *len].expect(rt, "memory");
    Checkpoint::new(Bytes::from_vec(bytes), clients).is_some()
}

#[test]
fn what_is_no_checkpoint(rt: HostRuntime) {
    for (number, row) in CHECKPOINTS.iter().enumerate() {
        check_row(&rt, is_made(&rt, rt.alloc(), row) == row.4, number);
    }
}
