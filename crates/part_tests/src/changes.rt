//! Changes of views: how their logs are merged, and what a view starts with.
use crate::checking::{check, check_row};
use crate::logs::{Ids, full, is_expected, is_full, log_of};
use log_merge::merge_of_view;
use nop_types::{Change, Log, View};
use std::alloc::Global;
use std::process::Abort;
use view_change::{Changes, Start, Step};

/// The sessions of the second epoch are above this one.
const EPOCH: u64 = 4_294_967_296;

/// A change in numbers: its sender, leader and session of its last normal view, its next number,
/// and its log.
type Row = (u8, u32, u64, u64, Ids);

fn change(rt: &impl Abort, alloc: Global, row: &Row) -> Change {
    let (sender, leader, session, next, log) = *row;
    Change {
        sender,
        last_normal: View { leader, session },
        next,
        log: log_of(rt, alloc, log),
    }
}

/// Senders of changes with their logs, and the merge of the logs.
type Merge = (&'static [(u8, &'static [u64])], &'static [u64]);

static MERGES: [Merge; 6] = [
    (
        &[(1, &[1, 2]), (2, &[1, 0, 3]), (4, &[1, 2, 4, 5])],
        &[1, 0, 3, 5],
    ),
    (
        &[(4, &[1, 2, 4, 5]), (2, &[1, 0, 3]), (1, &[1, 2])],
        &[1, 0, 3, 5],
    ),
    (&[(1, &[0]), (2, &[6, 7]), (4, &[])], &[0, 7]),
    (
        &[(1, &[3, 3]), (2, &[2, 2, 2]), (4, &[1, 1, 1])],
        &[3, 3, 2],
    ),
    (
        &[(4, &[1, 1, 1]), (2, &[2, 2, 2]), (1, &[3, 3])],
        &[3, 3, 2],
    ),
    (&[(1, &[]), (2, &[]), (4, &[])], &[]),
];

/// Changes of one view.
fn changes_of(rt: &impl Abort, alloc: Global, row: &[(u8, &'static [u64])]) -> Vec<Change> {
    let mut changes = Vec::new(alloc);
    for (sender, log) in row {
        let change = change(rt, alloc, &(*sender, 0, 1, 1, (0, 0, *log)));
        changes.push(change).expect(rt, "memory");
    }
    changes
}

/// A change of another view, of which neither the sync point nor the entries count.
const OTHER: Row = (0, 1, 1, 1, (5, 9, &[0, 0, 0, 0, 0]));

const VIEW: View = View {
    leader: 0,
    session: 1,
};

/// The log of the changes of the view.
fn merged(rt: &impl Abort, alloc: Global, changes: &[Change]) -> Log {
    merge_of_view(alloc, changes, VIEW).expect(rt, "memory")
}

/// Adds the change of another view.
fn push_other(rt: &impl Abort, alloc: Global, changes: &mut Vec<Change>) {
    changes.push(change(rt, alloc, &OTHER)).expect(rt, "memory");
}

/// The log of the changes has these entries.
fn is_merged(rt: &impl Abort, alloc: Global, changes: &[Change], ids: &'static [u64]) -> bool {
    is_expected(merged(rt, alloc, changes).as_ref(), (0, 0, ids))
}

/// Whether the changes have that merge, alone and beside one of another view.
fn merges_to(rt: &impl Abort, alloc: Global, row: &Merge) -> bool {
    let mut changes = changes_of(rt, alloc, row.0);
    if !is_merged(rt, alloc, &changes, row.1) {
        return false;
    }
    push_other(rt, alloc, &mut changes);
    is_merged(rt, alloc, &changes, row.1)
}

#[test]
fn merges(rt: HostRuntime) {
    for (row, merge) in MERGES.iter().enumerate() {
        check_row(&rt, merges_to(&rt, rt.alloc(), merge), row);
    }
}

/// The leader, the session and the count of the others that the start waits for; then the changes,
/// of which only the last one starts the view; then the next number that it starts with, and the
/// log.
type Case = (u32, u64, u8, &'static [Row], u64, Ids);

/// Of five replicas a change of an older view counts, and its log does not; a second one of a
/// sender does not count; what stands below the greatest sync point is not merged. Of three: in one
/// session next is the greater one; in a new session numbers begin at 1; sessions rank before
/// leader numbers; in a session the greater leader number ranks higher; of equal sync points the
/// lower sender's checkpoint is taken. Then a leader alone.
static STARTS: [Case; 9] = [
    (
        2,
        1,
        2,
        &[
            (2, 1, 1, 4, (1, 7, &[2, 3])),
            (0, 0, 1, 9, (1, 6, &[])),
            (0, 1, 1, 8, (4, 5, &[4])),
            (2, 1, 1, 8, (4, 5, &[4])),
            (4, 1, 1, 3, (2, 8, &[])),
        ],
        4,
        (2, 8, &[3]),
    ),
    (
        1,
        1,
        1,
        &[
            (1, 0, 1, 3, (1, 7, &[2])),
            (2, 0, 1, 5, (0, 0, &[1, 0, 3, 4])),
        ],
        5,
        (1, 7, &[0, 3, 4]),
    ),
    (
        1,
        EPOCH + 1,
        1,
        &[(1, 0, 1, 3, (2, 7, &[])), (2, 0, 1, 2, (1, 8, &[]))],
        1,
        (2, 7, &[]),
    ),
    (
        6,
        EPOCH + 1,
        1,
        &[
            (0, 5, 2, 3, (1, 7, &[])),
            (1, 0, EPOCH + 1, 7, (0, 0, &[2])),
        ],
        7,
        (0, 0, &[2]),
    ),
    (
        9,
        2,
        1,
        &[(0, 8, 2, 1, (0, 0, &[])), (1, 7, 2, 7, (2, 8, &[]))],
        1,
        (0, 0, &[]),
    ),
    (
        9,
        3,
        1,
        &[(0, 6, 2, 9, (2, 7, &[])), (1, 7, 2, 7, (1, 8, &[3]))],
        1,
        (1, 8, &[3]),
    ),
    (
        1,
        1,
        1,
        &[(2, 0, 1, 4, (3, 7, &[0, 5])), (1, 0, 1, 4, (3, 8, &[4]))],
        4,
        (3, 8, &[0, 5]),
    ),
    (1, 1, 0, &[(0, 0, 1, 3, (2, 7, &[0]))], 3, (2, 7, &[0])),
    (1, 2, 0, &[(0, 0, 1, 3, (1, 7, &[0]))], 1, (1, 7, &[0])),
];

/// What a view is started with by this change, if it is.
fn started_at(rt: &impl Abort, alloc: Global, changes: &mut Changes, row: &Row) -> Option<Start> {
    let change = change(rt, alloc, row);
    match changes.on_change(change).expect(rt, "memory") {
        Step::Started(start) => Some(start),
        Step::Waiting => None,
    }
}

/// What a view is started with by the last of these changes, of which the first is the leader's
/// own; none before it starts the view.
fn started(rt: &impl Abort, alloc: Global, view: View, f: u8, row: &[Row]) -> Option<Start> {
    let [own, waiting @ .., last] = row else {
        return None;
    };
    let own = change(rt, alloc, own);
    let mut changes = Changes::enter(alloc, view, f, own).expect(rt, "memory");
    for row in waiting {
        if started_at(rt, alloc, &mut changes, row).is_some() {
            return None;
        }
    }
    started_at(rt, alloc, &mut changes, last)
}

/// What a view is started with by the changes of a case.
fn started_by(rt: &impl Abort, alloc: Global, case: &Case) -> Option<Start> {
    let (leader, session, f, row, _next, _log) = *case;
    let view = View { leader, session };
    match row {
        [own] => {
            let own = change(rt, alloc, own);
            let mut changes = Changes::enter(alloc, view, 0, own).expect(rt, "memory");
            Some(changes.start_now().expect(rt, "memory"))
        }
        _ => started(rt, alloc, view, f, row),
    }
}

/// The view is started with the next number and the log of the case.
fn is_started(start: Option<Start>, case: &Case) -> bool {
    match start {
        Some(start) => start.next == case.4 && is_expected(start.log.as_ref(), case.5),
        None => false,
    }
}

#[test]
fn starts(rt: HostRuntime) {
    for (row, case) in STARTS.iter().enumerate() {
        let start = started_by(&rt, rt.alloc(), case);
        check_row(&rt, is_started(start, case), row);
    }
}

/// Full logs of two changes, and a shorter one of a third.
fn full_changes(rt: &impl Abort, alloc: Global) -> Vec<Change> {
    let mut changes = changes_of(rt, alloc, &[(0, &[1])]);
    for sender in 1..3u8 {
        let change = Change {
            sender,
            last_normal: VIEW,
            next: 1,
            log: full(rt, alloc),
        };
        changes.push(change).expect(rt, "memory");
    }
    changes
}

#[test]
fn full_logs_are_merged(rt: HostRuntime) {
    let mut changes = full_changes(&rt, rt.alloc());
    let log = merged(&rt, rt.alloc(), &changes);
    check(&rt, is_full(log.entries()), "of one view");
    push_other(&rt, rt.alloc(), &mut changes);
    let log = merged(&rt, rt.alloc(), &changes);
    check(&rt, is_full(log.entries()), "beside another one");
}
