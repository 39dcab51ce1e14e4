//! Votes for gaps, and points up to which logs are synchronised.
use crate::checking::{check, check_row};
use nop_types::{MAX_REPLICAS, Vote};
use slot_votes::{Gap, SyncPoints, Votes};
use std::process::Abort;

/// Who votes for a gap, where three are needed, and what then holds.
static VOTES: [(u8, Vote); 6] = [
    (1, Vote::Waiting),
    (6, Vote::Waiting),
    (1, Vote::Waiting),
    (6, Vote::Waiting),
    (0, Vote::Settled),
    (2, Vote::Settled),
];

/// A gap; and two votes of one replica, which are one.
#[test]
fn gaps(rt: HostRuntime) {
    let mut gap = Gap::begin(5, 3);
    for (row, (replica, expected)) in VOTES.iter().enumerate() {
        check_row(&rt, gap.on_rep(*replica) == *expected, row);
    }
    check(&rt, gap.slot() == 5, "the slot");
    let mut votes = Votes::new();
    votes.add(3);
    votes.add(3);
    check(&rt, votes.count() == 1, "one vote");
    check(&rt, votes.vote(1) == Vote::Settled, "which is enough");
}

/// A call, with its answer: a length that a leader tells, a vote for a length, a length that a
/// follower was told, a commit, and that the view is left.
enum Call {
    Tell(u32),
    Vote(u8, u32, Vote),
    Told(u32),
    Commit(u32, Option<u32>),
    Leave,
}

/// How many votes are needed, the calls, and the sync point at the end.
type Points = (u8, &'static [Call], u32);

/// A leader of two needed votes; one vote is enough, for the last length that was told, in the view
/// in which it was told, and where it is above the sync point; a leader alone; and a follower that
/// was told a log of length 2, and then a shorter one.
static POINTS: [Points; 4] = [
    (
        2,
        &[
            Call::Tell(3),
            Call::Vote(1, 3, Vote::Waiting),
            Call::Vote(1, 3, Vote::Waiting),
            Call::Vote(2, 4, Vote::Waiting),
            Call::Vote(4, 3, Vote::Settled),
            Call::Vote(2, 3, Vote::Waiting),
        ],
        3,
    ),
    (
        1,
        &[
            Call::Tell(4),
            Call::Tell(5),
            Call::Vote(1, 4, Vote::Waiting),
            Call::Vote(1, 5, Vote::Settled),
            Call::Tell(5),
            Call::Vote(2, 5, Vote::Waiting),
            Call::Tell(6),
            Call::Leave,
            Call::Vote(1, 6, Vote::Waiting),
        ],
        5,
    ),
    (0, &[Call::Tell(2), Call::Vote(1, 2, Vote::Waiting)], 2),
    (
        1,
        &[
            Call::Commit(1, None),
            Call::Told(2),
            Call::Told(1),
            Call::Commit(0, Some(0)),
            Call::Commit(3, None),
            Call::Commit(2, Some(2)),
            Call::Commit(1, Some(2)),
            Call::Leave,
            Call::Commit(1, None),
        ],
        2,
    ),
];

/// Carries out a call, and says whether it has its answer.
fn does(rt: &impl Abort, points: &mut SyncPoints, call: &Call) -> bool {
    match call {
        Call::Tell(len) => points.prepare(*len),
        Call::Vote(replica, len, expected) => {
            assert!(rt; *replica < MAX_REPLICAS);
            return points.on_rep(*replica, *len) == *expected;
        }
        Call::Told(len) => points.on_prepare(*len),
        Call::Commit(len, expected) => return points.on_commit(*len) == *expected,
        Call::Leave => points.clear(),
    }
    true
}

fn check_points(rt: &impl Abort, row: &Points) {
    let (needed, calls, expected) = row;
    let mut points = SyncPoints::new(*needed);
    for (place, call) in calls.iter().enumerate() {
        check_row(rt, does(rt, &mut points, call), place);
    }
    check(rt, points.sync_point() == *expected, "the sync point");
}

#[test]
fn sync_points(rt: HostRuntime) {
    for row in &POINTS {
        check_points(&rt, row);
    }
}
