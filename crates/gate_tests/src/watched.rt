//! What a watch writes over devices in memory, of messages in the bytes that the formats give them.

ghost use Rattle.std.specs.Prelude.{All, true};
ghost use Rattle.outside.specs.Memory.{MayAnswer};

use nop_types::{Bytes, Config, MAX_DATAGRAM_BYTES};
use outside::{ClockMem, Failing, LinkMem, PollAnswer, PortsMem, WriteMem};
use roll_call::Roll;
use std::alloc::Global;
use std::process::Abort;
use watching::{Asked, Status, WatchError, status_of, watch_cluster};

/// SyncCommit of replica 0 in view 0 1, with the lengths 5 and 8; in this view by replica 1, which does not lead it.
const FIRST: &str = "4e4f030800000000000000000100000001190000000000000000000000000100000005";

const SECOND: &str = "4e4f030800000000000000000200000001190000000000000000000000000100000008";

const STRANGE: &str = "4e4f030801000000000000000100000001190100000000000000000000000100000063";

/// SyncCommit of replica 1 in view 1 1, with the length 7; in view 1 and the first session of controller 1, with the length 9.
const RISEN: &str = "4e4f030801000000000000000200000001190100000001000000000000000100000007";

const MOVED: &str = "4e4f030801000000000000000300000001190100000001000000010000000000000009";

/// What a poll answers: a failure, nothing, or a datagram in hexadecimal.
fn answer(rt: &impl Abort, alloc: Global, word: &str) -> PollAnswer
    ensures { MayAnswer true result }
{
    match word {
        "failure" => PollAnswer::Failure,
        "nothing" => PollAnswer::Nothing,
        _ => {
            let bytes = hex::decode(alloc, word).expect(rt, "hexadecimal");
            assert!(rt; bytes.len() <= MAX_DATAGRAM_BYTES);
            PollAnswer::Received(Bytes::from_vec(bytes))
        }
    }
}

/// Adds what a poll answers.
fn push(rt: &impl Abort, alloc: Global, word: &str, answers: &mut Vec<PollAnswer>)
    requires { All (MayAnswer true) answers.old.items }
    ensures { All (MayAnswer true) answers.new.items }
{
    let given = answer(rt, alloc, word);
    answers.push(given).expect(rt, "memory");
}

/// What the polls answer.
fn answers(rt: &impl Abort, alloc: Global, polls: &[&str; 7]) -> Vec<PollAnswer>
    ensures { All (MayAnswer true) result.items }
{
    let [first, second, third, fourth, fifth, sixth, seventh] = polls;
    let mut answers = Vec::new(alloc);
    push(rt, alloc, first, &mut answers);
    push(rt, alloc, second, &mut answers);
    push(rt, alloc, third, &mut answers);
    push(rt, alloc, fourth, &mut answers);
    push(rt, alloc, fifth, &mut answers);
    push(rt, alloc, sixth, &mut answers);
    push(rt, alloc, seventh, &mut answers);
    answers
}

/// A watch over ports with one link, whose polls answer these and then nothing, and of which the attaches with these numbers fail, at
/// these times; whether it shows one state once, or redraws, or neither; how it ends, and what it writes.
struct Row {
    polls: [&'static str; 7],
    failing: &'static [u64],
    times: &'static [u64],
    shows: &'static str,
    ended: Result<bool, WatchError>,
    lines: &'static str,
}

fn ports(rt: &impl Abort, alloc: Global, row: &Row) -> PortsMem<Failing> {
    let answers = answers(rt, alloc, &row.polls);
    let link = LinkMem::with_faults(alloc, 0, answers, &[]).expect(rt, "memory");
    let links = vec![in alloc; link].expect(rt, "memory");
    PortsMem::with_faults(alloc, links, row.failing).expect(rt, "memory")
}

/// How the watch of a row ends.
fn ended(
    rt: &impl Abort,
    alloc: Global,
    row: &Row,
    sink: &mut WriteMem,
) -> Result<bool, WatchError> {
    let config = Config::new(3, 1, 1, 1, 4).expect(rt, "a group");
    let mut ports = ports(rt, alloc, row);
    let mut clock = ClockMem::with_values(alloc, row.times).expect(rt, "memory");
    let asked = Asked {
        once: row.shows == "once",
        redraws: row.shows == "redraw",
        turns: 9,
    };
    let roll = Roll::none(alloc);
    watch_cluster(
        alloc, config, 41032, asked, roll, &mut ports, &mut clock, sink,
    )
}

fn holds(rt: &impl Abort, alloc: Global, row: &Row) -> bool {
    let mut sink = WriteMem::new(alloc);
    ended(rt, alloc, row, &mut sink) == row.ended && sink.as_slice() == row.lines.as_bytes()
}

fn check(rt: &impl Abort, alloc: Global, rows: &[Row]) {
    for (number, row) in rows.iter().enumerate() {
        assert!(rt; holds(rt, alloc, row), "row {number}");
    }
}

static STATES: [Row; 1] = [Row {
    polls: [FIRST, SECOND, STRANGE, RISEN, FIRST, MOVED, "nothing"],
    failing: &[],
    times: &[100, 600, 1100, 1200, 2100, 2150, 3200],
    shows: "lines",
    ended: Ok(true),
    lines: "view 0 1 leader r0 controller ctl synced 8 rate 3 age 500\n\
            view 1 1 leader r1 controller ctl changed 1100\n\
            view 1 1 leader r1 controller ctl synced 8 rate 0 age 900\n\
            view 1 4294967296 leader r1 controller ctl1 changed 2050\n\
            view 1 4294967296 leader r1 controller ctl1 synced 9 rate 0 age 1050\n",
}];

static SCREENS: [Row; 1] = [Row {
    polls: [FIRST, SECOND, STRANGE, RISEN, FIRST, MOVED, "nothing"],
    failing: &[],
    times: &[100, 600, 1100, 1200, 2100],
    shows: "redraw",
    ended: Ok(true),
    lines: "\x1b[H\x1b[J\
            view 0 1 leader r0 controller ctl synced 8 rate 3 age 500\n\
            \x1b[H\x1b[J\
            view 1 1 leader r1 controller ctl changed 1100\n\
            view 0 1 leader r0 controller ctl synced 8 rate 3 age 500\n\
            \x1b[H\x1b[J\
            view 1 1 leader r1 controller ctl changed 1100\n\
            view 1 1 leader r1 controller ctl synced 8 rate 0 age 900\n\
            \x1b[H\x1b[J\
            view 1 4294967296 leader r1 controller ctl1 changed 2000\n\
            view 1 1 leader r1 controller ctl synced 8 rate 0 age 900\n",
}];

static ONE: [Row; 4] = [
    Row {
        polls: [FIRST, "nothing", SECOND, RISEN, RISEN, RISEN, RISEN],
        failing: &[],
        times: &[0, 1, 2000, 2001],
        shows: "once",
        ended: Ok(true),
        lines: "view 0 1 leader r0 controller ctl synced 8 rate 1 age 0\n",
    },
    Row {
        polls: ["nothing"; 7],
        failing: &[],
        times: &[0, 4999, 5000],
        shows: "once",
        ended: Ok(false),
        lines: "",
    },
    Row {
        polls: [FIRST, SECOND, "failure", RISEN, RISEN, RISEN, RISEN],
        failing: &[],
        times: &[0],
        shows: "once",
        ended: Err(WatchError::LinkFault),
        lines: "",
    },
    Row {
        polls: [FIRST, "nothing", SECOND, RISEN, RISEN, RISEN, RISEN],
        failing: &[1],
        times: &[0],
        shows: "once",
        ended: Err(WatchError::PortFault),
        lines: "",
    },
];

/// States come at the end of a second, changes at once. Who does not lead is not heard, and the length does not fall.
#[test]
fn states_and_changes_are_written(rt: HostRuntime) {
    check(&rt, rt.alloc(), &STATES);
}

/// On a screen the last change and the last state stand, over what was there.
#[test]
fn screens_are_drawn_again(rt: HostRuntime) {
    check(&rt, rt.alloc(), &SCREENS);
}

/// One state is written, or none where nothing is told for five seconds; and each fault is told.
#[test]
fn one_state_is_written(rt: HostRuntime) {
    check(&rt, rt.alloc(), &ONE);
    assert!(rt; status_of(Ok(false)) == Status::Unanswered);
}
