ghost use Rattle.std.specs.Prelude.{◌≡◌, ◌≤◌, ◌<◌, ◌%◌, length};
ghost use Rattle.std.specs.List.{All};
ghost use Rattle.resending.specs.Receiving.{answer_for, due_answer, is_sending, no_receipt, one_more, owes_another};
ghost use Rattle.resending.specs.Receiving.{recorded, window_of, with_answer, with_index, with_part};

use crate::acks::{Ack, NAMED};
use crate::flight::MOST_WINDOW;
use crate::flow::FIRST_WINDOW;
use crate::lanes::{LANES, lane_of};
use crate::names::Name;

/// After how many parts of a port they are acknowledged, whatever else comes: fewer than may be in flight, and half as many as an
/// acknowledgement names.
pub const ACK_EVERY: usize = NAMED / 2;

/// A port counts as sending as long as a part of it is among the last so many.
const RECENT_PARTS: u64 = 2 * MOST_WINDOW as u64;

const _: () = prove!(ACK_EVERY == 4 && RECENT_PARTS == 72);

/// What came from the ports of a lane.
#[derive(Clone, Copy)]
pub struct Receipt {
    // The port of the last part, and its message.
    port: u16,
    message: u64,
    // The indexes of the last parts of that message, the last one first.
    indexes: [u16; NAMED],
    // How many parts are not acknowledged yet.
    owed: u8,
    // How many parts had come, from all ports, when the last one had; 0 where none has.
    last: u64,
}

/// The parts that a link received, as far as acknowledgements need them. Ports that send parts at the same time share the number that
/// may be in flight.
#[derive(Drop)]
pub struct Receipts {
    // How many parts came.
    count: u64,
    lanes: [Receipt; LANES],
}

/// An acknowledgement, and the port that it is for.
#[derive(Clone, Copy)]
pub struct Answer {
    pub port: u16,
    pub ack: Ack,
}

/// These with one more before them, and without the last.
fn with_index(indexes: [u16; NAMED], index: u16) -> [u16; NAMED]
    ensures { result ≡ with_index indexes index }
{
    [
        index, indexes[0], indexes[1], indexes[2], indexes[3], indexes[4], indexes[5], indexes[6],
    ]
}

impl Receipt {
    /// One more part came, as this one of all.
    fn with_part(self, port: u16, name: Name, count: u64) -> Receipt
        ensures { result ≡ one_more port name count self }
    {
        let before = self.indexes;
        let goes_on = self.last > 0 && self.port == port && self.message == name.message;
        let indexes = if goes_on {
            with_index(before, name.index)
        } else {
            [name.index; NAMED]
        };
        Receipt {
            port,
            message: name.message,
            indexes,
            owed: self.owed.saturating_add(1),
            last: count,
        }
    }

    /// Whether parts are owed that an acknowledgement of this message to this port does not name.
    fn owes_another(self, port: u16, name: Name) -> bool
        ensures { result ≡ owes_another port name self }
    {
        self.owed > 0 && (self.port != port || self.message != name.message)
    }
}

impl Receipts {
    pub fn new() -> Receipts
        ensures count { result.count ≡ 0 }
        ensures lanes { All (λ receipt. receipt ≡ no_receipt) result.lanes }
    {
        let none = Receipt {
            port: 0,
            message: 0,
            indexes: [0; NAMED],
            owed: 0,
            last: 0,
        };
        Receipts {
            count: 0,
            lanes: [none; LANES],
        }
    }

    /// How many lanes there are.
    pub fn lanes(&self) -> usize
        ensures is { result ≡ LANES }
        ensures all { result ≡ length self.now.lanes }
    {
        self.lanes.len()
    }

    /// Records a part that came from this port. Gives an acknowledgement where one is due: for as many parts, or for those of a
    /// message before it.
    pub fn record(&mut self, port: u16, name: Name) -> Option<Answer>
        ensures due { result ≡ due_answer port name self.old }
        ensures recorded { self.new ≡ recorded port name self.old }
    {
        let lane = lane_of(port);
        if self.lanes[lane].owes_another(port, name) {
            let answer = self.take(lane);
            self.add(lane, port, name);
            return answer;
        }
        self.add(lane, port, name);
        if usize::from(self.lanes[lane].owed) < ACK_EVERY {
            return None;
        }
        self.take(lane)
    }

    /// One more part came.
    fn add(&mut self, lane: usize, port: u16, name: Name)
        requires { lane ≡ port % LANES }
        ensures { self.new ≡ with_part port name self.old }
    {
        let count = self.count.saturating_add(1);
        self.count = count;
        self.lanes[lane] = self.lanes[lane].with_part(port, name, count);
    }

    /// The acknowledgement of what a lane is owed.
    pub fn take(&mut self, lane: usize) -> Option<Answer>
        requires { lane < LANES }
        ensures answer { result ≡ answer_for lane self.old }
        ensures settled { self.new ≡ with_answer lane self.old }
    {
        let receipt = self.lanes[lane];
        if receipt.owed == 0 {
            return None;
        }
        let window = self.window();
        self.lanes[lane].owed = 0;
        let indexes = receipt.indexes;
        Some(Answer {
            port: receipt.port,
            ack: Ack {
                window,
                message: receipt.message,
                indexes,
            },
        })
    }

    /// How many parts may be in flight from a port.
    fn window(&self) -> u8
        ensures is { result ≡ window_of self.now }
        ensures least { FIRST_WINDOW ≤ result }
        ensures most { result ≤ MOST_WINDOW }
    {
        let senders = self
            .lanes
            .iter()
            .filter(|lane| is_sending(self.count, lane))
            .count();
        (MOST_WINDOW / senders.max(1)).max(FIRST_WINDOW) as u8
    }
}

fn is_sending(count: u64, lane: &Receipt) -> bool
    ensures { result ≡ is_sending count lane.now }
{
    lane.last > 0 && count.saturating_sub(lane.last) < RECENT_PARTS
}
