//! What nodes are asked, and whose answers come.

ghost use Rattle.std.specs.Prelude.{◌≡◌, ◌<◌, ◌^◌};
ghost use Rattle.roll_call.specs.Rolls.{is_answer, port_by, port_in, question_by};

use admission::{Greeting, Word};

/// With the port of the node behind it, this is the number of the process that asks: the answer has it again. A link takes no greeting
/// with it for a part of a message, nor for a request that it would repeat.
const ASKED_FROM: u64 = 0x0001_0000_0000_0000;

const _: () = prove!(ASKED_FROM == 281_474_976_710_656);

/// In whose name nodes are asked: an actor with this number, by a list of hosts with this digest.
#[derive(Clone, Copy, PartialEq, Eq)]
pub(crate) struct Asker {
    pub(crate) digest: u64,
    pub(crate) number: u32,
}

fn is_answer(word: Word) -> bool
    ensures { result ≡ is_answer word }
{
    match word {
        Word::Free | Word::Taken => true,
        _ => false,
    }
}

impl Asker {
    /// What the node at a port is asked: whether the number is free.
    pub(crate) fn question(self, port: u16) -> Greeting
        ensures { result ≡ question_by self port }
    {
        Greeting {
            word: Word::Ask,
            digest: self.digest,
            number: self.number,
            process: ASKED_FROM + u64::from(port),
        }
    }

    fn port_by(self, greeting: Greeting) -> Option<u64>
        ensures { result ≡ port_by self greeting }
    {
        if is_answer(greeting.word)
            && greeting.digest == self.digest
            && greeting.number == self.number
            && greeting.process >= ASKED_FROM
        {
            Some(greeting.process - ASKED_FROM)
        } else {
            None
        }
    }

    /// The port of the node whose answer these bytes are.
    pub(crate) fn port_in(self, bytes: &[u8]) -> Option<u64>
        ensures { result ≡ port_in self bytes.now }
    {
        match Greeting::read(bytes) {
            Ok(greeting) => self.port_by(greeting),
            Err(_) => None,
        }
    }
}
