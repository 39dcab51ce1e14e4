ghost use Rattle.std.specs.Prelude.{◌≡◌};
ghost use Rattle.resending.specs.Topics.{begun, beside, choice, is_some_number, last_begun, no_topics, refusing};
ghost use Rattle.resending.specs.Names.{same_view};

use crate::names::Topic;

/// What is done with a part that comes to a port, as far as its message tells it.
#[derive(Clone, Copy)]
pub enum Choice {
    /// It goes behind what waits.
    Goes,
    /// It goes, and what is on its way is given up.
    Replaces,
    /// It does not go, since a message of its kind and view is on its way.
    Refused,
}

/// A message that goes to a port.
#[derive(Clone, Copy)]
pub struct Begun {
    pub message: u64,
    pub topic: Topic,
}

/// Which message to a port was begun last, and which one is refused: so a message goes whole or not at all.
#[derive(Clone, Copy)]
pub struct Topics {
    last: Option<Begun>,
    refused: Option<u64>,
}

fn same_view(a: Topic, b: Topic) -> bool
    ensures { result ≡ same_view a b }
{
    a.leader == b.leader && a.session == b.session
}

fn is_refused(refused: Option<u64>, message: u64) -> bool
    ensures { result ≡ is_some_number refused message }
{
    match refused {
        Some(refused) => refused == message,
        None => false,
    }
}

/// A message comes while this one is on its way, or was last.
fn beside(last: Begun, message: u64, topic: Topic) -> Choice
    ensures { result ≡ beside last message topic }
{
    if last.message == message {
        Choice::Goes
    } else if !same_view(last.topic, topic) {
        Choice::Replaces
    } else if last.topic.kind == topic.kind {
        Choice::Refused
    } else {
        Choice::Goes
    }
}

/// The message that was begun last, where a part of one goes.
fn last_begun(last: Option<Begun>, message: u64, topic: Topic) -> Begun
    ensures { result ≡ last_begun last message topic }
{
    match last {
        None => Begun { message, topic },
        Some(last) => {
            if last.message == message {
                last
            } else {
                Begun { message, topic }
            }
        }
    }
}

impl Topics {
    pub fn new() -> Topics
        ensures { result ≡ no_topics }
    {
        Topics {
            last: None,
            refused: None,
        }
    }

    /// What is done with a part of a message; `topic` is what its first part says.
    pub fn choice(self, is_at_rest: bool, message: u64, topic: Topic) -> Choice
        ensures { result ≡ choice is_at_rest message topic self }
    {
        if is_refused(self.refused, message) {
            return Choice::Refused;
        }
        match self.last {
            None => Choice::Goes,
            Some(last) => {
                if is_at_rest {
                    Choice::Goes
                } else {
                    beside(last, message, topic)
                }
            }
        }
    }

    /// A part of a message goes.
    pub fn begun(self, message: u64, topic: Topic) -> Topics
        ensures { result ≡ begun message topic self }
    {
        Topics {
            last: Some(last_begun(self.last, message, topic)),
            refused: self.refused,
        }
    }

    /// The rest of a message does not go.
    pub fn refusing(self, message: u64) -> Topics
        ensures { result ≡ refusing message self }
    {
        Topics {
            last: self.last,
            refused: Some(message),
        }
    }
}
