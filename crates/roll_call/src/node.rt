//! A node, and how it stands.

ghost use Rattle.std.specs.Prelude.{◌≡◌};
ghost use Rattle.roll_call.specs.Nodes.{answers, judged, marked, news_of, stands, unasked};

use nop_types::Actor;

/// After how long without an answer a node is silent, in milliseconds.
pub(crate) const SILENT_MILLIS: u64 = 3000;

const _: () = prove!(SILENT_MILLIS == 3000);

/// A node that is asked, at the port by which links know it.
#[derive(Clone, Copy, PartialEq, Eq)]
pub struct Node {
    pub actor: Actor,
    pub port: u16,
}

/// That a node answers, or does not, and since when this is known. Times are in milliseconds.
#[derive(Clone, Copy, PartialEq, Eq)]
pub struct Standing {
    pub answers: bool,
    pub since: u64,
}

/// A node, when it answered last, and how it stood in the last round.
#[derive(Clone, Copy, PartialEq, Eq)]
pub(crate) struct Asked {
    pub(crate) node: Node,
    pub(crate) answered: Option<u64>,
    pub(crate) standing: Option<Standing>,
}

/// Whether a standing is this one.
fn stands(standing: Option<Standing>, answers: bool) -> bool
    ensures { result ≡ stands standing answers }
{
    match standing {
        Some(standing) => if standing.answers { answers } else { !answers },
        None => false,
    }
}

impl Asked {
    /// It was not asked yet.
    pub(crate) fn new(node: Node) -> Asked
        ensures { result ≡ unasked node }
    {
        Asked {
            node,
            answered: None,
            standing: None,
        }
    }

    /// After an answer from this port.
    pub(crate) fn marked(self, port: u64, now: u64) -> Asked
        ensures { result ≡ marked port now self }
    {
        if u64::from(self.node.port) != port {
            return self;
        }
        Asked {
            answered: Some(now),
            ..self
        }
    }

    /// Whether it answered of late.
    fn answers(self, now: u64) -> bool
        ensures { result ≡ answers self.answered now }
    {
        match self.answered {
            Some(at) => now.saturating_sub(at) < SILENT_MILLIS,
            None => false,
        }
    }

    /// How it stands now, where that is otherwise than before.
    pub(crate) fn news(self, now: u64) -> Option<Standing>
        ensures { result ≡ news_of now self }
    {
        let answers = self.answers(now);
        if stands(self.standing, answers) {
            return None;
        }
        Some(Standing {
            answers,
            since: now,
        })
    }

    /// As it stands now.
    pub(crate) fn judged(self, now: u64) -> Asked
        ensures { result ≡ judged now self }
    {
        Asked {
            standing: self.news(now).or(self.standing),
            ..self
        }
    }
}
