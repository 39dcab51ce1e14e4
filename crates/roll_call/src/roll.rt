//! The nodes that are asked in rounds.

ghost use Rattle.std.specs.Option.{option_copied};
ghost use Rattle.std.specs.Prelude.{◌≡◌, ◌++◌, [], length, slice_get, option_map, IfOk, OnOk, find, map};
ghost use Rattle.roll_call.specs.Nodes.{judged, marked, unasked};
ghost use Rattle.roll_call.specs.Rolls.{heard, is_controller, is_due, news, opening, question_by};
ghost use Rattle.roll_call.specs.Rolls.{silent_by, silent_in, silent_since, standings, turned};

use crate::answers::Asker;
use crate::lines;
use crate::node::{Asked, Node, Standing};
use admission::Greeting;
use nop_types::{Actor, NoMemory};
use std::alloc::Global;
use std::marker::Model;

/// How long a round is, in milliseconds.
pub(crate) const ROUND_MILLIS: u64 = 1000;

const _: () = prove!(ROUND_MILLIS == 1000);

/// The nodes of a cluster, and which of them answer.
#[derive(Drop)]
pub struct Roll {
    asker: Asker,
    asked: Option<u64>,
    nodes: Vec<Asked>,
}

impl Model for Roll {
    ghost use Rattle.roll_call.specs.Rolls.{Rolled};

    ghost Value = { Rolled };

    ghost view = { λ r. record { asker = r.asker; asked = r.asked; nodes = r.nodes.items } };
}

fn unasked_of(alloc: Global, nodes: &[Node]) -> Result<Vec<Asked>, NoMemory>
    ensures { IfOk result (λ asked. asked.items ≡ map unasked nodes.now) }
{
    let mut asked = Vec::new(alloc);
    for node in nodes {
        asked.push(Asked::new(*node))?;
    }
    Ok(asked)
}

/// An answer came from the node with this port.
fn mark(nodes: &mut [Asked], port: u64, now: u64)
    ensures { nodes.new ≡ map (marked port now) nodes.old }
{
    for asked in nodes.iter_mut() {
        *asked = asked.marked(port, now);
    }
}

/// How each stands now.
fn judge(nodes: &mut [Asked], now: u64)
    ensures { nodes.new ≡ map (judged now) nodes.old }
{
    for asked in nodes.iter_mut() {
        *asked = asked.judged(now);
    }
}

fn is_controller(controller: u8, actor: Actor) -> bool
    ensures { result ≡ is_controller controller actor }
{
    match actor {
        Actor::Controller(i) => i == controller,
        _ => false,
    }
}

/// Since when it is known that a node is silent, of one that is.
fn silent_by(standing: Option<Standing>) -> Option<u64>
    ensures { result ≡ silent_by standing }
{
    match standing {
        Some(standing) => {
            if standing.answers {
                None
            } else {
                Some(standing.since)
            }
        }
        None => None,
    }
}

fn with_controller(nodes: &[Asked], controller: u8) -> Option<&Asked>
    ensures { option_copied result ≡ find (λ a. is_controller controller a.node.actor) nodes.now }
{
    nodes
        .iter()
        .find(|a| is_controller(controller, a.node.actor))
}

impl Roll {
    /// Nobody was asked yet. They are to be asked in the name of the actor with this number, by a list of hosts with this digest.
    pub fn new(alloc: Global, digest: u64, number: u32, nodes: &[Node]) -> Result<Roll, NoMemory>
        ensures { IfOk result (λ roll. roll ≡ opening
            (record { digest = digest; number = number }) nodes.now) }
    {
        Ok(Roll {
            asker: Asker { digest, number },
            asked: None,
            nodes: unasked_of(alloc, nodes)?,
        })
    }

    /// A roll of no nodes.
    pub fn none(alloc: Global) -> Roll
        ensures { result ≡ opening (record { digest = 0; number = 0 }) [] }
    {
        Roll {
            asker: Asker {
                digest: 0,
                number: 0,
            },
            asked: None,
            nodes: Vec::new(alloc),
        }
    }

    /// How many nodes there are.
    pub fn count(&self) -> usize
        ensures { result ≡ length self.now.nodes }
    {
        self.nodes.len()
    }

    /// The port of the node at a place of the roll.
    pub fn port_at(&self, place: usize) -> Option<u16>
        ensures { result ≡ option_map (λ a. a.node.port) (slice_get self.now.nodes place) }
    {
        match self.nodes.get(place) {
            Some(asked) => Some(asked.node.port),
            None => None,
        }
    }

    /// What the node at a port is asked in a round.
    pub fn question(&self, port: u16) -> Greeting
        ensures { result ≡ question_by self.now.asker port }
    {
        self.asker.question(port)
    }

    /// Takes a datagram that came: where it is the answer of a node, that one answered now.
    pub fn hear(&mut self, now: u64, bytes: &[u8])
        ensures { self.new ≡ heard self.old now bytes.now }
    {
        if let Some(port) = self.asker.port_in(bytes) {
            mark(&mut self.nodes, port, now);
        }
    }

    /// Whether it is time for a round.
    pub fn is_due(&self, now: u64) -> bool
        ensures { result ≡ is_due self.now now }
    {
        match self.asked {
            Some(at) => now.saturating_sub(at) >= ROUND_MILLIS,
            None => true,
        }
    }

    /// Appends the lines of the nodes that will stand otherwise in a round now than before.
    pub fn put_news(&self, now: u64, to: &mut Vec<u8>) -> Result<(), NoMemory>
        ensures { OnOk result (to.new.items ≡ to.old.items ++ news self.now now) }
    {
        match self.asked {
            Some(_) => lines::put_news(&self.nodes, now, to),
            None => Ok(()),
        }
    }

    /// Makes a round: says how each node stands that was asked before. Then all are to be asked.
    pub fn turn(&mut self, now: u64)
        ensures { self.new ≡ turned self.old now }
    {
        if self.asked.is_some() {
            judge(&mut self.nodes, now);
        }
        self.asked = Some(now);
    }

    /// Appends the lines of how nodes stand.
    pub fn put_standings(&self, to: &mut Vec<u8>) -> Result<(), NoMemory>
        ensures { OnOk result (to.new.items ≡ to.old.items ++ standings self.now) }
    {
        lines::put_standings(&self.nodes, to)
    }

    /// Since when it is known that the controller with this number is silent, if it is one of the nodes and is.
    pub fn silent_since(&self, controller: u8) -> Option<u64>
        ensures { result ≡ silent_since self.now controller }
    {
        match with_controller(&self.nodes, controller) {
            Some(asked) => silent_by(asked.standing),
            None => None,
        }
    }
}
