//! The parts of long messages that go to all ports, sent and sent again over a socket.
ghost use Rattle.std.specs.Prelude.{◌≡◌, ◌⊎◌, ◌≤◌, ℕ, length, slice_get, true, IfSome, IsTrue, Some, None};
ghost use Rattle.std.specs.List.{All, list_any};
ghost use Rattle.resending.specs.Sending.{acknowledged, at_time, has_room, is_at_rest, is_pressing, opening};
ghost use Rattle.udp_ports.specs.Turns.{AdmitsPart, AreTurns, Goes, IsTurn, resent_due, flow_to, sent, with_flow_to};
ghost use Rattle.udp_ports.specs.Turns.{one_sent};

use crate::socket::Socket;
use nop_types::NoMemory;
use resending::{Ack, Flow, LANES, MOST_AT_ONCE, lane_of};
use std::alloc::Global;
use std::array;
use std::marker::Model;
use std::time::Clock;

/// The parts that go to all ports.
#[derive(Drop)]
pub(crate) struct Flows {
    lanes: [Flow; LANES],
    // Whether there may be a part that waits or is in flight.
    is_busy: bool,
}

impl Model for Flows {
    ghost use Rattle.std.specs.Prelude.{◌≡◌, List, false, true};
    ghost use Rattle.std.specs.List.{All};
    ghost use Rattle.resending.specs.Sending.{Outgoing, is_at_rest};

    ghost Value = { List Outgoing };

    ghost view = { λ f. f.lanes };

    ghost invariant = { λ f. f.is_busy ≡ false → All (λ flow. is_at_rest flow ≡ true) f.lanes };
}

/// Sends a part in flight, by its place. Whether the system took it.
fn has_sent_at<R: Clock>(flow: &Flow, i: usize, socket: &Socket<'_, R>) -> bool {
    match flow.flight().get(i) {
        Some(sent) => socket.has_sent(sent.part.port, sent.part.bytes.as_slice()),
        None => true,
    }
}

/// Sends the last one in flight. Whether the system took it.
fn has_sent_last<R: Clock>(flow: &Flow, socket: &Socket<'_, R>) -> bool {
    has_sent_at(flow, flow.flight().len().saturating_sub(1), socket)
}

/// Sends the first part that waits, where it may be sent now. None where none may.
fn send_next<R: Clock>(flow: &mut Flow, socket: &Socket<'_, R>) -> Option<bool>
    ensures some { IfSome result (λ _. flow.new ≡ one_sent flow.old) }
    ensures none { result ≡ None → flow.new ≡ flow.old }
{
    if !flow.advance() {
        return None;
    }
    Some(has_sent_last(flow, socket))
}

/// Sends again what is to be, and says how many sends failed.
fn resend<R: Clock>(flow: &mut Flow, socket: &Socket<'_, R>) -> u64
    ensures { flow.new ≡ resent_due flow.old }
{
    let mut failed: u64 = 0;
    for i in 0..flow.flight().len() {
        if flow.resend(i) && !has_sent_at(flow, i, socket) {
            failed = failed.saturating_add(1);
        }
    }
    failed
}

/// Sends what waits for a port and may be sent now, and says how many of these sends failed.
fn release<R: Clock>(flow: &mut Flow, socket: &Socket<'_, R>) -> u64
    ensures { (n : ℕ) × ((n ≤ MOST_AT_ONCE) × (flow.new ≡ sent n flow.old)) }
{
    let mut failed: u64 = 0;
    for i in 0..MOST_AT_ONCE {
        if !flow.advance() {
            return failed;
        }
        if !has_sent_last(flow, socket) {
            failed = failed.saturating_add(1);
        }
    }
    failed
}

/// Begins a turn at this time, and says how many sends failed.
fn take_turn<R: Clock>(flow: &mut Flow, now: u64, socket: &Socket<'_, R>) -> u64
    ensures { IsTurn now flow.old flow.new }
{
    flow.begin_turn(now);
    let failed = resend(flow, socket);
    failed.saturating_add(release(flow, socket))
}

/// Takes a part, and sends the first one that waits, if it may be sent now. False where the part is refused, or the system refuses the
/// other.
fn send_part<R: Clock>(flow: &mut Flow, port: u16, bytes: &[u8], socket: &Socket<'_, R>) -> bool
    ensures { Goes port bytes.now flow.old flow.new result }
{
    match flow.admit(port, bytes) {
        Ok(true) => send_next(flow, socket).unwrap_or(true),
        Ok(false) | Err(NoMemory) => false,
    }
}

/// Begins a turn of each, at this time, and says how many sends failed.
fn take_turns<R: Clock>(flows: &mut [Flow], now: u64, socket: &Socket<'_, R>) -> u64
    ensures { AreTurns now flows.old flows.new }
{
    let mut failed: u64 = 0;
    for i in 0..flows.len() {
        failed = failed.saturating_add(take_turn(&mut flows[i], now, socket));
    }
    failed
}

/// Whether nothing waits and nothing is in flight.
fn are_at_rest(flows: &[Flow]) -> bool
    ensures { IsTrue result → All (λ flow. is_at_rest flow ≡ true) flows.now }
{
    for flow in flows {
        if !flow.is_at_rest() {
            return false;
        }
    }
    true
}

impl Flows {
    pub(crate) fn new(alloc: Global) -> Flows
        ensures { All (λ flow. flow ≡ opening) result }
    {
        Flows {
            lanes: array::from_fn(|_| Flow::new(alloc)),
            is_busy: false,
        }
    }

    /// Whether a part waits for no acknowledgement, but for its turn.
    pub(crate) fn is_pressing(&self) -> bool
        ensures { IsTrue result → list_any is_pressing self.now ≡ true }
    {
        self.is_busy && self.lanes.iter().any(|flow| flow.is_pressing())
    }

    /// Takes a part, and sends the first one that waits, if it may be sent now. False where the part is refused, or the system
    /// refuses the other.
    pub(crate) fn send<R: Clock>(&mut self, port: u16, bytes: &[u8], socket: &Socket<'_, R>) -> bool
        ensures { AdmitsPart port bytes.now self.old self.new result }
    {
        self.is_busy = true;
        let flow = &mut self.lanes[lane_of(port)];
        flow.set_time(socket.micros().unwrap_or(0));
        send_part(flow, port, bytes, socket)
    }

    /// A port received parts.
    pub(crate) fn acknowledge<R: Clock>(&mut self, port: u16, ack: &Ack, socket: &Socket<'_, R>)
        ensures { (now : ℕ) × (self.new ≡ with_flow_to port
            (acknowledged port ack.now (at_time now (flow_to port self.old))) self.old) }
    {
        self.is_busy = true;
        let flow = &mut self.lanes[lane_of(port)];
        flow.set_time(socket.micros().unwrap_or(0));
        flow.acknowledge(port, ack);
    }

    /// Begins a turn: sends what is to be sent again, and what waits and may be sent now, and says how many of these sends failed.
    pub(crate) fn begin_turn<R: Clock>(&mut self, socket: &Socket<'_, R>) -> u64
        ensures { (self.new ≡ self.old) ⊎ ((now : ℕ) × AreTurns now self.old self.new) }
    {
        if !self.is_busy {
            return 0;
        }
        let failed = take_turns(&mut self.lanes, socket.micros().unwrap_or(0), socket);
        self.is_busy = !are_at_rest(&self.lanes);
        failed
    }

    /// Sends all that still waits. It stays among what waits.
    pub(crate) fn send_rest<R: Clock>(&self, socket: &Socket<'_, R>) {
        for flow in &self.lanes {
            for i in 0..flow.waiting().len() {
                if let Some(part) = flow.waiting().get(i) {
                    let _sent = socket.has_sent(part.port, part.bytes.as_slice());
                }
            }
        }
    }
}
