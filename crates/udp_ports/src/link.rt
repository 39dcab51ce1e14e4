//! A link over a UDP socket: parts are acknowledged and sent again, greetings answered.
ghost use Rattle.std.specs.Prelude.{◌≡◌, ◌≤◌, ℕ, length, Ok, None, IfOk, IfSome, IsFalse, IsTrue};
ghost use Rattle.nop_types.specs.Parts.{IsPart};
ghost use Rattle.nop_types.specs.declared.limits.TheConstants.{MAX_DATAGRAM_BYTES};
ghost use Rattle.resending.specs.Acks.{IsNoAck};
ghost use Rattle.resending.specs.Names.{name_of};
ghost use Rattle.resending.specs.Receiving.{all_settled, recorded};
ghost use Rattle.resending.specs.Repeating.{IsRequest, repeated};
ghost use Rattle.udp_ports.specs.Guards.{MayGoOn};
ghost use Rattle.udp_ports.specs.Places.{IsHeard};
ghost use Rattle.udp_ports.specs.Turns.{AdmitsPart, HeedsAck};
ghost use Rattle.std.specs.Option.{is_some, option_copied};

use crate::flows::Flows;
use crate::guard::Guard;
use crate::parts::is_part;
use crate::places::{Source, is_heard, sender};
use crate::socket::{Patience, Socket};
use nop_types::Bytes;
use outside::{Link, LinkError};
use resending::{Ack, MOST_WINDOW, Receipts, Repeats, is_request, name_of};
use std::alloc::Global;
use std::os::fd::{AsRawFd, RawFd};
use std::time::Clock;

/// How many acknowledgements a poll reads at most: as many as it may have caused, with six parts to each of six ports.
const MOST_ACKS: usize = MOST_WINDOW;

/// A datagram socket at a port, with counts of its errors. The parts of a long message are sent while it
/// is polled, as those before them are acknowledged.
#[derive(Drop)]
pub struct UdpLink<'a, R: Clock> {
    socket: Socket<'a, R>,
    port: u16,
    waits: bool,
    guard: Option<Guard>,
    flows: Flows,
    receipts: Receipts,
    repeats: Repeats,
    faults: u64,
    losses: u64,
}

/// Sends a datagram, or keeps a part; else it is lost, also where there is no memory to keep it.
fn send_or_keep<R: Clock>(
    flows: &mut Flows,
    socket: &Socket<'_, R>,
    port: u16,
    bytes: &[u8],
) -> bool
    ensures part { IsPart bytes.now → AdmitsPart port bytes.now flows.old flows.new result }
    ensures other { ¬ IsPart bytes.now → flows.new ≡ flows.old }
{
    if !is_part(bytes) {
        return socket.has_sent(port, bytes);
    }
    flows.send(port, bytes, socket)
}

/// Heeds an acknowledgement. Any other datagram is left to the node.
fn heed<R: Clock>(flows: &mut Flows, socket: &Socket<'_, R>, from: u16, bytes: &[u8]) -> bool
    ensures ack { IsTrue result → HeedsAck from bytes.now flows.old flows.new }
    ensures other { IsFalse result → IsNoAck bytes.now × (flows.new ≡ flows.old) }
{
    let Some(ack) = Ack::read(bytes) else {
        return false;
    };
    flows.acknowledge(from, &ack, socket);
    true
}

/// Acknowledges what came, where it is a part and an acknowledgement is due.
fn acknowledge_part<R: Clock>(
    socket: &Socket<'_, R>,
    receipts: &mut Receipts,
    from: u16,
    bytes: &[u8],
)
    ensures part { IsPart bytes.now → receipts.new
        ≡ recorded from (name_of bytes.now) receipts.old }
    ensures other { ¬ IsPart bytes.now → receipts.new ≡ receipts.old }
{
    if !is_part(bytes) {
        return;
    }
    if let Some(answer) = receipts.record(from, name_of(bytes)) {
        let _sent = socket.has_sent(answer.port, &answer.ack.to_bytes());
    }
}

/// Acknowledges the parts that came and are not acknowledged yet.
fn acknowledge_rest<R: Clock>(socket: &Socket<'_, R>, receipts: &mut Receipts)
    ensures { receipts.new ≡ all_settled receipts.old }
{
    let lanes = receipts.lanes();
    for lane in 0..lanes {
        if let Some(answer) = receipts.take(lane) {
            let _sent = socket.has_sent(answer.port, &answer.ack.to_bytes());
        }
    }
}

/// Takes a greeting, where a link has a guard. Whether the bytes are one.
fn greet<R: Clock>(
    guard: &mut Option<Guard>,
    socket: &Socket<'_, R>,
    source: Source,
    bytes: &[u8],
) -> bool
    ensures { MayGoOn guard.old guard.new }
{
    let Source::Known(from) = source else {
        return false;
    };
    match guard {
        Some(guard) => guard.greet(socket, from, bytes),
        None => false,
    }
}

/// Claims the own number at those that have not noted it, where a link has a guard.
fn remind<R: Clock>(guard: &mut Option<Guard>, socket: &Socket<'_, R>)
    ensures { MayGoOn guard.old guard.new }
{
    let Some(places) = socket.places() else {
        return;
    };
    if let Some(guard) = guard {
        guard.remind(socket, places);
    }
}

/// Notes a request for a view change that is sent to a port. Without memory for it, it is not repeated there.
fn note<R: Clock>(repeats: &mut Repeats, socket: &Socket<'_, R>, port: u16, bytes: &[u8])
    ensures { ¬ IsRequest bytes.now → repeats.new ≡ repeats.old }
{
    if is_request(bytes) {
        let _refused = repeats.note(port, bytes, socket.micros().unwrap_or(0));
    }
}

/// Sends the last request for a view change again, where it is time to.
fn repeat<R: Clock>(repeats: &mut Repeats, socket: &Socket<'_, R>)
    ensures { (now : ℕ) × (repeats.new ≡ repeated now repeats.old) }
{
    if !repeats.is_due(socket.micros().unwrap_or(0)) {
        return;
    }
    for port in repeats.ports() {
        let _sent = socket.has_sent(*port, repeats.request());
    }
}

/// The next datagram that is heard: no acknowledgement, and no greeting where the link has a guard.
fn receive<R: Clock>(
    socket: &mut Socket<'_, R>,
    guard: &mut Option<Guard>,
    flows: &mut Flows,
    receipts: &mut Receipts,
    patience: Patience,
) -> Result<Option<Bytes>, LinkError>
    ensures short { IfOk result (λ r. IfSome r (λ datagram. length datagram
        ≤ MAX_DATAGRAM_BYTES)) }
    ensures heeded { IfOk result (λ r. IfSome r IsNoAck) }
    ensures heard { IfOk result (λ r. IfSome r (IsHeard (is_some guard.old)
        (option_copied socket.old.places))) }
    ensures settled { result ≡ Ok None → receipts.new ≡ all_settled receipts.old }
    ensures recorded { IfOk result (λ r. IfSome r (λ datagram. IsPart datagram
        → (from : ℕ) × (receipts.new ≡ recorded from (name_of datagram) receipts.old))) }
    ensures guard { MayGoOn guard.old guard.new }
{
    let guarded = guard.is_some();
    let mut patience = patience;
    for _ in 0..MOST_ACKS {
        let Some(received) = socket.receive(patience)? else {
            break;
        };
        patience = Patience::Returns;
        let Some(from) = sender(received.source) else {
            continue;
        };
        if greet(guard, socket, received.source, received.bytes.as_slice())
            || heed(flows, socket, from, received.bytes.as_slice())
        {
            continue;
        }
        if is_heard(guarded, received.source, received.bytes.as_slice()) {
            acknowledge_part(socket, receipts, from, received.bytes.as_slice());
            return Ok(Some(received.bytes));
        }
    }
    acknowledge_rest(socket, receipts);
    Ok(None)
}

impl<'a, R: Clock> UdpLink<'a, R> {
    /// A link over a socket at this port. A poll waits a short time, or not at all.
    pub(crate) fn new(
        alloc: Global,
        socket: Socket<'a, R>,
        port: u16,
        waits: bool,
        guard: Option<Guard>,
    ) -> UdpLink<'a, R>
        ensures port { result.port ≡ port }
        ensures guard { result.guard ≡ guard }
        ensures faults { result.faults ≡ 0 }
        ensures losses { result.losses ≡ 0 }
    {
        UdpLink {
            socket,
            port,
            waits,
            guard,
            flows: Flows::new(alloc),
            receipts: Receipts::new(),
            repeats: Repeats::new(alloc),
            faults: 0,
            losses: 0,
        }
    }

    /// While parts wait, a poll that waits is kept short, so that they go in time.
    fn patience(&self) -> Patience {
        if !self.waits {
            Patience::Returns
        } else if self.flows.is_pressing() {
            Patience::Naps
        } else {
            Patience::Waits
        }
    }

    /// Sends all that still waits, for a link that is not polled any more. It stays among what waits.
    pub(crate) fn send_rest(&self) {
        self.flows.send_rest(&self.socket);
    }
}

/// For whoever waits until something comes at the link.
impl<'a, R: Clock> AsRawFd for UdpLink<'a, R> {
    fn as_raw_fd(&self) -> RawFd {
        self.socket.as_raw_fd()
    }
}

impl<'a, R: Clock> Link for UdpLink<'a, R> {
    ghost use Rattle.std.specs.Prelude.{None};

    ghost answers = { λ _. None };

    ghost trace = { λ _. None };

    ghost own_port = { λ s. s.port };

    ghost fault_count = { λ s. s.faults };

    ghost loss_count = { λ s. s.losses };

    /// What waited and cannot be sent now is counted as lost. At `NoMemory` no datagram was received.
    fn poll(&mut self) -> Result<Option<Bytes>, LinkError> {
        let failed = self.flows.begin_turn(&self.socket);
        self.losses = self.losses.saturating_add(failed);
        remind(&mut self.guard, &self.socket);
        repeat(&mut self.repeats, &self.socket);
        let patience = self.patience();
        let answer = receive(
            &mut self.socket,
            &mut self.guard,
            &mut self.flows,
            &mut self.receipts,
            patience,
        );
        if let Err(LinkError::Failed) = answer {
            self.faults = self.faults.saturating_add(1);
        }
        answer
    }

    /// A part that is kept is answered by Ok. It is sent at a later poll.
    fn send(&mut self, port: u16, bytes: &[u8]) -> Result<(), LinkError> {
        note(&mut self.repeats, &self.socket, port, bytes);
        if send_or_keep(&mut self.flows, &self.socket, port, bytes) {
            return Ok(());
        }
        self.losses = self.losses.saturating_add(1);
        Err(LinkError::Failed)
    }

    fn port(&self) -> u16 {
        self.port
    }

    fn faults(&self) -> u64 {
        self.faults
    }

    fn losses(&self) -> u64 {
        self.losses
    }
}
