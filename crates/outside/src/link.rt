ghost use Rattle.std.specs.Prelude.{◌≡◌, ◌≤◌, List, ℕ, Option, length, IfOk, IfSome, OnOk, OnErr};
ghost use Rattle.nop_types.specs.declared.limits.TheConstants.{MAX_DATAGRAM_BYTES};
ghost use Rattle.outside.specs.Causes.{count_after};
ghost use Rattle.outside.specs.Links.{Polls, TracesPoll};
ghost use Rattle.outside.specs.Observed.{Stays, Adds, StaysIfObserved};
ghost use Rattle.outside.specs.declared.link.PollAnswer.{PollAnswer};
ghost use Rattle.outside.specs.declared.link.LinkCall.{LinkCall};
ghost use Rattle.outside.specs.declared.link.LinkCall.TheVariants as calls;

use crate::LinkError;
use nop_types::Bytes;

/// What a poll answers: a datagram, nothing, or that the link failed.
#[derive(Drop)]
pub enum PollAnswer {
    Received(Bytes),
    Nothing,
    Failure,
}

/// A call on a link: a poll, whatever it answered, or a datagram that was sent, with the port that it was sent to.
#[derive(Drop)]
pub enum LinkCall {
    Polled,
    Sent { port: u16, bytes: Bytes },
}

/// A node's connection to the network: it sends datagrams to ports, and receives those that were sent to its own port.
pub trait Link {
    /// What the polls to come answer, where the link is observable. After the last answer there is no datagram.
    ghost answers: { Self → Option (List PollAnswer) };

    /// The polls that were made and the datagrams that were sent, in order, where the link is observable.
    ghost trace: { Self → Option (List LinkCall) };

    /// Its own port, which no call changes.
    ghost own_port: { Self → ℕ };

    /// How many polls failed.
    ghost fault_count: { Self → ℕ };

    /// How many datagrams could not be sent.
    ghost loss_count: { Self → ℕ };

    /// The next datagram, of at most `MAX_DATAGRAM_BYTES` bytes. None where this poll has none. `Failed` where the link failed:
    /// the count of faults rises. `NoMemory` where no memory is left for the datagram, which may be lost then. A link that
    /// is not observable may find at a poll that datagrams given to it before could not be sent: it counts them then.
    fn poll(&mut self) -> Result<Option<Bytes>, LinkError>
        ensures short { IfOk result (λ r. IfSome r (λ datagram. length datagram
            ≤ MAX_DATAGRAM_BYTES)) }
        ensures answer { Polls (answers self.old) (answers self.new) result }
        ensures trace { TracesPoll (trace self.old) (trace self.new) result }
        ensures later { fault_count self.old ≤ fault_count self.new }
        ensures count { fault_count self.new ≡ count_after result (fault_count self.old) }
        ensures losses { loss_count self.old ≤ loss_count self.new }
        ensures observed { StaysIfObserved (trace self.old) (loss_count self.old)
            (loss_count self.new) }
        ensures port { own_port self.new ≡ own_port self.old };

    /// Sends the bytes to a port. `Failed` where they could not be sent: the count of losses rises by one, and not that of
    /// faults. At Ok and `NoMemory` neither does. At an error nothing was sent.
    fn send(&mut self, port: u16, bytes: &[u8]) -> Result<(), LinkError>
        ensures ok { OnOk result
            (Adds (trace self.old) (trace self.new) (calls.Sent port bytes.now)) }
        ensures err { OnErr result (Stays (trace self.old) (trace self.new)) }
        ensures later { loss_count self.old ≤ loss_count self.new }
        ensures count { loss_count self.new ≡ count_after result (loss_count self.old) }
        ensures faults { fault_count self.new ≡ fault_count self.old }
        ensures answers { Stays (answers self.old) (answers self.new) }
        ensures port { own_port self.new ≡ own_port self.old };

    /// Its own port.
    fn port(&self) -> u16
        ensures { result ≡ own_port self.now };

    /// How many polls failed, up to the greatest number of 64 bits.
    fn faults(&self) -> u64
        ensures { result ≡ fault_count self.now };

    /// How many datagrams could not be sent, up to the greatest number of 64 bits.
    fn losses(&self) -> u64
        ensures { result ≡ loss_count self.now };
}
