ghost use Rattle.std.specs.Prelude.{◌≡◌, ◌<◌, ◌≤◌, ◌*◌, All, length, OnOk, OnErr, IfOk};
ghost use Rattle.nop_types.specs.declared.limits.TheConstants.{MAX_UNFINISHED};
ghost use Rattle.fragments.specs.Held.{held};
ghost use Rattle.fragments.specs.Joining.{is_in_range, opening, taken};
ghost use Rattle.fragments.specs.Runs.{WaitingFits};

use crate::queue::Queue;
use nop_types::{Bytes, FRAGMENT_BYTES, Fragment, MAX_FRAGMENTS, NoMemory};
use std::alloc::Global;
use std::marker::Model;

/// The unfinished messages of each sender, which are numbered from 0. Whatever came, no sender has more than `MAX_UNFINISHED` of them,
/// none has more than `MAX_FRAGMENTS` parts, and no part has more than `FRAGMENT_BYTES` bytes.
#[derive(Drop)]
pub struct Reassembly {
    senders: Vec<Queue>,
}

impl Model for Reassembly {
    ghost use Rattle.std.specs.Prelude.{List, All};
    ghost use Rattle.fragments.specs.Parts.{Partial};
    ghost use Rattle.fragments.specs.Runs.{WaitingFits};

    ghost Value = { List (List Partial) };

    ghost view = { λ r. r.senders.items };

    ghost invariant = { λ r. All WaitingFits r.senders.items };
}

/// Whether index and count go together, and the payload is as long as its index wants it.
fn is_in_range(fragment: &Fragment) -> bool
    ensures { result ≡ is_in_range fragment.now }
{
    let len = fragment.payload.as_slice().len();
    fragment.index < fragment.count
        && fragment.count as usize <= MAX_FRAGMENTS
        && 0 < len
        && len <= FRAGMENT_BYTES
        && (fragment.count as usize <= fragment.index as usize + 1 || FRAGMENT_BYTES <= len)
}

impl Reassembly {
    /// With nothing kept of any of `n` senders.
    pub fn new(alloc: Global, n: u8) -> Result<Reassembly, NoMemory>
        ensures { IfOk result (λ r. r ≡ opening n) }
    {
        let mut senders = Vec::with_capacity(alloc, n as usize)?;
        for _ in 0..n {
            senders.push(Queue::new(alloc))?;
        }
        Ok(Reassembly { senders })
    }

    /// How many senders there are.
    pub fn senders(&self) -> usize
        ensures senders { result ≡ length self.now }
        ensures within { All WaitingFits self.now }
    {
        self.senders.len()
    }

    /// How many bytes of payloads are kept of a sender, 0 where there is no such sender.
    pub fn held(&self, sender: u8) -> u64
        ensures bytes { result ≡ held self.now sender }
        ensures limit { result ≤ MAX_UNFINISHED * (MAX_FRAGMENTS * FRAGMENT_BYTES) }
    {
        match self.senders.get(sender as usize) {
            Some(queue) => queue.held(),
            None => 0,
        }
    }

    /// Takes a fragment, and gives the bytes of the message that it completes. None where parts of its message are missing
    /// after it, and where the fragment changes nothing: it is out of its ranges, has another count than the one that is
    /// kept, or an index that is there. An unfinished message of a sender beyond `MAX_UNFINISHED` drops the one that was begun
    /// first.
    pub fn take(&mut self, fragment: &Fragment) -> Result<Option<Bytes>, NoMemory>
        requires { fragment.now.replica < length self.old }
        ensures gives { IfOk result (λ r. r ≡ (taken self.old fragment.now).1) }
        ensures kept { OnOk result (self.new ≡ (taken self.old fragment.now).0) }
        ensures err { OnErr result (self.new ≡ self.old) }
        ensures senders { length self.new ≡ length self.old }
    {
        if !is_in_range(fragment) {
            return Ok(None);
        }
        let queue = &mut self.senders[fragment.replica as usize];
        queue.take(fragment)
    }
}
