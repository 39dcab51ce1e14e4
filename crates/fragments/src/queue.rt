ghost use Rattle.std.specs.Prelude.{◌≡◌, ◌==◌, ◌<◌, ◌^◌, [], true, length, slice_get, OnOk, OnErr, IfOk};
ghost use Rattle.fragments.specs.Held.{held_of};
ghost use Rattle.fragments.specs.Joining.{begun, is_in_range, place, started, found, joined};
ghost use Rattle.fragments.specs.Runs.{WaitingFits};

use crate::unfinished::Unfinished;
use nop_types::{Bytes, Fragment, MAX_UNFINISHED, NoMemory};
use std::alloc::Global;
use std::marker::Model;

/// The unfinished messages of one sender, in the order in which they were begun.
#[derive(Drop)]
pub(crate) struct Queue {
    messages: Vec<Unfinished>,
}

impl Model for Queue {
    ghost use Rattle.std.specs.Prelude.{List, length, ◌≤◌};
    ghost use Rattle.nop_types.specs.declared.limits.TheConstants.{MAX_UNFINISHED};
    ghost use Rattle.fragments.specs.Parts.{Partial};

    ghost Value = { List Partial };

    ghost view = { λ q. q.messages.items };

    ghost invariant = { λ q. length q.messages.items ≤ MAX_UNFINISHED };
}

/// A message that has this fragment alone.
#[tactic(auto, using(crate::proofs::Goes::open_in_range))]
fn begun(alloc: Global, fragment: &Fragment) -> Result<Unfinished, NoMemory>
    requires { is_in_range fragment.now ≡ true }
    ensures { IfOk result (λ u. u ≡ begun fragment.now) }
{
    let mut message = Unfinished::new(alloc, fragment.message, fragment.count)?;
    message.put(fragment.index as usize, &fragment.payload)?;
    Ok(message)
}

impl Queue {
    pub(crate) fn new(alloc: Global) -> Queue
        ensures { result ≡ [] }
    {
        Queue {
            messages: Vec::new(alloc),
        }
    }

    /// How many bytes of payloads are kept.
    #[tactic(auto, using(std::proofs::lemmas::List::Sums::sum_by_more, std::proofs::lemmas::List::Sums::sum_by_more_le))]
    pub(crate) fn held(&self) -> u64
        requires { held_of self.now < 2 ^ 64 }
        ensures { result ≡ held_of self.now }
    {
        let mut bytes = 0;
        for message in &self.messages {
            bytes += message.held();
        }
        bytes
    }

    fn place(&self, number: u64) -> Option<usize>
        ensures { result ≡ place self.now number }
    {
        self.messages.iter().position(|m| m.number() == number)
    }

    fn start(&mut self, fragment: &Fragment) -> Result<Option<Bytes>, NoMemory>
        requires { is_in_range fragment.now ≡ true }
        ensures gives { IfOk result (λ r.
            r ≡ (started self.old fragment.now (fragment.now.count == 1)).1) }
        ensures kept { OnOk result (self.new
            ≡ (started self.old fragment.now (fragment.now.count == 1)).0) }
        ensures err { OnErr result (self.new ≡ self.old) }
    {
        if fragment.count == 1 {
            let payload = fragment.payload.try_clone()?;
            return Ok(Some(payload));
        }
        let message = begun(*self.messages.allocator(), fragment)?;
        self.messages.push(message)?;
        if self.messages.len() > MAX_UNFINISHED {
            self.messages.remove(0);
        }
        Ok(None)
    }

    fn go_on(&mut self, at: usize, fragment: &Fragment) -> Result<Option<Bytes>, NoMemory>
        requires { at < length self.old }
        ensures gives { IfOk result (λ r.
            r ≡ (found self.old fragment.now at (slice_get self.old at)).1) }
        ensures kept { OnOk result (self.new
            ≡ (found self.old fragment.now at (slice_get self.old at)).0) }
        ensures err { OnErr result (self.new ≡ self.old) }
    {
        let index = fragment.index as usize;
        let message = &self.messages[at];
        if fragment.count as usize != message.count() || !message.is_open(index) {
            return Ok(None);
        }
        let message = &mut self.messages[at];
        if message.missing() == 1 {
            let bytes = message.complete(index, fragment.payload.as_slice())?;
            self.messages.remove(at);
            return Ok(Some(bytes));
        }
        message.put(index, &fragment.payload)?;
        Ok(None)
    }

    /// Takes a fragment that is in its ranges, and gives the message that it completes.
    pub(crate) fn take(&mut self, fragment: &Fragment) -> Result<Option<Bytes>, NoMemory>
        requires { is_in_range fragment.now ≡ true }
        ensures gives { IfOk result (λ r. r ≡ (joined self.old fragment.now).1) }
        ensures kept { OnOk result (self.new ≡ (joined self.old fragment.now).0) }
        ensures err { OnErr result (self.new ≡ self.old) }
        ensures fits { WaitingFits self.old → WaitingFits self.new }
    {
        match self.place(fragment.message) {
            None => self.start(fragment),
            Some(at) => self.go_on(at, fragment),
        }
    }
}
