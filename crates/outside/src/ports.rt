ghost use Rattle.std.specs.Prelude.{◌≡◌, ◌+◌, ◌++◌, ◌∷◌, ◌<◌, ◌≤◌, [], List, ℕ, Option, length, IfOk, OnOk, OnErr};
ghost use Rattle.outside.specs.Causes.{count_after};
ghost use Rattle.outside.specs.Ports.{GivesNext};
ghost use Rattle.outside.specs.Observed.{Stays};
ghost use Rattle.outside.specs.declared.link.PollAnswer.{PollAnswer};

use crate::{AttachError, Link};

/// Where links come from, and where they are given back.
pub trait Ports {
    type L: Link;

    /// What the polls of the links to come answer, for each link in order, where the ports are observable. A link after the last
    /// one has no datagrams.
    ghost to_come: { Self → Option (List (List PollAnswer)) };

    /// How many links were attached.
    ghost attached: { Self → ℕ };

    /// The links that were given back, in order.
    ghost detached: { Self → List Self.L };

    /// How many attaches failed.
    ghost fault_count: { Self → ℕ };

    /// A link at this port, on which no call was made. It makes the room for the link to be given back. `Failed` where the port
    /// could not be opened: the count of faults rises by one. At Ok and `NoMemory` it stays. At an error no link is attached.
    fn attach(&mut self, port: u16) -> Result<Self::L, AttachError>
        ensures port { IfOk result (λ link. Self.L.own_port link ≡ port) }
        ensures faults { IfOk result (λ link. Self.L.fault_count link ≡ 0) }
        ensures losses { IfOk result (λ link. Self.L.loss_count link ≡ 0) }
        ensures content { IfOk result (λ link.
            GivesNext (to_come self.old) (to_come self.new) (Self.L.answers link)
            (Self.L.trace link)) }
        ensures attached { OnOk result (attached self.new ≡ attached self.old + 1) }
        ensures room { OnOk result (length (detached self.new) < attached self.new) }
        ensures err { OnErr result (attached self.new ≡ attached self.old) }
        ensures kept { OnErr result (Stays (to_come self.old) (to_come self.new)) }
        ensures detached { detached self.new ≡ detached self.old }
        ensures later { fault_count self.old ≤ fault_count self.new }
        ensures count { fault_count self.new ≡ count_after result (fault_count self.old) };

    /// Gives a link back, which the ports then hold. It takes no memory.
    fn detach(&mut self, link: Self::L)
        requires { length (detached self.old) < attached self.old }
        ensures detached { detached self.new ≡ detached self.old ++ link ∷ [] }
        ensures attached { attached self.new ≡ attached self.old }
        ensures kept { Stays (to_come self.old) (to_come self.new) }
        ensures faults { fault_count self.new ≡ fault_count self.old };

    /// How many attaches failed, up to the greatest number of 64 bits.
    fn faults(&self) -> u64
        ensures { result ≡ fault_count self.now };
}
