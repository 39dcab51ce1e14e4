ghost use Rattle.std.specs.Prelude.{◌≡◌, ◌≤◌, List, ℕ, Option, IfOk, IfSome, OnOk, OnErr};
ghost use Rattle.outside.specs.Causes.{count_after};
ghost use Rattle.outside.specs.Observed.{Adds, Stays};
ghost use Rattle.users.specs.Events.{Gives, IsShort, Traces};
ghost use Rattle.users.specs.declared.event.UserAnswer.{UserAnswer};
ghost use Rattle.users.specs.declared.event.UserCall.{UserCall};
ghost use Rattle.users.specs.declared.event.UserCall.TheVariants as calls;

use crate::event::UserEvent;
use nop_types::NoMemory;
use outside::DeviceError;

/// Connections of users.
pub trait Users {
    /// What the calls of `next` to come answer, where the users are observable. After the last answer there is no event.
    ghost to_come: { Self → Option (List UserAnswer) };

    /// The events that were given, the replies and the closes, in order, where the users are observable.
    ghost trace: { Self → Option (List UserCall) };

    /// How many calls of `next` failed.
    ghost fault_count: { Self → ℕ };

    /// The next event, None where there is none yet; its bytes are at most `MAX_EVENT_BYTES`. Waits for at most `patience` milliseconds for
    /// one: at 0 it answers at once. `Failed` where the device failed as a whole, and not where a connection did: the count of
    /// faults rises. `NoMemory` where no memory is left for the event, which may be lost then.
    fn next(&mut self, patience: u32) -> Result<Option<UserEvent>, DeviceError>
        ensures short { IfOk result (λ r. IfSome r IsShort) }
        ensures answer { Gives (to_come self.old) (to_come self.new) result }
        ensures trace { Traces (trace self.old) (trace self.new) result }
        ensures later { fault_count self.old ≤ fault_count self.new }
        ensures count { fault_count self.new ≡ count_after result (fault_count self.old) };

    /// Gives bytes to a user; they are sent as its connection takes them. A user that left is given nothing. At an error nothing is sent.
    fn reply(&mut self, user: u64, bytes: &[u8]) -> Result<(), NoMemory>
        ensures ok { OnOk result
            (Adds (trace self.old) (trace self.new) (calls.Replied user bytes.now)) }
        ensures err { OnErr result (Stays (trace self.old) (trace self.new)) }
        ensures kept { Stays (to_come self.old) (to_come self.new) }
        ensures faults { fault_count self.new ≡ fault_count self.old };

    /// Ends a connection once all its replies are sent. No event of it comes after this. At an error it stays.
    fn close(&mut self, user: u64) -> Result<(), NoMemory>
        ensures ok { OnOk result
            (Adds (trace self.old) (trace self.new) (calls.Closed user)) }
        ensures err { OnErr result (Stays (trace self.old) (trace self.new)) }
        ensures kept { Stays (to_come self.old) (to_come self.new) }
        ensures faults { fault_count self.new ≡ fault_count self.old };

    /// How many calls of `next` failed, up to the greatest number of 64 bits.
    fn faults(&self) -> u64
        ensures { result ≡ fault_count self.now };
}
