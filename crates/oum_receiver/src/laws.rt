ghost use Rattle.std.specs.Prelude.{◌≡◌, ◌≢◌, ◌≤◌, ◌+◌, ℕ, Some, List};
ghost use Rattle.std.specs.FinMap as finite;
ghost use Rattle.nop_types.specs.declared.datagram.Stamped.{Stamped};
ghost use Rattle.nop_types.specs.Lists.{Has};
ghost use Rattle.nop_types.specs.Ranges.{StampedFits};
ghost use Rattle.oum_receiver.specs.Front.{Nothing, Message};
ghost use Rattle.oum_receiver.specs.Receiving.{Receiving, IsSound, opened, offered, front_of, front_taken, advanced};
ghost use Rattle.nop_types.specs.Stamps.{WasStamped};
ghost use Rattle.oum_receiver.specs.Runs.{Call, HandedUp, handed_up, packets_of, IsUninterrupted, IsConsecutive};
ghost use Rattle.oum_receiver.specs.Runs.{IsStampedBy, HaveOneRequest};

use nop_types::NUMBER_END;

/// Where no call is `advance` or `reset`, what is handed up has the receiver's session and consecutive numbers from its next
/// one on. So it is between two such calls in any list of calls.
pub fn hands_up_consecutive_numbers()
    ensures { (r : Receiving) (calls : List Call) → IsUninterrupted calls →
        IsConsecutive r.session r.next (handed_up r calls) }
{}

/// Whatever the calls, a request that is handed up was offered in a packet of that session and number.
pub fn hands_up_what_was_offered()
    ensures { (session next : ℕ) (calls : List Call) (h : HandedUp) (request : _) →
        Has (handed_up (opened session next) calls) h → h.request ≡ Some request →
        WasStamped (packets_of calls) h.session h.number request }
{}

/// Two receivers whose packets have one request for each session and number never hand up different requests at one session
/// and number.
pub fn receivers_agree()
    ensures { (s n t m : ℕ) (calls others : List Call) →
        HaveOneRequest (packets_of calls) (packets_of others) →
        (g h : HandedUp) → Has (handed_up (opened s n) calls) g →
        Has (handed_up (opened t m) others) h →
        g.session ≡ h.session → g.number ≡ h.number →
        (a b : _) → g.request ≡ Some a → h.request ≡ Some b → a ≡ b }
{}

/// Where each queued request is that of a packet with the receiver's session and its number, so it is after each call, and so
/// is the request in front.
pub fn queues_what_was_stamped()
    ensures opened { (packets : List Stamped) (session next : ℕ) →
        IsStampedBy packets (opened session next) }
    ensures offered { (packets : List Stamped) (r : Receiving) (packet : Stamped) →
        IsStampedBy packets r → Has packets packet → IsStampedBy packets (offered r packet) }
    ensures taken { (packets : List Stamped) (r : Receiving) →
        IsStampedBy packets r → IsStampedBy packets (front_taken r) }
    ensures advanced { (packets : List Stamped) (r : Receiving) (next : ℕ) →
        IsStampedBy packets r → IsStampedBy packets (advanced r next) }
    ensures front { (packets : List Stamped) (r : Receiving) (request : _) →
        IsStampedBy packets r → front_of r ≡ Message request → WasStamped packets r.session
        r.next request }
{}

/// Each call keeps a receiver sound.
pub fn stays_sound()
    ensures opened { (session next : ℕ) → next ≤ NUMBER_END →
        IsSound (opened session next) }
    ensures offered { (r : Receiving) (packet : Stamped) →
        IsSound r → StampedFits packet → IsSound (offered r packet) }
    ensures taken { (r : Receiving) → IsSound r → front_of r ≢ Nothing →
        IsSound (front_taken r) }
    ensures advanced { (r : Receiving) (next : ℕ) → IsSound r → next ≤ NUMBER_END →
        IsSound (advanced r next) }
{}

/// A request that is taken leaves the queue.
pub fn message_leaves_the_queue()
    ensures { (r : Receiving) (request : _) → front_of r ≡ Message request →
        finite.len (front_taken r).queued + 1 ≡ finite.len r.queued }
{}
