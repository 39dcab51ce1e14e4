//! Which actors send a datagram, by its kind and by the sender that it names.

ghost use Rattle.std.specs.Prelude.{◌≡◌};
ghost use Rattle.admission.specs.Sources.{comes_from, has_byte, is_kind, names_place};

use nop_types::Actor;
use nop_types::kinds::{
    ANSWER, FRAGMENT, INSTALL, INSTALLED, KIND_PLACE, PING, PONG, READ, REPLY, REQUEST, STAMPED,
};

/// Where a datagram has the number of its replica, its observer or its controller.
const FIRST_PLACE: usize = 4;

/// Where it has that of its sequencer, behind that of its controller.
const SECOND_PLACE: usize = 5;

/// Where it has the last byte of its client's number.
const CLIENT_PLACE: usize = 7;

// A number that both code and definitions name would be proved whatever it was; so here each stands once more.
const _: () = prove!(FIRST_PLACE == 4 && SECOND_PLACE == 5 && CLIENT_PLACE == 7);

fn has_byte(bytes: &[u8], place: usize, b: u8) -> bool
    ensures { result ≡ has_byte bytes.now place b }
{
    place < bytes.len() && bytes[place] == b
}

fn is_kind(bytes: &[u8], kind: u8) -> bool
    ensures { result ≡ is_kind bytes.now kind }
{
    has_byte(bytes, KIND_PLACE, kind)
}

fn names_place(bytes: &[u8], place: u32) -> bool
    ensures { result ≡ names_place bytes.now place }
{
    CLIENT_PLACE < bytes.len() && u32::from(bytes[CLIENT_PLACE] % 16) == place
}

/// Whether this actor may send a datagram with these bytes, a client's place those of all its clients.
#[tactic(auto, unfolding(crate::specs::Sources::comes_from))]
pub fn comes_from(bytes: &[u8], source: Actor) -> bool
    ensures { result ≡ comes_from bytes.now source }
{
    match source {
        Actor::Replica(i) => (is_kind(bytes, REPLY) || is_kind(bytes, FRAGMENT))
            && has_byte(bytes, FIRST_PLACE, i),
        Actor::Sequencer(i) => is_kind(bytes, STAMPED)
            || ((is_kind(bytes, INSTALLED) || is_kind(bytes, PONG))
                && has_byte(bytes, SECOND_PLACE, i)),
        Actor::Client(i) => (is_kind(bytes, REQUEST) || is_kind(bytes, READ))
            && names_place(bytes, i),
        Actor::Controller(i) => (is_kind(bytes, INSTALL) || is_kind(bytes, PING))
            && has_byte(bytes, FIRST_PLACE, i),
        Actor::Observer(i) => is_kind(bytes, ANSWER) && has_byte(bytes, FIRST_PLACE, i),
    }
}
