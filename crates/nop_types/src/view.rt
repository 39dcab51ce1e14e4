ghost use Rattle.std.specs.Prelude.{◌≡◌, ◌↔◌, ◌≤◌, ◌<◌, IsTrue};
ghost use Rattle.nop_types.specs.Views.{AtMost, greater, is_view, join_of, leader_of, outranks};

/// A view: a leader number, and the session of the sequencer. The leader number is no replica's number; `leader_of` says
/// which replica leads. A session is an epoch times 2^32 plus a count; `specs/Sessions` says which controller gives it out.
#[derive(Clone, Copy, Debug, PartialEq, Eq)]
pub struct View {
    pub leader: u32,
    pub session: u64,
}

impl View {
    /// Whether each part of the one is at most that of the other.
    pub fn le(a: View, b: View) -> bool
        ensures { IsTrue result ↔ AtMost a b }
    {
        a.leader <= b.leader && a.session <= b.session
    }

    /// The least view above both: the greater of each part.
    pub fn join(a: View, b: View) -> View
        ensures { result ≡ join_of a b }
    {
        View {
            leader: a.leader.max(b.leader),
            session: a.session.max(b.session),
        }
    }

    /// Whether this is the other view.
    pub fn is(self, other: View) -> bool
        ensures { result ≡ is_view self other }
    {
        self.leader == other.leader && self.session == other.session
    }

    /// Whether this view ranks above the other one: by session, then by leader number.
    pub fn outranks(self, other: View) -> bool
        ensures { result ≡ outranks self other }
    {
        self.session > other.session
            || (self.session == other.session && self.leader > other.leader)
    }
}

/// The one of two views that ranks above the other.
pub fn greater(a: View, b: View) -> View
    ensures { result ≡ greater a b }
{
    if b.outranks(a) { b } else { a }
}

/// The replica that leads a view, of n replicas.
pub fn leader_of(view: View, n: u8) -> u8
    requires { 1 ≤ n }
    ensures leader { result ≡ leader_of view n }
    ensures within { result < n }
{
    (view.leader % n as u32) as u8
}

/// `join` is the least upper bound of two views.
pub fn join_is_least()
    ensures above_left { (a b : _) → AtMost a (join_of a b) }
    ensures above_right { (a b : _) → AtMost b (join_of a b) }
    ensures least { (a b c : _) → AtMost a c → AtMost b c → AtMost (join_of a b) c }
{}
