//! What is kept of what was told.

ghost use Rattle.std.specs.Prelude.{◌≡◌, ◌≤◌, ◌-◌};
ghost use Rattle.watching.specs.Watching.{change_by, first_seen, is_news, is_same, known_after};
ghost use Rattle.watching.specs.Watching.{next_second, rate_at, seen_after, state_at};

use crate::lines::{Change, State};
use crate::telling::Telling;
use nop_types::View;

/// How long a second is, in milliseconds.
pub(crate) const SECOND_MILLIS: u64 = 1000;

const _: () = prove!(SECOND_MILLIS == 1000);

/// What is known of a cluster. Times are in milliseconds.
#[derive(Clone, Copy)]
pub(crate) struct Known {
    /// The greatest view that something was told of.
    pub(crate) view: View,
    /// The greatest length that was told.
    pub(crate) synced: u32,
    /// When something of this view was told last.
    pub(crate) told: u64,
}

/// What is known, when the second that runs began, and the length that was known then.
#[derive(Clone, Copy)]
pub(crate) struct Seen {
    pub(crate) known: Known,
    pub(crate) since: u64,
    pub(crate) before: u32,
}

impl Known {
    /// After something was told.
    fn after(self, now: u64, telling: Telling) -> Known
        ensures { result ≡ known_after self now telling }
    {
        if self.view.outranks(telling.view) {
            return self;
        }
        Known {
            view: telling.view,
            synced: self.synced.max(telling.len),
            told: now,
        }
    }
}

/// What is seen once something was told first.
fn first_seen(now: u64, telling: Telling) -> Seen
    ensures { result ≡ first_seen now telling }
{
    Seen {
        known: Known {
            view: telling.view,
            synced: telling.len,
            told: now,
        },
        since: now,
        before: telling.len,
    }
}

/// What is seen after something was told.
pub(crate) fn seen_after(seen: Option<Seen>, now: u64, telling: Telling) -> Seen
    ensures { result ≡ seen_after seen now telling }
{
    match seen {
        Some(seen) => Seen {
            known: seen.known.after(now, telling),
            ..seen
        },
        None => first_seen(now, telling),
    }
}

/// The change of the view, where what is told is of a greater one.
pub(crate) fn change_by(seen: Option<Seen>, now: u64, telling: Telling) -> Option<Change>
    ensures { result ≡ change_by seen now telling }
{
    let seen = seen?;
    if !telling.view.outranks(seen.known.view) {
        return None;
    }
    Some(Change {
        view: telling.view,
        at: now,
    })
}

impl Seen {
    /// Slots a second, in the second that ends now.
    fn rate_at(self, now: u64) -> u64
        requires { SECOND_MILLIS ≤ now - self.since }
        ensures { result ≡ rate_at self now }
    {
        let slots = u64::from(self.known.synced.saturating_sub(self.before));
        slots * SECOND_MILLIS / (now - self.since)
    }

    /// The state at the end of the second.
    pub(crate) fn state_at(self, now: u64) -> State
        requires { SECOND_MILLIS ≤ now - self.since }
        ensures { result ≡ state_at self now }
    {
        State {
            view: self.known.view,
            synced: self.known.synced,
            rate: self.rate_at(now),
            age: now.saturating_sub(self.known.told),
        }
    }

    /// The next second begins.
    pub(crate) fn next_second(self, now: u64) -> Seen
        ensures { result ≡ next_second self now }
    {
        Seen {
            since: now,
            before: self.known.synced,
            ..self
        }
    }
}

/// Whether two states are alike but for the age.
fn is_same(a: State, b: State) -> bool
    ensures { result ≡ is_same a b }
{
    a.view.is(b.view) && a.synced == b.synced && a.rate == b.rate
}

/// Whether a state is to be shown after another one.
pub(crate) fn is_news(shown: Option<State>, state: State) -> bool
    ensures { result ≡ is_news shown state }
{
    match shown {
        Some(last) => !is_same(last, state) || state.age >= SECOND_MILLIS,
        None => true,
    }
}
