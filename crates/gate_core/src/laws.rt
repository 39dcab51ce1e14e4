//! What holds of a gateway over any events, in any order.

ghost use Rattle.std.specs.Prelude.{◌≡◌, ◌++◌, ℕ, List, [], Option, None, true};
ghost use Rattle.nop_types.specs.Configuration.{Configuration};
ghost use Rattle.gate_core.specs.Gates.{is_new, opening, session_of};
ghost use Rattle.gate_core.specs.Runs.{after, gave, heard, replies_to, near_after, told_by_desk, told_of, watched};
ghost use Rattle.gate_core.specs.Runs.{IsNoOpeningOf, IsServedFrom};
ghost use Rattle.gate_core.specs.declared.act.Act.TheVariants.{Close};
ghost use Rattle.gate_core.specs.declared.act.Event.{Event};
ghost use Rattle.nop_types.specs.Lists.{Has};
ghost use Rattle.nop_types.specs.Machine.{Machine};
ghost use Rattle.observer.specs.ObserverSteps.{Observer};
ghost use Rattle.watching.specs.Watching.{Watching};

/// Of a user that connects after some events: the bytes that it sent begin with requests, and what
/// it was replied are their replies, one each and in order. Where one asks for an op, its reply is
/// the form of a result that the desk told for a ticket, under which it took this op for this user.
/// Where one asks for a read of a key, its reply is the value in an answer which an observer gave
/// to a core that asked it for this key, once the whole request had come, from a position that is
/// not below the slot or position of any result in the replies before; or it is the value that the
/// near observer had, as it stood once the whole request had come, at such a position. Where one
/// asks for what is known, its reply has the lines that the watch showed last when this very request
/// was read. Behind them is nothing, or why the gateway ended the connection.
pub fn replies_are_of_requests()
    ensures { (config : Configuration) (first count : ℕ) (watch : Option Watching)
        (near : Option (Machine Observer)) (before later : List Event) (user : ℕ)
        → is_new (after (opening config first count watch near) before) user ≡ true
        → IsServedFrom (opening config first count watch near) before later user }
{}

/// The watch at any time is the one that took the turns before, in order, as `watching` has them. So
/// the laws of that say what is shown.
pub fn the_watch_takes_its_turns()
    ensures { (config : Configuration) (first count : ℕ) (watch : Option Watching)
        (near : Option (Machine Observer)) (es : List Event)
        → (after (opening config first count watch near) es).watch ≡ watched watch es }
{}

/// The near observer at any time is the one that heard the datagrams that came with the turns
/// before, in order, by the step table of an observer.
pub fn the_near_observer_hears()
    ensures { (config : Configuration) (first count : ℕ) (watch : Option Watching)
        (near : Option (Machine Observer)) (es : List Event)
        → (after (opening config first count watch near) es).near ≡ near_after near es }
{}

/// What the laws speak of as heard of the desk is what the desk tells of the events that it is told,
/// from then on, so that the laws of `desk` say what it is.
pub fn hears_what_the_desk_tells()
    ensures { (config : Configuration) (first count : ℕ) (watch : Option Watching)
        (near : Option (Machine Observer)) (before later : List Event) (user : ℕ)
        → told_by_desk (opening config first count watch near) (before ++ later)
        ≡ told_by_desk (opening config first count watch near) before
        ++ told_of (heard user 0 (after (opening config first count watch near) before) later) }
{}

/// Who is not connected is replied nothing until it connects.
pub fn nobody_else_is_replied_to()
    ensures { (config : Configuration) (first count : ℕ) (watch : Option Watching)
        (near : Option (Machine Observer)) (before later : List Event) (user : ℕ)
        → session_of (after (opening config first count watch near) before) user ≡ None
        → IsNoOpeningOf user later
        → replies_to user (gave (after (opening config first count watch near) before) later) ≡ [] }
{}

/// Once its connection is ended, a user is replied nothing.
pub fn nothing_follows_a_close()
    ensures { (config : Configuration) (first count : ℕ) (watch : Option Watching)
        (near : Option (Machine Observer)) (before later : List Event) (user : ℕ)
        → Has (gave (opening config first count watch near) before) (Close user)
        → replies_to user (gave (after (opening config first count watch near) before) later) ≡ [] }
{}
