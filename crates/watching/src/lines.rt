//! What is shown, and its lines.

ghost use Rattle.std.specs.Prelude.{◌≡◌, ◌++◌, ◌≤◌, OnErr, OnOk};
ghost use Rattle.nop_types.specs.Sessions.{home};
ghost use Rattle.nop_types.specs.Views.{leader_of};
ghost use Rattle.watching.specs.Lines as lines;

use nop_types::{Actor, EPOCH_STEP, NoMemory, View, leader_of};
use transcript_text::{Field, write_line};

/// A state of a cluster.
#[derive(Clone, Copy, PartialEq, Eq)]
pub struct State {
    /// The view.
    pub view: View,
    /// The greatest length of the log that was told to be synchronised.
    pub synced: u32,
    /// How many slots a second were synchronised, in the second or more that is over.
    pub rate: u64,
    /// How long ago something was told of the view, in milliseconds.
    pub age: u64,
}

/// The view rose.
#[derive(Clone, Copy, PartialEq, Eq)]
pub struct Change {
    /// The new view.
    pub view: View,
    /// When it was told of, in milliseconds.
    pub at: u64,
}

/// The controller that gave out the session in use does not answer.
#[derive(Clone, Copy)]
pub struct Warning {
    /// Its number.
    pub controller: u8,
    /// Since when this is known, in milliseconds.
    pub since: u64,
}

/// The controller that gave out a session.
pub(crate) fn controller_of(session: u64) -> u8
    ensures { result ≡ home session }
{
    (session / 4_294_967_296 % EPOCH_STEP) as u8
}

/// The names of who leads a view of `replicas` replicas, and of whose session it has.
fn names_of(replicas: u8, view: View) -> (Field<'static>, Field<'static>)
    requires { 1 ≤ replicas }
    ensures leader { result.0 ≡ Field.Name (Actor.Replica (leader_of view replicas)) }
    ensures controller { result.1 ≡ Field.Name (Actor.Controller (home view.session)) }
{
    (
        Field::Name(Actor::Replica(leader_of(view, replicas))),
        Field::Name(Actor::Controller(controller_of(view.session))),
    )
}

/// Appends the line of a state of `replicas` replicas.
#[tactic(auto, unfolding(crate::specs::Lines::state_line))]
pub fn state_line(replicas: u8, state: &State, to: &mut Vec<u8>) -> Result<(), NoMemory>
    requires { 1 ≤ replicas }
    ensures ok { OnOk result (to.new.items ≡ to.old.items ++ lines.state_line replicas state.now) }
    ensures err { OnErr result (to.new.items ≡ to.old.items) }
{
    let (leader, controller) = names_of(replicas, state.view);
    let fields = [
        Field::Number(u64::from(state.view.leader)),
        Field::Number(state.view.session),
        Field::Word("leader"),
        leader,
        Field::Word("controller"),
        controller,
        Field::Word("synced"),
        Field::Number(u64::from(state.synced)),
        Field::Word("rate"),
        Field::Number(state.rate),
        Field::Word("age"),
        Field::Number(state.age),
    ];
    write_line("view", &fields, to)
}

/// Appends the line of a change of the view.
#[tactic(auto, unfolding(crate::specs::Lines::change_line))]
pub fn change_line(replicas: u8, change: &Change, to: &mut Vec<u8>) -> Result<(), NoMemory>
    requires { 1 ≤ replicas }
    ensures ok { OnOk result (to.new.items
        ≡ to.old.items ++ lines.change_line replicas change.now) }
    ensures err { OnErr result (to.new.items ≡ to.old.items) }
{
    let (leader, controller) = names_of(replicas, change.view);
    let fields = [
        Field::Number(u64::from(change.view.leader)),
        Field::Number(change.view.session),
        Field::Word("leader"),
        leader,
        Field::Word("controller"),
        controller,
        Field::Word("changed"),
        Field::Number(change.at),
    ];
    write_line("view", &fields, to)
}

/// Appends the line of a warning.
#[tactic(auto, unfolding(crate::specs::Lines::warning_line))]
pub fn warning_line(warning: &Warning, to: &mut Vec<u8>) -> Result<(), NoMemory>
    ensures ok { OnOk result (to.new.items ≡ to.old.items ++ lines.warning_line warning.now) }
    ensures err { OnErr result (to.new.items ≡ to.old.items) }
{
    let fields = [
        Field::Name(Actor::Controller(warning.controller)),
        Field::Word("silent"),
        Field::Number(warning.since),
    ];
    write_line("warning", &fields, to)
}

/// Appends the line that says that there is no warning any more.
#[tactic(auto, unfolding(crate::specs::Lines::over_line))]
pub(crate) fn over_line(now: u64, to: &mut Vec<u8>) -> Result<(), NoMemory>
    ensures { OnOk result (to.new.items ≡ to.old.items ++ lines.over_line now) }
{
    let fields = [Field::Word("over"), Field::Number(now)];
    write_line("warning", &fields, to)
}
