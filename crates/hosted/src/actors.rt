//! Which actor a word names, and the command that runs it.

ghost use Rattle.std.specs.Prelude.{◌≡◌};
ghost use Rattle.hosted.specs.Actors.{client_named, command_name, named};

use line_fields::number;
use nop_types::{Actor, Config};

/// A client by what follows its `c`: any number of 32 bits.
fn client_named(digits: &[u8]) -> Option<Actor>
    ensures { result ≡ client_named digits.now }
{
    let n = number(digits)?;
    if n < 4_294_967_296 {
        Some(Actor::Client(n as u32))
    } else {
        None
    }
}

/// The actor of a configuration that a word names, or any client.
pub(crate) fn named(config: Config, word: &[u8]) -> Option<Actor>
    ensures { result ≡ named config word.now }
{
    match line_fields::actor(config, word) {
        Some(actor) => Some(actor),
        None => match word {
            [b'c', digits @ ..] => client_named(digits),
            _ => None,
        },
    }
}

/// The command of `commands` that runs an actor.
pub(crate) fn command_of(actor: Actor) -> &'static str
    ensures { result.now ≡ command_name actor }
{
    match actor {
        Actor::Replica(_) => "node",
        Actor::Sequencer(_) => "sequencer",
        Actor::Client(_) => "client",
        Actor::Controller(_) => "controller",
        Actor::Observer(_) => "observer",
    }
}
