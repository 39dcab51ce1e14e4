//! At whose place a watch over a list of hosts listens.

ghost use Rattle.std.specs.Prelude.{◌≡◌};
ghost use Rattle.watch.specs.Places.{observer_in};

use host_list::HostList;
use line_fields::actor;
use nop_types::Actor;

/// The observer with this name, if the list has an address for it.
pub(crate) fn observer_in(list: &HostList, name: &[u8]) -> Option<Actor>
    ensures { result ≡ observer_in list.now name.now }
{
    match actor(list.config(), name) {
        Some(Actor::Observer(i)) => {
            list.address_of(Actor::Observer(i))?;
            Some(Actor::Observer(i))
        }
        _ => None,
    }
}
