//! Tasks of a service on this machine, also with observers, and watched at the place of one.

ghost use Rattle.std.specs.Prelude.{◌≡◌, Some, IfSome, option_map};
ghost use Rattle.site_words.specs.Tasks.{AreBelow, asked_at, observed, seen, watched, watched_at};
ghost use Rattle.site_words.specs.Services.{service_of};

use crate::ends::ends_of;
use crate::services::{number_in, service_of};
use crate::task::{Site, Task};
use client_call::Service;
use nop_types::{Config, MAX_OBSERVERS};

/// The service, with so many observers.
pub(crate) fn with_observers(service: Service, observers: &[u8]) -> Option<Service>
    ensures { result ≡ observed (Some service) observers.now }
{
    let observers = number_in(0, u64::from(MAX_OBSERVERS), observers)?;
    let config = service.config;
    match Config::new(
        config.replicas(),
        config.sequencers(),
        config.clients(),
        config.controllers(),
        observers as u8,
    ) {
        Some(config) => Some(Service {
            base: service.base,
            config,
        }),
        None => None,
    }
}

/// A task of this service on this machine.
fn at_ports<'a>(listen: &str, service: Service, first: &str, count: &str) -> Option<Task<'a>>
    ensures task { option_map seen result
        ≡ asked_at listen.now (Some service) first.now count.now }
    ensures below { IfSome result (λ task. AreBelow task.numbers) }
{
    let (listen, numbers) = ends_of(listen, first, count)?;
    Some(Task {
        listen,
        site: Site::Near {
            service,
            observer: None,
        },
        numbers,
    })
}

/// The service, and one of its observers.
fn watched(service: Service, own: &[u8]) -> Option<(Service, u8)>
    ensures { result ≡ watched (Some service) own.now }
{
    let own = number_in(0, u64::from(MAX_OBSERVERS), own)?;
    let own = own as u8;
    if own < service.config.observers() {
        Some((service, own))
    } else {
        None
    }
}

/// A task of this service on this machine, watched at the place of an observer.
pub(crate) fn watched_at<'a>(
    listen: &str,
    service: Service,
    own: &str,
    first: &str,
    count: &str,
) -> Option<Task<'a>>
    ensures task { option_map seen result
        ≡ watched_at listen.now (Some service) own.now first.now count.now }
    ensures below { IfSome result (λ task. AreBelow task.numbers) }
{
    let (service, own) = watched(service, own.as_bytes())?;
    let (listen, numbers) = ends_of(listen, first, count)?;
    Some(Task {
        listen,
        site: Site::Near {
            service,
            observer: Some(own),
        },
        numbers,
    })
}

/// A task of a service on this machine.
pub(crate) fn near<'a>(
    listen: &str,
    port: &str,
    replicas: &str,
    sequencers: &str,
    first: &str,
    count: &str,
) -> Option<Task<'a>>
    ensures task { option_map seen result ≡ asked_at listen.now
        (service_of port.now replicas.now sequencers.now) first.now count.now }
    ensures below { IfSome result (λ task. AreBelow task.numbers) }
{
    let service = service_of(port.as_bytes(), replicas.as_bytes(), sequencers.as_bytes())?;
    at_ports(listen, service, first, count)
}

/// A task of a service on this machine, with so many observers.
pub(crate) fn near_observed<'a>(
    listen: &str,
    port: &str,
    replicas: &str,
    sequencers: &str,
    observers: &str,
    first: &str,
    count: &str,
) -> Option<Task<'a>>
    ensures task { option_map seen result ≡ asked_at listen.now
        (observed (service_of port.now replicas.now sequencers.now) observers.now) first.now
        count.now }
    ensures below { IfSome result (λ task. AreBelow task.numbers) }
{
    let service = service_of(port.as_bytes(), replicas.as_bytes(), sequencers.as_bytes())?;
    let service = with_observers(service, observers.as_bytes())?;
    at_ports(listen, service, first, count)
}
