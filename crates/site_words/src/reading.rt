//! Which task words ask for, by how many there are and by their options.

ghost use Rattle.std.specs.Prelude.{◌≡◌, IfSome, option_map, map, string_bytes};
ghost use Rattle.site_words.specs.Tasks.{AreBelow, by_second, of_six, of_six_unmarked};
ghost use Rattle.site_words.specs.Tasks.{observed_at, observed_task, of_eight, of_place};
ghost use Rattle.site_words.specs.Tasks.{own_place_at, own_place_behind, own_place_by};
ghost use Rattle.site_words.specs.Tasks.{own_place_task, plain_task, seen, task_of};

use crate::listed_sites::{asked_from, listed, marked, marked_from};
use crate::near_sites::{near, near_observed, watched_at, with_observers};
use crate::services::service_of;
use crate::task::Task;
use client_call::Service;
use line_fields::is_word;

/// A task of eight words.
fn of_eight<'a>(
    listen: &str,
    port: &str,
    replicas: &str,
    sequencers: &str,
    option: &str,
    observers: &str,
    first: &str,
    count: &str,
) -> Option<Task<'a>>
    ensures task { option_map seen result ≡ of_eight listen.now port.now replicas.now
        sequencers.now option.now observers.now first.now count.now }
    ensures below { IfSome result (λ task. AreBelow task.numbers) }
{
    if is_word(option.as_bytes(), "--observers") {
        near_observed(listen, port, replicas, sequencers, observers, first, count)
    } else {
        None
    }
}

/// A task of eight words: a list of hosts with a folder of marks, or a service on this machine.
#[tactic(auto, unfolding(crate::specs::Tasks::by_second))]
fn by_second<'a>(
    listen: &str,
    a: &'a str,
    b: &str,
    c: &'a str,
    option: &str,
    d: &str,
    first: &str,
    count: &str,
) -> Option<Task<'a>>
    ensures task { option_map seen result ≡ by_second listen.now a.now b.now c.now option.now
        d.now first.now count.now }
    ensures below { IfSome result (λ task. AreBelow task.numbers) }
{
    if is_word(b.as_bytes(), "--marks") {
        marked_from(listen, a, c, option, d, first, count)
    } else {
        of_eight(listen, a, b, c, option, d, first, count)
    }
}

/// A task of eight words: those after the first four.
fn observed_at<'a>(
    listen: &str,
    a: &'a str,
    b: &str,
    c: &'a str,
    rest: &[String],
) -> Option<Task<'a>>
    ensures task { option_map seen result ≡ observed_at listen.now a.now b.now c.now
        (map string_bytes rest.now) }
    ensures below { IfSome result (λ task. AreBelow task.numbers) }
{
    let [option, d, first, count] = rest else {
        return None;
    };
    by_second(
        listen,
        a,
        b,
        c,
        option.as_str(),
        d.as_str(),
        first.as_str(),
        count.as_str(),
    )
}

/// A task of this service on this machine, by the four words after the number of observers.
fn of_place<'a>(
    listen: &str,
    service: Service,
    at: &str,
    own: &str,
    first: &str,
    count: &str,
) -> Option<Task<'a>>
    ensures task { option_map seen result
        ≡ of_place listen.now service at.now own.now first.now count.now }
    ensures below { IfSome result (λ task. AreBelow task.numbers) }
{
    if is_word(at.as_bytes(), "--at") {
        watched_at(listen, service, own, first, count)
    } else {
        None
    }
}

/// A task of this service on this machine, by the words after the number of observers.
fn own_place_behind<'a>(listen: &str, service: Service, rest: &[String]) -> Option<Task<'a>>
    ensures task { option_map seen result
        ≡ own_place_behind listen.now service (map string_bytes rest.now) }
    ensures below { IfSome result (λ task. AreBelow task.numbers) }
{
    let [at, own, first, count] = rest else {
        return None;
    };
    of_place(
        listen,
        service,
        at.as_str(),
        own.as_str(),
        first.as_str(),
        count.as_str(),
    )
}

/// A task of a service on this machine, by the option of observers and the words after it.
fn own_place_by<'a>(
    listen: &str,
    service: Service,
    option: &str,
    observers: &str,
    rest: &[String],
) -> Option<Task<'a>>
    ensures task { option_map seen result ≡ own_place_by listen.now service option.now
        observers.now (map string_bytes rest.now) }
    ensures below { IfSome result (λ task. AreBelow task.numbers) }
{
    if !is_word(option.as_bytes(), "--observers") {
        return None;
    }
    let service = with_observers(service, observers.as_bytes())?;
    own_place_behind(listen, service, rest)
}

/// A task of ten words: those after the first four.
fn own_place_at<'a>(listen: &str, service: Service, rest: &[String]) -> Option<Task<'a>>
    ensures task { option_map seen result
        ≡ own_place_at listen.now service (map string_bytes rest.now) }
    ensures below { IfSome result (λ task. AreBelow task.numbers) }
{
    let [option, observers, rest @ ..] = rest else {
        return None;
    };
    own_place_by(listen, service, option.as_str(), observers.as_str(), rest)
}

/// A task of eight words behind the program's name.
fn observed_task(words: &[String]) -> Option<Task<'_>>
    ensures task { option_map seen result ≡ observed_task (map string_bytes words.now) }
    ensures below { IfSome result (λ task. AreBelow task.numbers) }
{
    let [_, listen, port, replicas, sequencers, rest @ ..] = words else {
        return None;
    };
    observed_at(
        listen.as_str(),
        port.as_str(),
        replicas.as_str(),
        sequencers.as_str(),
        rest,
    )
}

/// A task of ten words behind the program's name.
fn own_place_task<'a>(words: &[String]) -> Option<Task<'a>>
    ensures task { option_map seen result ≡ own_place_task (map string_bytes words.now) }
    ensures below { IfSome result (λ task. AreBelow task.numbers) }
{
    let [_, listen, port, replicas, sequencers, rest @ ..] = words else {
        return None;
    };
    let service = service_of(port.as_bytes(), replicas.as_bytes(), sequencers.as_bytes())?;
    own_place_at(listen.as_str(), service, rest)
}

/// A task of six words: a list of hosts at the place of an observer, or a service on this machine.
#[tactic(auto, unfolding(crate::specs::Tasks::of_six_unmarked))]
fn of_six_unmarked<'a>(
    listen: &str,
    a: &'a str,
    b: &str,
    c: &str,
    first: &str,
    count: &str,
) -> Option<Task<'a>>
    ensures task { option_map seen result
        ≡ of_six_unmarked listen.now a.now b.now c.now first.now count.now }
    ensures below { IfSome result (λ task. AreBelow task.numbers) }
{
    if is_word(b.as_bytes(), "--at") {
        asked_from(listen, a, None, c, first, count)
    } else {
        near(listen, a, b, c, first, count)
    }
}

/// A task of six words.
#[tactic(auto, unfolding(crate::specs::Tasks::of_six))]
fn of_six<'a>(
    listen: &str,
    a: &'a str,
    b: &str,
    c: &'a str,
    first: &str,
    count: &str,
) -> Option<Task<'a>>
    ensures task { option_map seen result
        ≡ of_six listen.now a.now b.now c.now first.now count.now }
    ensures below { IfSome result (λ task. AreBelow task.numbers) }
{
    if is_word(b.as_bytes(), "--marks") {
        marked(listen, a, c, first, count)
    } else {
        of_six_unmarked(listen, a, b, c, first, count)
    }
}

/// A task of six words behind the program's name, or of four.
fn plain_task(words: &[String]) -> Option<Task<'_>>
    ensures task { option_map seen result ≡ plain_task (map string_bytes words.now) }
    ensures below { IfSome result (λ task. AreBelow task.numbers) }
{
    if let [_, listen, list, first, count] = words {
        return listed(
            listen.as_str(),
            list.as_str(),
            first.as_str(),
            count.as_str(),
        );
    }
    let [_, listen, a, b, c, first, count] = words else {
        return None;
    };
    of_six(
        listen.as_str(),
        a.as_str(),
        b.as_str(),
        c.as_str(),
        first.as_str(),
        count.as_str(),
    )
}

/// The task that words ask for; the first one is the program's name.
pub fn task_of(words: &[String]) -> Option<Task<'_>>
    ensures task { option_map seen result ≡ task_of (map string_bytes words.now) }
    ensures below { IfSome result (λ task. AreBelow task.numbers) }
{
    if words.len() == 9 {
        observed_task(words)
    } else if words.len() == 11 {
        own_place_task(words)
    } else {
        plain_task(words)
    }
}
