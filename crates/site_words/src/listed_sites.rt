//! Tasks of a service where a list of hosts says, with a folder of marks or without one.

ghost use Rattle.std.specs.Prelude.{◌≡◌, None, Some, IfSome, option_map};
ghost use Rattle.site_words.specs.Tasks.{AreBelow, AtHosts, asked, asked_from};
ghost use Rattle.site_words.specs.Tasks.{listed_observer, marked_from, seen};
ghost use Rattle.std.specs.Option.{option_copied};

use crate::ends::ends_of;
use crate::services::number_in;
use crate::task::{Site, Task};
use line_fields::is_word;
use nop_types::MAX_OBSERVERS;

/// A task of a service where a list of hosts says, with a folder of marks.
pub(crate) fn marked<'a>(
    listen: &str,
    list: &'a str,
    folder: &'a str,
    first: &str,
    count: &str,
) -> Option<Task<'a>>
    ensures task { option_map seen result
        ≡ asked listen.now (AtHosts list.now (Some folder.now) None) first.now count.now }
    ensures below { IfSome result (λ task. AreBelow task.numbers) }
{
    let (listen, numbers) = ends_of(listen, first, count)?;
    Some(Task {
        listen,
        site: Site::Listed {
            list,
            marks: Some(folder),
            observer: None,
        },
        numbers,
    })
}

/// A task of a service where a list of hosts says.
pub(crate) fn listed<'a>(listen: &str, list: &'a str, first: &str, count: &str) -> Option<Task<'a>>
    ensures task { option_map seen result
        ≡ asked listen.now (AtHosts list.now None None) first.now count.now }
    ensures below { IfSome result (λ task. AreBelow task.numbers) }
{
    let (listen, numbers) = ends_of(listen, first, count)?;
    Some(Task {
        listen,
        site: Site::Listed {
            list,
            marks: None,
            observer: None,
        },
        numbers,
    })
}

/// The number of an observer of a list of hosts.
fn listed_observer(own: &[u8]) -> Option<u8>
    ensures { result ≡ listed_observer own.now }
{
    let own = number_in(0, u64::from(MAX_OBSERVERS - 1), own)?;
    Some(own as u8)
}

/// A task of a service where a list of hosts says, watched at the place of an observer.
pub(crate) fn asked_from<'a>(
    listen: &str,
    list: &'a str,
    marks: Option<&'a str>,
    own: &str,
    first: &str,
    count: &str,
) -> Option<Task<'a>>
    ensures task { option_map seen result ≡ asked_from listen.now list.now
        (option_copied marks.entry) own.now first.now count.now }
    ensures below { IfSome result (λ task. AreBelow task.numbers) }
{
    let own = listed_observer(own.as_bytes())?;
    let (listen, numbers) = ends_of(listen, first, count)?;
    Some(Task {
        listen,
        site: Site::Listed {
            list,
            marks,
            observer: Some(own),
        },
        numbers,
    })
}

/// A task of a service where a list of hosts says, with a folder of marks, watched at the place of
/// an observer.
pub(crate) fn marked_from<'a>(
    listen: &str,
    list: &'a str,
    folder: &'a str,
    at: &str,
    own: &str,
    first: &str,
    count: &str,
) -> Option<Task<'a>>
    ensures task { option_map seen result ≡ marked_from listen.now list.now folder.now at.now
        own.now first.now count.now }
    ensures below { IfSome result (λ task. AreBelow task.numbers) }
{
    if is_word(at.as_bytes(), "--at") {
        asked_from(listen, list, Some(folder), own, first, count)
    } else {
        None
    }
}
