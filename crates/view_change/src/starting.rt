ghost use Rattle.std.specs.Prelude.{◌≡◌, ◌==◌, cond, filter, map, IfOk};
ghost use Rattle.nop_types.specs.PlainChanges.{plain};
ghost use Rattle.nop_types.specs.Views.{is_view};
ghost use Rattle.log_merge.specs.Merged.{HasDistinctSenders};
ghost use Rattle.log_merge.specs.Starting.{greatest, greatest_next};
ghost use Rattle.view_change.specs.Gathering.{started};

use log_merge::{merge_moved, merge_of_view};
use nop_types::{Change, Log, NoMemory, View, greater};
use std::alloc::Global;

/// What a view is started with: the next message number, and the log.
#[derive(Drop)]
pub struct Start {
    pub next: u64,
    pub log: Log,
}

/// Whether a change was the one that starts the view.
#[derive(Drop)]
pub enum Step {
    Started(Start),
    Waiting,
}

/// The last normal view of greatest rank.
fn greatest(changes: &[Change]) -> View
    ensures { result ≡ greatest (map plain changes.now) }
{
    let mut best = View {
        leader: 0,
        session: 0,
    };
    for change in changes {
        best = greater(best, change.last_normal);
    }
    best
}

/// The greatest next number of the changes with this last normal view.
fn greatest_next(changes: &[Change], view: View) -> u64
    ensures { result
        ≡ greatest_next (filter (λ c. is_view c.last_normal view) (map plain changes.now)) }
{
    let mut most = 0;
    for change in changes {
        if change.last_normal.is(view) {
            most = most.max(change.next);
        }
    }
    most
}

/// The number of the next request that a view is started with, where `last` is the last normal view of greatest rank.
fn next_of(view: View, changes: &[Change], last: View) -> u64
    ensures { result ≡ cond (last.session == view.session)
        (greatest_next (filter (λ c. is_view c.last_normal last) (map plain changes.now))) 1 }
{
    if last.session == view.session {
        greatest_next(changes, last)
    } else {
        1
    }
}

/// What a view is started with from these changes.
pub fn start_of(alloc: Global, view: View, changes: &[Change]) -> Result<Start, NoMemory>
    ensures { IfOk result (λ s. s ≡ started view changes.now) }
{
    let last = greatest(changes);
    let log = merge_of_view(alloc, changes, last)?;
    let next = next_of(view, changes, last);
    Ok(Start { next, log })
}

/// The same from changes whose logs are moved and not copied.
pub fn start_moved(alloc: Global, view: View, changes: Vec<Change>) -> Result<Start, NoMemory>
    requires { HasDistinctSenders (map plain changes.items) }
    ensures { IfOk result (λ s. s ≡ started view changes.items) }
{
    let last = greatest(&changes);
    let next = next_of(view, &changes, last);
    let log = merge_moved(alloc, changes, last)?;
    Ok(Start { next, log })
}
