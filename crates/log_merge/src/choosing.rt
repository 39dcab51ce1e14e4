ghost use Rattle.std.specs.Prelude.{◌≡◌, filter, option_map};
ghost use Rattle.std.specs.Option.{option_copied};
ghost use Rattle.nop_types.specs.Views.{is_view};
ghost use Rattle.log_merge.specs.Merging.{precedes, best};
ghost use Rattle.log_merge.specs.Given.{better_of};

use nop_types::{Change, View};

/// Whether the sync point of `a` is greater, or the same and its sender no higher.
fn precedes(a: &Change, b: &Change) -> bool
    ensures { result ≡ precedes a.now b.now }
{
    let (own, other) = (a.log.sync_point(), b.log.sync_point());
    own > other || (own == other && a.sender <= b.sender)
}

/// The best so far, or one more change.
fn better<'a>(best: Option<&'a Change>, change: &'a Change) -> &'a Change
    ensures { result.now ≡ better_of (option_copied best.entry) change.now }
{
    match best {
        Some(best) if precedes(best, change) => best,
        _ => change,
    }
}

/// Of the changes with this last normal view, one with the greatest sync point; of those the one of the lowest sender.
pub fn best(changes: &[Change], view: View) -> Option<&Change>
    ensures { option_copied result ≡ best (filter (λ c. is_view c.last_normal view) changes.now) }
{
    let mut best = None;
    for change in changes {
        if change.last_normal.is(view) {
            best = Some(better(best, change));
        }
    }
    best
}
