ghost use Rattle.std.specs.Prelude.{◌≡◌, ◌++◌, length, drop, max};

use crate::Entry;

/// Puts other entries in the place of as many first ones, and of all where there are no more.
pub fn lay_over(entries: &mut Vec<Entry>, mut more: Vec<Entry>)
    ensures over { entries.new.items ≡ more.items ++ drop (length more.items) entries.old.items }
    ensures len { length entries.new.items ≡ max (length more.items) (length entries.old.items) }
{
    if more.len() >= entries.len() {
        *entries = more;
        return;
    }
    while let Some(entry) = more.pop() {
        entries[more.len()] = entry;
    }
}
