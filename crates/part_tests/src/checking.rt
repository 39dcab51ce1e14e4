//! What tests assert, as calls: an `assert!` is proved anew in each function that has one.

ghost use Rattle.std.specs.Prelude.{◌≡◌, true};

use nop_types::SavedClient;
use std::alloc::Global;
use std::process::Abort;

/// What is said holds.
pub fn check(rt: &impl Abort, holds: bool, said: &str)
    ensures { holds ≡ true }
{
    assert!(rt; holds, "{said}");
}

/// It holds of the row with this number.
pub fn check_row(rt: &impl Abort, holds: bool, row: usize)
    ensures { holds ≡ true }
{
    assert!(rt; holds, "row {row}");
}

/// The clients of a checkpoint are these, as their derive shows them.
pub fn check_clients(rt: &impl Abort, alloc: Global, clients: &[SavedClient], expected: &str) {
    let given = format!(in alloc; "{clients:?}").expect(rt, "memory");
    assert!(rt; given.as_str() == expected, "{given}");
}
