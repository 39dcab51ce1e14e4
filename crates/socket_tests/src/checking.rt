//! What tests assert, as calls (an `assert!` is proved anew in each function that has one), and what they look at in links.

ghost use Rattle.std.specs.Prelude.{◌≡◌, true};

use outside::Link;
use std::process::Abort;
use std::time::Clock;

/// What is said holds.
pub fn check(rt: &impl Abort, holds: bool, said: &str)
    ensures { holds ≡ true }
{
    assert!(rt; holds, "{said}");
}

/// The clock in microseconds.
pub fn micros<R: Clock + Abort>(rt: &R) -> u128 {
    rt.monotonic().expect(rt, "a clock").as_micros()
}

/// Whether a poll of the link answers that nothing came.
pub fn is_idle<L: Link>(rt: &impl Abort, link: &mut L) -> bool {
    link.poll().expect(rt, "a poll").is_none()
}

/// Whether the link receives these bytes next, within a second.
pub fn receives<L: Link, R: Clock + Abort>(rt: &R, link: &mut L, bytes: &[u8]) -> bool {
    let start = micros(rt);
    for _ in 0..100_000usize {
        if let Ok(Some(datagram)) = link.poll() {
            return datagram.as_slice() == bytes;
        }
        if micros(rt).saturating_sub(start) >= 1_000_000 {
            return false;
        }
    }
    false
}
