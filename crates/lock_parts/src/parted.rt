//! The lock service as one part of all its locks, with the ops that change nothing.
ghost use Rattle.std.specs.Prelude.{◌≡◌, true};
ghost use Rattle.lock_host.specs.Locks.{Locks, step};

use fronts::Parted;
use lock_host::{LockHost, LockOp, read};

/// Whether the op is an inspect, or no op; these change nothing.
fn only_reads(op: &LockOp) -> bool
    ensures { result ≡ true → (locks : Locks) → (step locks op.now).locks ≡ locks }
{
    matches!(op, LockOp::Inspect(_) | LockOp::Bad)
}

/// The lock service, all locks as one part.
pub struct AllLocks;

impl Parted for AllLocks {
    ghost use Rattle.std.specs.Prelude.{[]};
    ghost use Rattle.fronts.specs.OnePart.{is_whole, whole_is_a_part};
    ghost use Rattle.lock_host.specs.Locks.{Locks};
    ghost use Rattle.lock_host.specs.Service.{lock_meaning};
    ghost use Rattle.nop_types.specs.Lists.{Has};

    ghost MAX_PARTS = { 1 };

    ghost part = { λ op. [] };

    ghost Seen = { Locks };

    ghost is_same = { λ parts p s t. is_whole p s t };

    ghost seen = { λ s. s };

    ghost are_parts = { λ parts p few distinct. whole_is_a_part lock_meaning (λ op. Has parts []) p };

    type Service = LockHost;

    const MAX_PARTS: usize = 1;

    fn part_of(op: &[u8]) -> &[u8]
        ensures { result.now ≡ [] }
    {
        let _op = op;
        &[]
    }

    fn only_reads(op: &[u8]) -> bool {
        only_reads(&read(op))
    }
}
