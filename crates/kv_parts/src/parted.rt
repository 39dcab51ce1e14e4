//! The key-value store as a service of parts, one for each key.
ghost use Rattle.std.specs.Prelude.{◌≡◌, true};
ghost use Rattle.kv_host.specs.Kv.{state_after};
ghost use Rattle.kv_host.specs.Values.{Kv};
ghost use Rattle.kv_host.specs.View.{op_of};
ghost use Rattle.kv_parts.specs.Keys.{key_of, part_of};

use fronts::Parted;
use kv_host::{KvHost, KvOp, MAX_KEYS, read};

/// The key of an op; of other bytes none.
fn key_of(op: KvOp<'_>) -> &[u8]
    ensures { result.now ≡ key_of (op_of op.entry) }
{
    match op {
        KvOp::Get(key) => key,
        KvOp::Put(key, _) => key,
        KvOp::Delete(key) => key,
        KvOp::Swap(key, _, _) => key,
        KvOp::Bad => &[],
    }
}

/// Whether the op is a get, or no op; these change nothing.
fn only_reads(op: KvOp<'_>) -> bool
    ensures { result ≡ true → (kv : Kv) → state_after kv (op_of op.entry) ≡ kv }
{
    matches!(op, KvOp::Get(_) | KvOp::Bad)
}

/// The key-value service, parted by keys.
pub struct ByKey;

impl Parted for ByKey {
    ghost use Rattle.kv_host.specs.declared.table.TheConstants.{MAX_KEYS};
    ghost use Rattle.kv_host.specs.Values.{Kv};
    ghost use Rattle.kv_parts.specs.KeyParts.{keys_are_parts};
    ghost use Rattle.kv_parts.specs.Keys.{part_of, SameKey};

    ghost MAX_PARTS = { MAX_KEYS };

    ghost part = { part_of };

    ghost Seen = { Kv };

    ghost is_same = { SameKey };

    ghost seen = { λ s. s };

    ghost are_parts = { λ parts p few distinct. keys_are_parts parts few distinct p };

    type Service = KvHost;

    const MAX_PARTS: usize = MAX_KEYS;

    fn part_of(op: &[u8]) -> &[u8]
        ensures { result.now ≡ part_of op.now }
    {
        key_of(read(op))
    }

    fn only_reads(op: &[u8]) -> bool {
        only_reads(read(op))
    }
}
