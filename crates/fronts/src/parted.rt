ghost use Rattle.std.specs.Prelude.{◌≤◌, ◌≡◌, ℕ, List, length, true};
ghost use Rattle.fronts.specs.Fronts.{OnlyReads};
ghost use Rattle.fronts.specs.Parts.{is_of, AreDistinct, IsPart};
ghost use Rattle.nop_types.specs.Lists.{Has};

use nop_types::Host;
use std::marker::PhantomData;

/// How a service is parted: what the ops of one part do and answer does not rest on ops of other parts, as long as all ops are of at
/// most `MAX_PARTS` parts. A service without parts has one for all ops.
pub trait Parted {
    type Service: Host;

    ghost MAX_PARTS: { ℕ };

    ghost part: { List ℕ → List ℕ };

    /// What the states of the service are seen as.
    ghost Seen: { Type 0 };

    /// Two states have the same part, where all ops are of these parts.
    ghost is_same: { List (List ℕ) → List ℕ → Seen → Seen → Type 0 };

    const MAX_PARTS: usize;

    /// The part of an op.
    fn part_of(op: &[u8]) -> &[u8]
        ensures { result.now ≡ part op.now };

    /// Whether the op is known to change nothing. False is always right: only a search of an order takes longer.
    fn only_reads(op: &[u8]) -> bool
        ensures { result ≡ true → OnlyReads Self.Service.meaning op.now };

    ghost seen: { Self.Service.State → Seen };

    ghost are_parts: { (parts : List (List ℕ)) (p : List ℕ) → length parts ≤ MAX_PARTS
        → AreDistinct parts → IsPart Self.Service.meaning (λ op. Has parts (part op))
        (is_of part p) (λ s t. is_same parts p (seen s) (seen t)) };
}

/// A service without parts: all its ops are of the part that has no byte.
pub struct OnePart<H: Host> {
    service: PhantomData<H>,
}

impl<H: Host> Parted for OnePart<H> {
    ghost use Rattle.std.specs.Prelude.{[]};
    ghost use Rattle.fronts.specs.OnePart.{is_whole, whole_is_a_part};
    ghost use Rattle.nop_types.specs.Lists.{Has};

    ghost MAX_PARTS = { 1 };

    ghost part = { λ op. [] };

    ghost Seen = { H.State };

    ghost is_same = { λ parts p s t. is_whole p s t };

    ghost seen = { λ s. s };

    ghost are_parts = { λ parts p few distinct. whole_is_a_part H.meaning (λ op. Has parts []) p };

    type Service = H;

    const MAX_PARTS: usize = 1;

    fn part_of(op: &[u8]) -> &[u8]
        ensures { result.now ≡ [] }
    {
        let _op = op;
        &[]
    }

    fn only_reads(op: &[u8]) -> bool {
        let _op = op;
        false
    }
}
