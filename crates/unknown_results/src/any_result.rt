//! A service that takes any answer to an op where a byte in front of it says so.

ghost use Rattle.std.specs.Prelude.{◌≡◌};
ghost use Rattle.unknown_results.specs.AnyResults.{takes_any, unless};
ghost use Rattle.unknown_results.specs.Asking.{without_first};

use fronts::Parted;
use nop_types::{Bytes, Host, NoMemory};
use std::alloc::Global;
use std::marker::PhantomData;

/// In front of an op: any answer to it is taken.
pub const ANY: u8 = 1;

// A number that both code and contracts name would be proved whatever it was; so here it stands once more.
const _: () = prove!(ANY == 1);

/// An op without its first byte.
fn without_first(op: &[u8]) -> &[u8]
    ensures { result.now ≡ without_first op.now }
{
    match op {
        [] => op,
        [_byte, rest @ ..] => rest,
    }
}

/// Whether any answer to the op is taken.
fn takes_any(op: &[u8]) -> bool
    ensures { result ≡ takes_any op.now }
{
    match op {
        [] => false,
        [byte, ..] => *byte == ANY,
    }
}

/// The answer, or no byte where any is taken.
fn unless(any: bool, answer: Bytes) -> Bytes
    ensures { result ≡ unless any answer }
{
    if !any {
        return answer;
    }
    let mut bytes = answer.into_vec();
    bytes.clear();
    Bytes::from_vec(bytes)
}

/// A service over ops with a byte in front: 1 where any answer is taken, which then has no byte.
#[derive(Drop)]
pub struct AnyResult<H: Host> {
    host: H,
}

impl<H: Host> Host for AnyResult<H> {
    ghost use Rattle.std.specs.Prelude.{◌≤◌, ℕ, List, length};
    ghost use Rattle.nop_types.specs.declared.limits.TheConstants.{MAX_RESULT_BYTES};
    ghost use Rattle.unknown_results.specs.AnyResults.{any_result, answers_short};
    ghost use Rattle.unknown_results.specs.Asking.{without_first};

    type Undo = H::Undo;

    ghost State = { H.State };

    ghost state = { λ s. H.state s.host };

    ghost meaning = { any_result H.meaning };

    ghost undo_of = { λ s op. H.undo_of s (without_first op) };

    ghost undone = { H.undone };

    ghost fits = { λ s u. H.fits s.host u };

    ghost is_sound = { H.is_sound };

    ghost undoes = { λ s op. H.undoes s (without_first op) };

    ghost opens_sound = { H.opens_sound };

    ghost stays_sound = { λ s op sound. H.stays_sound s (without_first op) sound };

    ghost answers_short = { answers_short H.meaning H.is_sound H.answers_short };

    ghost saves_short = { H.saves_short };

    ghost loads_saved = { H.loads_saved };

    ghost loads_only = { H.loads_only };

    fn fresh(alloc: Global) -> Result<AnyResult<H>, NoMemory> {
        Ok(AnyResult {
            host: H::fresh(alloc)?,
        })
    }

    fn apply(&mut self, op: &[u8]) -> Result<(Bytes, H::Undo), NoMemory> {
        let (answer, undo) = self.host.apply(without_first(op))?;
        Ok((unless(takes_any(op), answer), undo))
    }

    fn undo(&mut self, undo: H::Undo) {
        self.host.undo(undo);
    }

    fn copy(&self) -> Result<AnyResult<H>, NoMemory> {
        Ok(AnyResult {
            host: self.host.copy()?,
        })
    }

    fn save(&self) -> Result<Bytes, NoMemory> {
        self.host.save()
    }

    fn load(alloc: Global, bytes: &[u8]) -> Result<Option<AnyResult<H>>, NoMemory> {
        match H::load(alloc, bytes)? {
            Some(host) => Ok(Some(AnyResult { host })),
            None => Ok(None),
        }
    }
}

/// The parts of a service are those of the one that takes any answer.
pub struct AnyResultOf<P: Parted> {
    service: PhantomData<P>,
}

impl<P: Parted> Parted for AnyResultOf<P> {
    ghost use Rattle.std.specs.Prelude.{ℕ, List};
    ghost use Rattle.fronts.specs.Parts.{is_of};
    ghost use Rattle.nop_types.specs.Lists.{Has};
    ghost use Rattle.unknown_results.specs.AnyResults.{still_a_part};
    ghost use Rattle.unknown_results.specs.Asking.{without_first};

    ghost MAX_PARTS = { P.MAX_PARTS };

    ghost part = { λ op. P.part (without_first op) };

    ghost Seen = { P.Seen };

    ghost is_same = { P.is_same };

    ghost seen = { P.seen };

    ghost are_parts = { λ parts p few distinct. still_a_part P.Service.meaning
        (λ op. Has parts (P.part op)) (is_of P.part p)
        (λ s t. P.is_same parts p (P.seen s) (P.seen t)) (P.are_parts parts p few distinct) };

    type Service = AnyResult<P::Service>;

    const MAX_PARTS: usize = P::MAX_PARTS;

    fn part_of(op: &[u8]) -> &[u8] {
        P::part_of(without_first(op))
    }

    fn only_reads(op: &[u8]) -> bool {
        P::only_reads(without_first(op))
    }
}
