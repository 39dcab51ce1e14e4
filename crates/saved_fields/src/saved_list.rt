//! Lists of elements.

ghost use Rattle.std.specs.Prelude.{◌≡◌, ◌++◌, option_map, IfOk, OnOk};
ghost use Rattle.std.specs.List.{flat_map};
ghost use Rattle.saved_fields.specs.Lists.{elements_at, list_at, list_bytes};

use crate::field::Field;
use crate::number_field::{number, put_number};
use nop_types::NoMemory;
use std::alloc::Global;

/// Appends elements, one after the other.
fn put_each<E: Field>(to: &mut Vec<u8>, elements: &[E]) -> Result<(), NoMemory>
    ensures { OnOk result (to.new.items ≡ to.old.items ++ flat_map E.spell elements.now) }
{
    for element in elements {
        element.put(to)?;
    }
    Ok(())
}

/// Appends a list: how many elements there are, and each of them.
pub fn put_list<E: Field>(to: &mut Vec<u8>, elements: &[E]) -> Result<(), NoMemory>
    ensures { OnOk result (to.new.items ≡ to.old.items ++ list_bytes E.spell elements.now) }
{
    put_number(to, elements.len() as u64)?;
    put_each(to, elements)
}

/// So many elements, and what follows them.
fn each<E: Field>(
    alloc: Global,
    bytes: &[u8],
    count: u64,
) -> Result<Option<(Vec<E>, &[u8])>, NoMemory>
    ensures { IfOk result (λ found.
        option_map (λ p. (p.0.items, p.1.now)) found ≡ elements_at E.read_at count bytes.now) }
{
    let mut elements = Vec::new(alloc);
    let mut rest = bytes;
    for _ in 0..count {
        let Some((element, after)) = E::read(alloc, rest)? else {
            return Ok(None);
        };
        elements.push(element)?;
        rest = after;
    }
    Ok(Some((elements, rest)))
}

/// A list of at most so many elements, and what follows it; None where the bytes begin with none.
#[tactic(auto, unfolding(crate::specs::Lists::list_at))]
pub fn list<E: Field>(
    alloc: Global,
    bytes: &[u8],
    most: usize,
) -> Result<Option<(Vec<E>, &[u8])>, NoMemory>
    ensures { IfOk result (λ found.
        option_map (λ p. (p.0.items, p.1.now)) found ≡ list_at most E.read_at bytes.now) }
{
    let Some((count, rest)) = number(bytes) else {
        return Ok(None);
    };
    if count > most as u64 {
        return Ok(None);
    }
    each::<E>(alloc, rest, count)
}
