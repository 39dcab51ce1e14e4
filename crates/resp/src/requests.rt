//! The request with which bytes begin.

ghost use Rattle.std.specs.Prelude.{◌≡◌, ◌∷◌, ◌++◌, [], IfOk, OnOk};
ghost use Rattle.std.specs.Result.{result_map_both};
ghost use Rattle.resp.specs.Parsed.{AreIn, IsIn, Means, Reads, Skips, rest_of};
ghost use Rattle.resp.specs.Reading.{read_bulks, read_line};

use crate::limits::MAX_ARGUMENTS;
use crate::parsed::{Fault, Parsed, Request, Stop};
use crate::reading::{bulk, line};
use nop_types::{Bytes, NoMemory};
use std::alloc::Global;

/// What follows so many arguments. Nothing is copied, so bytes that come one by one cost no more than they are.
fn skip(count: usize, bytes: &[u8]) -> Result<&[u8], Stop>
    ensures { Skips (result_map_both (λ x. x.now) (λ e. e) result)
        (read_bulks count bytes.now) }
{
    let mut rest = bytes;
    for _ in 0..count {
        match bulk(rest) {
            Ok((_, after)) => rest = after,
            Err(stop) => return Err(stop),
        }
    }
    Ok(rest)
}

fn keep(alloc: Global, argument: &[u8], found: &mut Vec<Bytes>) -> Result<(), NoMemory>
    ensures { OnOk result (found.new.items ≡ found.old.items ++ argument.now ∷ []) }
{
    let argument = Bytes::new(alloc, argument)?;
    found.push(argument)?;
    Ok(())
}

/// So many arguments, where they are all there.
#[tactic(auto, using(crate::proofs::Collected::nothing_before))]
fn collect(alloc: Global, count: usize, bytes: &[u8]) -> Result<Vec<Bytes>, NoMemory>
    ensures { IfOk result (λ found. AreIn found.items (read_bulks count bytes.now)) }
{
    let mut found = Vec::new(alloc);
    let mut rest = bytes;
    for _ in 0..count {
        match bulk(rest) {
            Ok((argument, after)) => {
                keep(alloc, argument, &mut found)?;
                rest = after;
            }
            Err(_) => return Ok(found),
        }
    }
    Ok(found)
}

/// The request that was found: its arguments, and what follows them.
fn gathered(
    alloc: Global,
    bytes: &[u8],
    count: usize,
    body: &[u8],
    rest: &[u8],
) -> Result<Request, NoMemory>
    requires line { read_line 42 MAX_ARGUMENTS Fault.TooMany bytes.now ≡ Ok (count, body.now) }
    requires rest { rest_of (read_bulks count body.now) ≡ Ok rest.now }
    ensures { IfOk result (λ r. IsIn bytes.now r) }
{
    let arguments = collect(alloc, count, body)?;
    Ok(Request {
        arguments,
        len: bytes.len().saturating_sub(rest.len()),
    })
}

/// What there is of so many arguments after the line that counts them.
#[tactic(auto, unfolding(crate::specs::Reading::read_request))]
fn counted(alloc: Global, bytes: &[u8], count: usize, body: &[u8]) -> Result<Parsed, NoMemory>
    requires { read_line 42 MAX_ARGUMENTS Fault.TooMany bytes.now ≡ Ok (count, body.now) }
    ensures { IfOk result (λ parsed. Reads bytes.now parsed) }
{
    match skip(count, body) {
        Ok(rest) => match gathered(alloc, bytes, count, body, rest) {
            Ok(request) => Ok(Parsed::Complete(request)),
            Err(e) => Err(e),
        },
        Err(Stop::More) => Ok(Parsed::Incomplete),
        Err(Stop::Wrong(fault)) => Ok(Parsed::Broken(fault)),
    }
}

#[tactic(auto, unfolding(crate::specs::Reading::read_request))]
fn read(alloc: Global, bytes: &[u8]) -> Result<Parsed, NoMemory>
    ensures { IfOk result (λ parsed. Reads bytes.now parsed) }
{
    match line(b'*', MAX_ARGUMENTS, Fault::TooMany, bytes) {
        Ok((count, body)) => counted(alloc, bytes, count, body),
        Err(Stop::More) => Ok(Parsed::Incomplete),
        Err(Stop::Wrong(fault)) => Ok(Parsed::Broken(fault)),
    }
}

/// The request with which the bytes begin; or that they begin one, and are too few; or why they begin none.
#[tactic(auto, using(crate::proofs::Meanings::means))]
pub fn parse(alloc: Global, bytes: &[u8]) -> Result<Parsed, NoMemory>
    ensures reads { IfOk result (λ parsed. Reads bytes.now parsed) }
    ensures means { IfOk result (λ parsed. Means bytes.now parsed) }
{
    match read(alloc, bytes) {
        Ok(parsed) => Ok(parsed),
        Err(e) => Err(e),
    }
}
