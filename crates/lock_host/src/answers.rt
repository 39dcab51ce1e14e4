//! Answers that name a token.

ghost use Rattle.std.specs.Prelude.{◌≡◌, ◌≤◌, length, IfOk};
ghost use Rattle.lock_host.specs.Locks.{granted, held, holder_text};

use crate::lock::Lock;
use nop_types::{Bytes, NoMemory};
use saved_fields::put_number;
use std::alloc::Global;

/// `granted` and the token.
pub fn granted(alloc: Global, token: u64) -> Result<Bytes, NoMemory>
    ensures answer { IfOk result (λ b. b ≡ granted token) }
    ensures short { IfOk result (λ b. length b ≤ 15) }
{
    let mut text = Vec::from_slice(alloc, b"granted")?;
    put_number(&mut text, token)?;
    Ok(Bytes::from_vec(text))
}

/// `held`, the token and the owner.
pub fn held(alloc: Global, lock: &Lock) -> Result<Bytes, NoMemory>
    ensures answer { IfOk result (λ b. b ≡ held lock.now) }
    ensures short { IfOk result (λ b. length b ≤ 76) }
{
    let mut text = Vec::from_slice(alloc, b"held")?;
    put_number(&mut text, lock.token)?;
    text.extend_from_slice(lock.owner.as_slice())?;
    Ok(Bytes::from_vec(text))
}

/// Who holds the lock, or `free`.
pub fn holder_text(alloc: Global, found: Option<(usize, Lock)>) -> Result<Bytes, NoMemory>
    ensures answer { IfOk result (λ b. b ≡ holder_text found) }
    ensures short { IfOk result (λ b. length b ≤ 76) }
{
    match found {
        Some((_place, lock)) => held(alloc, &lock),
        None => Bytes::new(alloc, b"free"),
    }
}
