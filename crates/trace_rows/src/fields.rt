//! Numbers and bytes.

ghost use Rattle.std.specs.Prelude.{◌≡◌, ◌≤◌, IfOk};
ghost use Rattle.nop_types.specs.declared.limits.TheConstants as limits;
ghost use Rattle.trace_rows.specs.Reading.{bytes_within, id_of, position_of};

use line_fields::number;
use nop_types::{Bytes, MAX_OP_BYTES, NoMemory, Op};
use std::alloc::Global;

/// A number of 64 bits from 1.
pub(crate) fn id(field: &[u8]) -> Option<u64>
    ensures { result ≡ id_of field.now }
{
    match number(field)? {
        0 => None,
        n => Some(n),
    }
}

/// A number of 32 bits.
pub(crate) fn position(field: &[u8]) -> Option<u32>
    ensures { result ≡ position_of field.now }
{
    let n = number(field)?;
    if n < 0x1_0000_0000 {
        Some(n as u32)
    } else {
        None
    }
}

/// At most so many bytes.
pub(crate) fn bytes(alloc: Global, most: usize, field: &[u8]) -> Result<Option<Bytes>, NoMemory>
    requires { most ≤ limits.MAX_DATAGRAM_BYTES }
    ensures { IfOk result (λ bytes. bytes ≡ bytes_within most field.now) }
{
    if field.len() > 2 * most {
        return Ok(None);
    }
    line_fields::bytes(alloc, field)
}

pub(crate) fn op(alloc: Global, field: &[u8]) -> Result<Option<Op>, NoMemory>
    ensures { IfOk result (λ op. op ≡ bytes_within limits.MAX_OP_BYTES field.now) }
{
    if field.len() > 2 * MAX_OP_BYTES {
        return Ok(None);
    }
    line_fields::op(alloc, field)
}
