//! Requests, and a comparison of answers, that the tests share.
ghost use Rattle.std.specs.Prelude.{◌≡◌};
ghost use Rattle.nop_types.specs.Ranges.{RequestFits};

use nop_types::{Bytes, MAX_OP_BYTES, Op, Request};
use std::alloc::Global;
use std::process::Abort;

/// The request of a client with this id and this op.
pub fn request(rt: &impl Abort, alloc: Global, client: u32, id: u64, op: &[u8]) -> Request
    ensures client { result.client ≡ client }
    ensures id { result.id ≡ id }
    ensures fits { RequestFits result }
{
    assert!(rt; id >= 1 && op.len() <= MAX_OP_BYTES);
    Request {
        client,
        id,
        op: Op::new(alloc, op).expect(rt, "memory"),
    }
}

/// The answer is the one that is told.
pub fn is_expected(answer: Option<&Bytes>, expected: Option<&[u8]>) -> bool {
    match (answer, expected) {
        (Some(answer), Some(expected)) => answer.as_slice() == expected,
        (None, None) => true,
        _ => false,
    }
}
