//! What the definitions say over all bytes.

ghost use Rattle.std.specs.Prelude.{◌≡◌, ℕ, ◌<◌, ◌≤◌, List, length};
ghost use Rattle.resp.specs.Reading.{read_request};
ghost use Rattle.resp.specs.Spelling.{spelled, IsRequest, Begins, AreFront};

use crate::limits::MAX_REQUEST_BYTES;
use crate::parsed::Stop;

/// A request that is spelled is read again, whatever follows it.
#[tactic(auto, using(crate::proofs::RequestLemmas::begins_read))]
pub fn spelled_requests_are_read()
    ensures { (bytes : List ℕ) (arguments : List (List ℕ)) (rest : List ℕ)
        → Begins bytes arguments rest → read_request bytes ≡ Ok (arguments, rest) }
{}

/// Nothing else is read.
pub fn read_requests_are_spelled()
    ensures { (bytes : List ℕ) (arguments : List (List ℕ)) (rest : List ℕ)
        → read_request bytes ≡ Ok (arguments, rest) → Begins bytes arguments rest }
{}

/// Bytes are too few exactly where some are missing at the end of a request.
pub fn fronts_are_too_few()
    ensures front { (bytes : List ℕ) → AreFront bytes → read_request bytes ≡ Err Stop.More }
    ensures few { (bytes : List ℕ) → read_request bytes ≡ Err Stop.More → AreFront bytes }
{}

/// A request has at most `MAX_REQUEST_BYTES` bytes, and bytes that are too few for one have fewer.
#[tactic(auto, using(crate::proofs::Meanings::request_short, crate::proofs::Meanings::front_short))]
pub fn requests_are_limited()
    ensures whole { (arguments : List (List ℕ)) → IsRequest arguments
        → length (spelled arguments) ≤ MAX_REQUEST_BYTES }
    ensures front { (bytes : List ℕ) → AreFront bytes → length bytes < MAX_REQUEST_BYTES }
{}
