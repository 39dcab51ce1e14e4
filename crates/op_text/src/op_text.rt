ghost use Rattle.std.specs.Prelude.{◌≡◌, ℕ, List, Option, Some, IfOk, IfSome};
ghost use Rattle.hex.specs.Hex.{IsBytes};

use crate::words::Words;
use nop_types::{Bytes, NoMemory, Op};
use std::alloc::Global;

/// How people write the ops of a service, and its results.
pub trait OpText {
    /// The op that words name.
    ghost op_of: { List (List ℕ) → Option (List ℕ) };

    /// The words of an op; none for bytes that are no op.
    ghost words_of: { List ℕ → Option (List (List ℕ)) };

    /// The words of a result.
    ghost result_words: { List ℕ → List (List ℕ) };

    /// The op that the words name; None exactly where they name none.
    fn op(alloc: Global, words: &[Bytes]) -> Result<Option<Op>, NoMemory>
        ensures { IfOk result (λ op. op ≡ op_of words.now) };

    /// The words of an op; None exactly where the bytes are no op.
    fn words(alloc: Global, op: &[u8]) -> Result<Option<Words>, NoMemory>
        ensures { IfOk result (λ words. words ≡ words_of op.now) };

    /// The words of a result.
    fn result(alloc: Global, answer: &[u8]) -> Result<Words, NoMemory>
        ensures { IfOk result (λ words. words ≡ result_words answer.now) };

    ghost reads_back: { (op : List ℕ) → IsBytes op
        → IfSome (words_of op) (λ words. op_of words ≡ Some op) };
}
