ghost use Rattle.std.specs.Prelude.{◌≡◌, ℕ, List, Option, IfOk};

use nop_types::{Bytes, NoMemory};
use std::alloc::Global;

/// The results of a service, read from words.
pub trait ResultText {
    /// The bytes of the result that words stand for.
    ghost result_of: { List (List ℕ) → Option (List ℕ) };

    /// The bytes of the result that the words stand for; None exactly where they stand for none.
    fn bytes(alloc: Global, words: &[Bytes]) -> Result<Option<Bytes>, NoMemory>
        ensures { IfOk result (λ bytes. bytes ≡ result_of words.now) };
}
