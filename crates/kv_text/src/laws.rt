//! What the definitions say together.

ghost use Rattle.std.specs.Prelude.{◌≡◌, ℕ, List, Some};
ghost use Rattle.kv_host.specs.Op.{Op, read_op};
ghost use Rattle.kv_host.specs.Spelling.{Spells};
ghost use Rattle.kv_text.specs.Text.{named, op_of};

/// The bytes that words give are read as the op that the words name.
#[tactic(auto, using(crate::specs::Laws::named_spelled))]
pub fn named_ops_are_spelled()
    ensures { (words : List (List ℕ)) (op : Op) (bytes : List ℕ) → named words ≡ Some op
        → op_of words ≡ Some bytes → Spells op bytes }
{}
