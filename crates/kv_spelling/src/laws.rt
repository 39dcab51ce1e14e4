//! What the definitions say together.

ghost use Rattle.std.specs.Prelude.{◌≡◌, ℕ, List, Some};
ghost use Rattle.kv_host.specs.Op.{Op};
ghost use Rattle.kv_host.specs.Spelling.{Spells};
ghost use Rattle.kv_spelling.specs.Spell.{spell};

/// The bytes that are given spell the op.
#[tactic(auto, using(crate::specs::Laws::spelled_op))]
pub fn spelled_ops_are_read()
    ensures { (op : Op) (bytes : List ℕ) → spell op ≡ Some bytes → Spells op bytes }
{}

/// Where bytes spell an op, they are given.
#[tactic(auto, using(crate::specs::Laws::spelled_again))]
pub fn what_is_spelled_is_given()
    ensures { (op : Op) (bytes : List ℕ) → Spells op bytes → spell op ≡ Some bytes }
{}
