//! What the definitions say together.

ghost use Rattle.std.specs.Prelude.{◌≡◌, ◌<◌, ◌^◌, ◌∷◌, [], ℕ, List, IfSome, Some, codes, decimal};
ghost use Rattle.lock_host.specs.Locks.{granted, held};
ghost use Rattle.lock_host.specs.Spelling.{Spells};
ghost use Rattle.lock_host.specs.declared.lock.Lock.{Lock};
ghost use Rattle.lock_host.specs.declared.op.LockOp.{LockOp};
ghost use Rattle.lock_text.specs.Text.{IsNamed, named, op_of, result_words, words_in, words_of};
ghost use Rattle.op_text.specs.Words.{word_of};

/// The bytes that words give spell the op that the words name; and words that give bytes name one.
#[tactic(auto, using(crate::specs::Laws::named_spelled, crate::specs::Laws::op_named))]
pub fn named_ops_are_spelled()
    ensures spelled { (words : List (List ℕ)) (op : LockOp) (bytes : List ℕ)
        → named words ≡ Some op → op_of words ≡ Some bytes → Spells op bytes }
    ensures named { (words : List (List ℕ)) → IfSome (op_of words) (IsNamed words) }
{}

/// The words of bytes that spell an op are those of the op.
#[tactic(auto, using(crate::specs::Laws::spelled_words))]
pub fn spelled_ops_have_words()
    ensures { (op : LockOp) (bytes : List ℕ) → Spells op bytes → words_of bytes ≡ words_in op }
{}

/// The words of an answer tell the token that it grants, or by which the lock is held, and its owner.
#[tactic(auto, using(crate::specs::Laws::granted_words_of, crate::specs::Laws::held_words_of))]
pub fn answers_are_told_in_words()
    ensures granted { (token : ℕ) → token < 2 ^ 64
        → result_words (granted token) ≡ codes "granted" ∷ decimal token ∷ [] }
    ensures held { (lock : Lock) → lock.token < 2 ^ 64
        → result_words (held lock) ≡ codes "held" ∷ decimal lock.token ∷ word_of lock.owner ∷ [] }
{}
