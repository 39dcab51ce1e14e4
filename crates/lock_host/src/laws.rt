//! What the definitions of the lock service say together, over all lists of ops.

ghost use Rattle.std.specs.Prelude.{◌≤◌, ℕ, List, length};
ghost use Rattle.nop_types.specs.Services.{AnswersAreBytes};
ghost use Rattle.lock_host.specs.Saved.{saved};
ghost use Rattle.lock_host.specs.Service.{lock_meaning};
ghost use Rattle.lock_host.specs.Spelling.{ReadsSpelled, ReadsOnlySpelled};
ghost use Rattle.lock_host.specs.Tokens.{TokensRise, OneHolder, OneLock, ReleasesOwn};
ghost use Rattle.lock_host.specs.Tokens.{HeldUntilReleased, AnswersGrants, AnswersAgain, reached};

/// An op is read from the bytes that spell it, and from no others.
pub fn ops_are_read_as_spelled()
    ensures read { ReadsSpelled }
    ensures spelled { ReadsOnlySpelled }
{}

/// A token that is granted is above all by which any lock was held at any time before.
pub fn tokens_rise()
    ensures { TokensRise }
{}

/// A lock has at most one holder, with one token; and by one token one lock is held.
pub fn a_lock_has_one_holder()
    ensures holder { OneHolder }
    ensures lock { OneLock }
{}

/// A release changes nothing, unless its owner holds the lock by its token.
pub fn only_the_holder_releases()
    ensures { ReleasesOwn }
{}

/// Who holds a lock holds it until it releases it by its token: no other op takes it away.
pub fn locks_are_held_until_released()
    ensures { HeldUntilReleased }
{}

/// After an acquire its owner holds the lock by the token that is answered, or nothing has changed
/// and no token is answered; and who holds the lock already is answered its token again.
pub fn a_grant_is_answered()
    ensures grants { AnswersGrants }
    ensures again { AnswersAgain }
{}

/// The answers to ops of bytes are bytes.
pub fn answers_are_bytes()
    ensures { AnswersAreBytes lock_meaning }
{}

/// No answer and no saved state has more bytes, whatever ops came.
pub fn answers_and_states_are_limited()
    ensures answers { (ops : List (List ℕ)) (op : List ℕ)
        → length (lock_meaning.answer (reached ops) op) ≤ 76 }
    ensures states { (ops : List (List ℕ)) → length (saved (reached ops)) ≤ 565264 }
{}
