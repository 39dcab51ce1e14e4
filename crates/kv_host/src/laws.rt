//! What the definition of the key-value service says over all lists of ops.

ghost use Rattle.std.specs.Prelude.{◌≤◌, length};
ghost use Rattle.nop_types.specs.Services.{AnswersAreBytes};
ghost use Rattle.kv_host.specs.Kv.{kv_meaning, IsSound};
ghost use Rattle.kv_host.specs.Saved.{saved};
ghost use Rattle.kv_host.specs.Values.{Kv};

/// The answers to ops of bytes are bytes.
pub fn answers_are_bytes()
    ensures { AnswersAreBytes kv_meaning }
{}

/// In the states that ops lead to no saved state has more bytes.
#[tactic(auto, using(crate::specs::SavedLaws::saves_limited))]
pub fn saved_states_are_limited()
    ensures { (kv : Kv) → IsSound kv → length (saved kv) ≤ 1327108 }
{}
