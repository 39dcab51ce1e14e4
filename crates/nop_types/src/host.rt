ghost use Rattle.std.specs.Prelude.{◌≡◌, ◌≤◌, ℕ, List, length, Some, IfOk, OnOk, OnErr, option_map};
ghost use Rattle.nop_types.specs.Meaning.{Meaning};
ghost use Rattle.nop_types.specs.declared.limits.TheConstants.{MAX_RESULT_BYTES, MAX_HOST_BYTES};

use crate::{Bytes, NoMemory};
use std::alloc::Global;

/// A deterministic service: its answer and its next state are functions of state and op, each op can be undone, and a state
/// can be saved as bytes.
pub trait Host: Sized + Drop {
    /// What undoes an op.
    type Undo: Drop;

    /// What the host's answers depend on.
    ghost State: { Type 0 };

    ghost state: { Self → State };

    ghost meaning: { Meaning State };

    ghost undo_of: { State → List ℕ → Self.Undo };

    ghost undone: { State → Self.Undo → State };

    /// The host has the room to undo with this record; a fact apart from its state.
    ghost fits: { Self → Self.Undo → Type 0 };

    /// Holds of the states that ops lead to.
    ghost is_sound: { State → Type 0 };

    fn fresh(alloc: Global) -> Result<Self, NoMemory>
        ensures { IfOk result (λ host. state host ≡ meaning.opening) };

    /// Answers an op, and says how to undo it. An answer has at most `MAX_RESULT_BYTES` bytes.
    fn apply(&mut self, op: &[u8]) -> Result<(Bytes, Self::Undo), NoMemory>
        ensures answer { IfOk result (λ r. r.0 ≡ meaning.answer (state self.old) op.now) }
        ensures short { IfOk result (λ r. length r.0 ≤ MAX_RESULT_BYTES) }
        ensures after { OnOk result (state self.new ≡ meaning.after (state self.old) op.now) }
        ensures undo { IfOk result (λ r. r.1 ≡ undo_of (state self.old) op.now) }
        ensures fits { IfOk result (λ r. fits self.new r.1) }
        ensures still_fits { (u : Self.Undo) → fits self.old u → fits self.new u }
        ensures err { OnErr result (state self.new ≡ state self.old) };

    /// Takes an op back. It takes no memory.
    fn undo(&mut self, undo: Self::Undo)
        requires { fits self.old undo }
        ensures state { state self.new ≡ undone (state self.old) undo }
        ensures still_fits { (u : Self.Undo) → fits self.old u → fits self.new u };

    fn copy(&self) -> Result<Self, NoMemory>
        ensures { IfOk result (λ host. state host ≡ state self.now) };

    /// The state as bytes, at most `MAX_HOST_BYTES`.
    fn save(&self) -> Result<Bytes, NoMemory>
        ensures saved { IfOk result (λ bytes. bytes ≡ meaning.saved (state self.now)) };

    /// A host in the state that was saved as these bytes; None exactly where they are no saved state.
    fn load(alloc: Global, bytes: &[u8]) -> Result<Option<Self>, NoMemory>
        ensures { IfOk result (λ host. option_map state host ≡ meaning.loaded bytes.now) };

    ghost undoes: { (s : State) (op : List ℕ) → undone (meaning.after s op) (undo_of s op) ≡ s };

    ghost opens_sound: { is_sound meaning.opening };

    ghost stays_sound: { (s : State) (op : List ℕ) → is_sound s → is_sound (meaning.after s op) };

    ghost answers_short: { (s : State) (op : List ℕ) → is_sound s
        → length (meaning.answer s op) ≤ MAX_RESULT_BYTES };

    ghost saves_short: { (s : State) → is_sound s → length (meaning.saved s) ≤ MAX_HOST_BYTES };

    ghost loads_saved: { (s : State) → is_sound s → meaning.loaded (meaning.saved s) ≡ Some s };

    ghost loads_only: { (bytes : List ℕ) (s : State) → meaning.loaded bytes ≡ Some s
        → is_sound s × (meaning.saved s ≡ bytes) };
}
