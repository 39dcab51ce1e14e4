ghost use Rattle.std.specs.Prelude.{◌≡◌, ◌≤◌, ℕ, List, Some, length};
ghost use Rattle.nop_types.specs.declared.limits.TheConstants.{
  MAX_HOST_BYTES,
  MAX_RESULT_BYTES,
  MAX_SERVED,
};
ghost use Rattle.nop_types.specs.declared.request.Entry.{Entry};
ghost use Rattle.nop_types.specs.Meaning.{Meaning};
ghost use Rattle.nop_types.specs.Lists.{Has};
ghost use Rattle.nop_types.specs.declared.checkpoint.Answered.{Answered};
ghost use Rattle.nop_types.specs.Tables.{Account};
ghost use Rattle.nop_types.specs.Execution.{Executed, exec};
ghost use Rattle.nop_types.specs.Checkpoints.{checkpoint_of, loaded_of, KeepsTo};

use nop_types::Host;

/// A host keeps to what a checkpoint needs.
pub fn hosts_keep<H: Host>()
    ensures { KeepsTo H.meaning H.is_sound }
{}

/// A log leaves the host in a state that ops lead to.
pub fn execs_are_sound<H: Host>()
    ensures { (log : List Entry) → H.is_sound (exec H.meaning log).host }
{}

/// An execution loads from its checkpoint as it was, where ops lead to the host's state.
pub fn checkpoints_load<H: Host>()
    ensures one { (x : Executed H.State) → H.is_sound x.host
        → loaded_of H.meaning (checkpoint_of H.meaning x) ≡ Some x }
    ensures of_log { (log : List Entry)
        → loaded_of H.meaning (checkpoint_of H.meaning (exec H.meaning log))
        ≡ Some (exec H.meaning log) }
{}

/// The checkpoint of a log is within the limits of the host's bytes, of clients and of results.
pub fn checkpoints_fit<H: Host>()
    ensures host { (log : List Entry)
        → length (checkpoint_of H.meaning (exec H.meaning log)).host ≤ MAX_HOST_BYTES }
    ensures clients { (log : List Entry)
        → length (checkpoint_of H.meaning (exec H.meaning log)).clients ≤ MAX_SERVED }
    ensures results { (log : List Entry) (client : ℕ) (a : Account) (k : Answered)
        → Has (checkpoint_of H.meaning (exec H.meaning log)).clients (client, a)
        → Has a.kept k → length k.result ≤ MAX_RESULT_BYTES }
{}
