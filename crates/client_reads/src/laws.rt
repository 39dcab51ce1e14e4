//! What a client's reads do over any inputs.

ghost use Rattle.std.specs.Prelude.{◌≡◌, ◌+◌, ◌<◌, ◌^◌, ℕ, List, true, false, None, Some};
ghost use Rattle.std.specs.Prelude.{slice_get};
ghost use Rattle.nop_types.specs.Given.{Given, Submit, Ticked};
ghost use Rattle.nop_types.specs.Lists.{Has};
ghost use Rattle.nop_types.specs.declared.input.Tick.{Tick};
ghost use Rattle.nop_types.specs.declared.output.Dest.{Dest};
ghost use Rattle.nop_types.specs.declared.output.Out.TheVariants as outs;
ghost use Rattle.nop_types.specs.declared.output.Out.TheVariants.{Answered, Send};
ghost use Rattle.client_reads.specs.declared.state.Reads.{Reads};
ghost use Rattle.client_reads.specs.ReadSteps.{IsWithin, is_done, next, opening};
ghost use Rattle.client_reads.specs.Ignoring.{IgnoresPacket, IsIgnored, is_tick_for};
ghost use Rattle.client_reads.specs.Rows.{Row};
ghost use Rattle.client_reads.specs.Runs.{after, answer_count, gave, read_count};
ghost use Rattle.client_reads.specs.Runs.{IsRead, KeyFits, KeysFit, TakeTurns, WasAsked};

/// Each step is a row: nothing happens where nothing was asked, the client says that it is busy, an observer is asked for a key, the
/// read that waits is sent again, or it is answered.
pub fn steps_are_rows()
    ensures { (s : Reads) (x : Given) → Row s x (next s x) }
{}

/// One read waits at a time: each is asked under the next id, counted from 1, once the one before was answered, what is sent is the
/// read that waits, to its observer, and it is answered once, by that observer.
pub fn reads_take_turns()
    ensures { (number : ℕ) (inputs : List Given) →
        TakeTurns number None 0 (gave (opening number) inputs) }
{}

/// Each id is asked once and answered at most once.
pub fn uses_each_id_once()
    ensures asked { (number : ℕ) (inputs : List Given) (i j c d id o p : ℕ) (a b : List ℕ) →
        slice_get (gave (opening number) inputs) i ≡ Some (outs.Reading c id o a) →
        slice_get (gave (opening number) inputs) j ≡ Some (outs.Reading d id p b) → i ≡ j }
    ensures answered { (number : ℕ) (inputs : List Given)
        (i j c d id o p at be : ℕ) (a b : List ℕ) →
        slice_get (gave (opening number) inputs) i ≡ Some (Answered c id o at a) →
        slice_get (gave (opening number) inputs) j ≡ Some (Answered d id p be b) → i ≡ j }
{}

/// What is answered was asked before, of the same observer, under the same client and id.
pub fn answers_what_was_asked()
    ensures { (number : ℕ) (inputs : List Given)
        (place client id observer position : ℕ) (result : List ℕ) →
        slice_get (gave (opening number) inputs) place
        ≡ Some (Answered client id observer position result) →
        WasAsked (gave (opening number) inputs) place client id observer }
{}

/// The last id is the number of reads. All of them were answered where none waits, and all but one where one does.
pub fn counts_reads()
    ensures last { (number : ℕ) (inputs : List Given) →
        (after (opening number) inputs).last_id ≡ read_count (gave (opening number) inputs) }
    ensures done { (number : ℕ) (inputs : List Given) →
        is_done (after (opening number) inputs) ≡ true →
        answer_count (gave (opening number) inputs) ≡ read_count (gave (opening number) inputs) }
    ensures waits { (number : ℕ) (inputs : List Given) →
        is_done (after (opening number) inputs) ≡ false →
        answer_count (gave (opening number) inputs) + 1
        ≡ read_count (gave (opening number) inputs) }
{}

/// Whatever comes, each read that is sent is in its ranges.
pub fn sends_reads_in_ranges()
    ensures stays { (s : Reads) (x : Given) → IsWithin s → KeyFits x → IsWithin (next s x).0 }
    ensures step { (s : Reads) (x : Given) → IsWithin s → KeyFits x →
        (dest : Dest) (bytes : List ℕ) →
        Has (next s x).1 (Send dest bytes) → IsRead s.number dest bytes }
    ensures run { (number : ℕ) (inputs : List Given) → number < 2 ^ 32 → KeysFit inputs →
        (dest : Dest) (bytes : List ℕ) →
        Has (gave (opening number) inputs) (Send dest bytes) → IsRead number dest bytes }
{}

/// What is not for the reads changes nothing and sends nothing: bytes that spell no datagram, a datagram that is no answer to the read
/// that waits, a tick for others, and an op.
pub fn ignores_what_is_for_others()
    ensures packets { (s : Reads) (bytes : List ℕ) → IgnoresPacket s bytes }
    ensures ticks { (s : Reads) (tick : Tick) → is_tick_for tick ≡ false →
        IsIgnored s (Ticked tick) }
    ensures ops { (s : Reads) (op : List ℕ) → IsIgnored s (Submit op) }
{}
