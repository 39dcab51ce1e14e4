ghost use Rattle.std.specs.Prelude.{◌≡◌, ℕ, List};
ghost use Rattle.nop_types.specs.Logs.{Whole, Trimmed};
ghost use Rattle.nop_types.specs.Meaning.{Meaning};
ghost use Rattle.nop_types.specs.declared.peer.Peer.{Peer};
ghost use Rattle.observer.specs.Observing.{Observing, told, answer};
ghost use Rattle.observer_laws.specs.Trimmed.{ObservingFits, TellsPlain, trimmed_observing};
ghost use Rattle.observer_laws.specs.Watching.{OpensWatched, RowsAreWatched, WatchedReadMain, CandidatesBegin};
ghost use Rattle.trimmed_rows.specs.Trimmed.{trimmed_peer};

use nop_types::Host;

/// The row over trimmed logs is the row over whole ones, trimmed.
pub fn rows_trim<H: Host>()
    ensures { (n : ℕ) (s : Observing) (p : Peer) → ObservingFits s → TellsPlain p.body
        → told H.meaning Trimmed n (trimmed_observing H.meaning s) (trimmed_peer H.meaning p)
        ≡ trimmed_observing H.meaning (told H.meaning Whole n s p) }
{}

/// What is read is the same.
pub fn answers_trim<H: Host>()
    ensures { (s : Observing) (op : List ℕ)
        → answer H.meaning Trimmed (trimmed_observing H.meaning s) op
        ≡ answer H.meaning Whole s op }
{}

/// Whatever comes to an observer of what was said, at any time, in any order and any number of times: what it has executed is
/// synchronised, and its candidate was told by the leader of the view, whose log it begins.
pub fn observers_are_watched<S>()
    ensures opens { OpensWatched }
    ensures rows { (m : Meaning S) → RowsAreWatched m }
    ensures candidates { (m : Meaning S) → CandidatesBegin m }
{}

/// What is read is that of the members of the history in the first slots of the main log.
pub fn watched_read_the_main_log<S>()
    ensures { (m : Meaning S) → WatchedReadMain m }
{}
