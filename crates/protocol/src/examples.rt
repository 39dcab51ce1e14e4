ghost use Rattle.nop_types.specs.Meaning.{Meaning};
ghost use Rattle.protocol.specs.Worked.{GapRunEnds, SessionRunEnds, SyncRunEnds, LogSentRunEnds};

/// Moves that may be made, and where they end: a gap is agreed on, a reply is accepted, and the
/// view changes.
pub fn gap_run<S>()
    ensures { (m : Meaning S) → GapRunEnds m }
{}

/// A timeout and a new session at once: both end in one view, and a packet that came before that
/// view started is logged in it.
pub fn session_run<S>()
    ensures { (m : Meaning S) → SessionRunEnds m }
{}

/// A prefix is synchronised, and a follower obeys the commit once it has taken the log. The other one
/// takes the sync point with a log that is sent again.
pub fn sync_run<S>()
    ensures synced { (m : Meaning S) → SyncRunEnds m }
    ensures sent { (m : Meaning S) → LogSentRunEnds m }
{}
