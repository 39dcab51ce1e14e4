ghost use Rattle.nop_types.specs.Meaning.{Meaning};
ghost use Rattle.protocol_sync.specs.Above.{GapsOpenAbove, GapsStayAbove, SyncedIsPrepared};
ghost use Rattle.protocol_sync.specs.Gathered.{StartsBeginWithSynced, StartsReachTheirPoints};
ghost use Rattle.protocol_sync.specs.Laws.{
  OpeningIsSynced,
  SyncsKeep,
  SyncPointsNeverFall,
  SynchronisedBegin,
  SynchronisedAgree,
  LinesAreLegal,
  AcceptedStandFromTheirSlots,
  OpenIsNeverStale,
  RunsAreSafe,
  RunsAreSound,
  RunsGoOn,
};

/// The opening meets what holds of sync points.
pub fn opening_is_synced()
    ensures { OpeningIsSynced }
{}

/// Whatever moves are made, what holds of sync points holds after them.
pub fn syncs_keep<S>()
    ensures { (m : Meaning S) → SyncsKeep m }
{}

/// No replica's sync point ever falls, and what it has up to there stays.
pub fn sync_points_never_fall<S>()
    ensures { (m : Meaning S) → SyncPointsNeverFall m }
{}

/// A gap that waits is above what is synchronised. So a leader may tell what it has synchronised: a
/// NO-OP at its end is settled.
pub fn gaps_stay_above<S>()
    ensures open { GapsOpenAbove }
    ensures stay { (m : Meaning S) → GapsStayAbove m }
    ensures prepared { (m : Meaning S) → SyncedIsPrepared m }
{}

/// What a view starts with begins with what each change that its leader gathered has up to its sync
/// point, and reaches the sync point that it is sent with.
pub fn starts_begin_with_synchronised<S>()
    ensures begin { (m : Meaning S) → StartsBeginWithSynced m }
    ensures point { (m : Meaning S) → StartsReachTheirPoints m }
{}

/// What a replica has up to its sync point begins the log from which the history is read.
pub fn synchronised_prefixes_begin<S>()
    ensures { (m : Meaning S) → SynchronisedBegin m }
{}

/// Any two replicas have the same entries up to both sync points.
pub fn synchronised_prefixes_agree<S>()
    ensures { (m : Meaning S) → SynchronisedAgree m }
{}

/// The lines are legal of the history that is read from the main log.
pub fn lines_are_legal<S>()
    ensures { (m : Meaning S) → LinesAreLegal m }
{}

/// What a client keeps as accepted stands in the main log from its slot on, with its result: the history
/// of each first part of the log that reaches the slot has it.
pub fn accepted_stand_from_their_slots<S>()
    ensures { (m : Meaning S) → AcceptedStandFromTheirSlots m }
{}

/// What a client has open is stale in no replica's log: no id of the client there is a window ahead of
/// it. So each of its slots has a result, in a log that serves the client.
pub fn open_is_never_stale<S>()
    ensures { (m : Meaning S) → OpenIsNeverStale m }
{}

/// Whatever moves are made from the opening, replicas agree as far as they are synchronised, what was
/// accepted is of one history, and what is open is stale in no log.
pub fn runs_are_safe<S>()
    ensures { (m : Meaning S) → RunsAreSafe m }
{}

/// All that was stamped, said, logged, replied and accepted in a run is sound.
pub fn runs_are_sound<S>()
    ensures { (m : Meaning S) → RunsAreSound m }
{}

/// What a run has reached, no later move takes back: sessions, views and sync points do not fall, and
/// a leader's log only grows.
pub fn runs_go_on<S>()
    ensures { (m : Meaning S) → RunsGoOn m }
{}
