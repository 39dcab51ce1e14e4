ghost use Rattle.std.specs.Prelude.{◌≡◌, List, [], true};
ghost use Rattle.nop_types.specs.Configuration.{Configuration, is_configuration};
ghost use Rattle.nop_types.specs.Meaning.{Meaning};
ghost use Rattle.nop_types.specs.declared.output.Actor.{Actor};
ghost use Rattle.whole_world.specs.Archives.{IsArchive, ArchivesGoOn};
ghost use Rattle.whole_world.specs.Coming.{
  DatagramsWereSent,
  HeardIsAnswer,
  JunkIsNoDatagram,
  MessagesWereSent,
};
ghost use Rattle.whole_world.specs.Passed.{passed};
ghost use Rattle.whole_world.specs.Safe.{AllFit, CrashedStay, WholeRunsAreSafe};
ghost use Rattle.whole_world.specs.Trimming.{RowsTrim, SafeCanTrim, WholeCanTrim};
ghost use Rattle.whole_world.specs.Whole.{Brings, opening};

use nop_types::Host;

/// Each run of the whole world is safe: over any host whose results fit a reply, and for every list of events in their ranges.
pub fn whole_runs_are_safe<S>()
    ensures { (m : Meaning S) → WholeRunsAreSafe m }
{}

/// What comes to a crashed replica changes nothing.
pub fn crashed_replicas_stay<S>()
    ensures { (m : Meaning S) → CrashedStay m }
{}

/// Nothing but an answer comes that was not sent: a datagram was sent with these bytes, junk spells none, what is heard spells an
/// answer, and a message is that of a letter with this sender and number.
pub fn what_comes_was_sent()
    ensures datagrams { DatagramsWereSent }
    ensures junk { JunkIsNoDatagram }
    ensures heard { HeardIsAnswer }
    ensures messages { MessagesWereSent }
{}

/// What trimming needs holds after any list of events in their ranges, so of each safe run: the sync points of replicas, of messages
/// and of changes that are gathered are within their logs; the changes that a view is started with agree up to the greatest of their
/// sync points, also with one more that comes in a letter; and what is synchronised is the same in all replicas and messages.
pub fn whole_can_trim<S>()
    ensures events { (m : Meaning S) → WholeCanTrim m }
    ensures safe { (m : Meaning S) → SafeCanTrim m }
{}

/// The entries that move out of logs as sync points rise are an archive of what is synchronised: empty
/// at the opening, and after each event again.
pub fn archives_go_on<S>()
    ensures opens { (config : Configuration) → is_configuration config ≡ true
        → IsArchive [] (opening config) }
    ensures goes_on { (m : Meaning S) → ArchivesGoOn m }
{}

/// After any list of events in their ranges, whatever the next event delivers to a replica: the row over its trimmed log does what the row
/// over the whole one does, trimmed.
pub fn whole_rows_trim<H: Host>()
    ensures { (config : Configuration) (es : List (Actor × Brings))
        → is_configuration config ≡ true → AllFit es
        → RowsTrim H.meaning (passed H.meaning config es).world }
{}
