//! The calls that may read the source. Each wants that all is written that the bytes taken so far decide, unless it will not read.

ghost use Rattle.std.specs.Prelude.{◌≡◌, ◌+◌, ◌≤◌, Err, IsSome, IsTrue, IfOk, OnOk, OnErr};
ghost use Rattle.nop_types.specs.Headers.{gives};
ghost use Rattle.nop_types.specs.declared.limits.TheConstants.{MAX_LINES};
ghost use Rattle.outside.specs.Causes.{CountsFor};
ghost use Rattle.schedule_text.specs.Reading.{form_of, lines_taken, HasConfig, LeavesNone, TakesOf};
ghost use Rattle.schedule_text.specs.Stepping.{after_step};
ghost use Rattle.schedule_text.specs.declared.next_error.NextError.TheVariants as nexts;
ghost use Rattle.replay.specs.Progress.{MayRead, Start};

use nop_types::{Config, Host};
use outside::{Sink, Source};
use schedule_text::{Event, NextError, Reader};

/// What line 1 says. The sink is the one that the lines are written to.
pub fn open<H: Host, S: Source, K: Sink>(
    reader: &mut Reader,
    source: &mut S,
    sink: &K,
) -> Result<Config, NextError>
    ghost start: { Start }
    requires written { MayRead H.meaning start reader.old (S.left source.old) (K.held sink.now) }
    ensures config { IfOk result (HasConfig reader.new.header) }
    ensures form { IfOk result (λ c. IsTrue (gives (form_of reader.new.header) c)) }
    ensures line { OnOk result ((1 ≤ reader.new.line) × (reader.new.line ≤ MAX_LINES)) }
    ensures closed { OnErr result (reader.new.header ≡ reader.old.header) }
    ensures takes { TakesOf reader.old reader.new (S.left source.old) (S.left source.new)
        (after_step result) }
    ensures none_left { LeavesNone reader.new (after_step result) }
    ensures count { CountsFor (S.fault_count source.old) (S.fault_count source.new)
        nexts.ReadFault result }
{
    reader.open(source)
}

/// The event of the next line, None at the end of the source. The sink is the one that the lines are written to.
pub fn next_event<H: Host, S: Source, K: Sink>(
    reader: &mut Reader,
    source: &mut S,
    sink: &K,
) -> Result<Option<Event>, NextError>
    ghost start: { Start }
    requires written { MayRead H.meaning start reader.old (S.left source.old) (K.held sink.now) }
    ensures takes { TakesOf reader.old reader.new (S.left source.old) (S.left source.new) result }
    ensures none_left { LeavesNone reader.new result }
    ensures header { IsSome reader.old.header → reader.new.header ≡ reader.old.header }
    ensures line { IsSome reader.old.header → reader.new.line
        ≡ reader.old.line + lines_taken result }
    ensures count { CountsFor (S.fault_count source.old) (S.fault_count source.new)
        nexts.ReadFault result }
{
    reader.next(source)
}
