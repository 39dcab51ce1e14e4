//! What is replayed passes a check.

ghost use Rattle.std.specs.Prelude.{◌↔◌, ℕ, List, true};
ghost use Rattle.nop_types.specs.Services.{AnswersAreBytes};
ghost use Rattle.kv_host.specs.Kv.{kv_meaning};
ghost use Rattle.lock_host.specs.Service.{lock_meaning};
ghost use Rattle.replay.specs.Output.{output};
ghost use Rattle.replay.specs.Safety.{RunsSafely};
ghost use Rattle.judged_runs.specs.Passing.{RunsPass};
ghost use Rattle.judged_runs.specs.Runs.{HasRoom, IsLegalRun};

use nop_types::Host;

/// What a replay over such a host writes is a transcript, and its history is legal for its claims, exactly where it has no line
/// too many.
pub fn runs_are_legal<H: Host>()
    ensures { AnswersAreBytes H.meaning → (bytes : List ℕ) → (ran : RunsSafely H.meaning bytes)
        → (HasRoom (output H.meaning true bytes).text
        ↔ IsLegalRun H.meaning ran.header ran.happened (output H.meaning true bytes).text) }
{}

/// Whatever a check of the bytes that a replay wrote answers: it passes with the counts of this run, or a read failed or memory
/// ran out. So of any host whose answers to bytes are bytes.
pub fn replayed_runs_pass<H: Host>()
    ensures { AnswersAreBytes H.meaning → RunsPass H.meaning }
{}

/// So of the key-value service.
pub fn kv_runs_pass()
    ensures { RunsPass kv_meaning }
{}

/// So of the lock service.
pub fn lock_runs_pass()
    ensures { RunsPass lock_meaning }
{}
