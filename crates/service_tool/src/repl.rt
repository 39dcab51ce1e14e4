//! Ops from the lines of an input, one after another, as one client.

ghost use Rattle.std.specs.Prelude.{◌≡◌, IfOk, None};
ghost use Rattle.outside.specs.Causes.{Rose};
ghost use Rattle.service_tool.specs.Outputs.{FaultsFor, WroteErr, faults, outputs};
ghost use Rattle.service_tool.specs.Repl.{TakesLine, TakesLines, TakesOp, goes_on, worse};
ghost use Rattle.service_tool.specs.Statuses.{IsOfCall};
ghost use Rattle.service_tool.specs.Telling.{fault_text};
ghost use Rattle.service_tool.specs.declared.status.Status.TheVariants as statuses;

use crate::calling::{Manner, call, tell};
use crate::reason::{Fault, Reason};
use crate::status::{Status, read_text};
use crate::telling::{Tool, fault};
use client_call::Session;
use line_reader::LineReader;
use nop_types::Bytes;
use op_text::OpText;
use outside::{Clock, Link, Sink, Source, WriteError, write_all};
use service_words::{MAX_TEXT_LINES, fields_of, is_too_much};
use std::alloc::Global;

/// Tells what is wrong with the first of words; the input goes on, if it can.
#[tactic(auto, using(crate::proofs::FaultLemmas::err_fault))]
fn refuse<K: Sink, E: Sink>(
    alloc: Global,
    tool: &Tool<'_>,
    words: &[Bytes],
    reason: Reason,
    out: &K,
    err: &mut E,
) -> Result<Status, WriteError>
    ensures tells { IfOk result (λ status. (status ≡ statuses.Usage) × WroteErr
        (fault_text tool.now words.now (record { reason = reason; at = 0 }))
        (outputs (K.held out.now) (K.held out.now) (E.held err.old) (E.held err.new))) }
    ensures faults { FaultsFor (faults (K.fault_count out.now) (K.fault_count out.now)
        (E.fault_count err.old) (E.fault_count err.new)) result }
{
    let text = fault(alloc, tool, words, Fault { reason, at: 0 })?;
    write_all(err, &text)?;
    Ok(Status::Usage)
}

/// Has the op of words executed, and writes its result, or tells why there is none.
fn take_words<T: OpText, L: Link, C: Clock, K: Sink, E: Sink>(
    alloc: Global,
    tool: &Tool<'_>,
    session: &mut Session<L>,
    manner: Manner,
    words: &[Bytes],
    clock: &mut C,
    out: &mut K,
    err: &mut E,
) -> Result<Status, WriteError>
    // What is written is the result of the op that the words name.
    ensures takes { IfOk result (TakesOp T.result_words tool.now
        session.old.core.state session.new.core.state session.old.ended session.new.ended
        words.now (T.op_of words.now) manner.slot
        (outputs (K.held out.old) (K.held out.new) (E.held err.old) (E.held err.new))) }
    ensures status { IfOk result IsOfCall }
    ensures faults { FaultsFor (faults (K.fault_count out.old) (K.fault_count out.new)
        (E.fault_count err.old) (E.fault_count err.new)) result }
{
    match T::op(alloc, words)? {
        Some(op) => call::<T, L, C, K, E>(alloc, tool, session, manner, &op, clock, out, err),
        None => refuse(alloc, tool, words, Reason::BadOp, out, err),
    }
}

/// Takes a line. One without words asks for nothing.
fn take_line<T: OpText, L: Link, C: Clock, K: Sink, E: Sink>(
    alloc: Global,
    tool: &Tool<'_>,
    session: &mut Session<L>,
    manner: Manner,
    line: &[u8],
    clock: &mut C,
    out: &mut K,
    err: &mut E,
) -> Result<Status, WriteError>
    ensures takes { session.old.ended ≡ None → IfOk result (TakesLine T.op_of T.result_words
        tool.now manner.slot line.now
        session.old.core.state session.new.core.state session.new.ended
        (outputs (K.held out.old) (K.held out.new) (E.held err.old) (E.held err.new))) }
    ensures status { IfOk result IsOfCall }
    ensures faults { FaultsFor (faults (K.fault_count out.old) (K.fault_count out.new)
        (E.fault_count err.old) (E.fault_count err.new)) result }
{
    if line.is_empty() {
        return Ok(Status::Done);
    }
    let words = fields_of(alloc, line)?;
    take_words::<T, L, C, K, E>(
        alloc,
        tool,
        session,
        manner,
        words.as_slice(),
        clock,
        out,
        err,
    )
}

/// The first status that is not Done.
fn worse(before: Status, now: Status) -> Status
    ensures { result ≡ worse before now }
{
    if before == Status::Done { now } else { before }
}

/// Whether ops go on after this status: after a fault of the link, and where memory ran out, they don't.
fn goes_on(status: Status) -> bool
    ensures { result ≡ goes_on status }
{
    status == Status::Done || status == Status::Usage || status == Status::Unanswered
}

/// Has the op of each line executed, as its answer comes, and says how that ended: with the first
/// status that is not Done. A line that is too long is the last one.
pub(crate) fn take_lines<T: OpText, L: Link, C: Clock, S: Source, K: Sink, E: Sink>(
    alloc: Global,
    tool: &Tool<'_>,
    session: &mut Session<L>,
    manner: Manner,
    source: &mut S,
    clock: &mut C,
    out: &mut K,
    err: &mut E,
) -> Result<Status, WriteError>
    requires { session.old.ended ≡ None }
    // Each line of the input was taken, in order: its op submitted and its result written.
    ensures takes { IfOk result (TakesLines T.op_of T.result_words tool.now manner.slot
        (S.left source.old) (S.left source.new) session.old.core.state
        (outputs (K.held out.old) (K.held out.new) (E.held err.old) (E.held err.new))) }
    ensures reads { IfOk result (λ status. status ≡ statuses.ReadFault
        → Rose (S.fault_count source.old) (S.fault_count source.new)) }
    ensures faults { FaultsFor (faults (K.fault_count out.old) (K.fault_count out.new)
        (E.fault_count err.old) (E.fault_count err.new)) result }
{
    let mut lines = LineReader::new(alloc, MAX_TEXT_LINES);
    let mut status = Status::Done;
    loop {
        let first = match lines.next_line(source) {
            Ok(Some(first)) => first,
            Ok(None) => return Ok(status),
            Err(e) => {
                tell(alloc, tool, read_text(e), err)?;
                return Ok(worse(status, Status::from(e)));
            }
        };
        if is_too_much(lines.line(), first.len) {
            let ended = refuse(alloc, tool, &[], Reason::LongInput, out, err)?;
            return Ok(worse(status, ended));
        }
        let line = lines.text(first);
        let ended = take_line::<T, L, C, K, E>(
            alloc, tool, session, manner, line, clock, out, err,
        )?;
        lines.take(first);
        status = worse(status, ended);
        if !goes_on(ended) {
            return Ok(status);
        }
    }
}
