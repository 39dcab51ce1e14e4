//! Ops of a session, and the lines of their results.

ghost use Rattle.std.specs.Prelude.{◌≡◌, ◌++◌, ◌∷◌, [], codes, decimal, IfOk, None, OnOk};
ghost use Rattle.std.specs.Io.KnownBytes.{Appends};
ghost use Rattle.outside.specs.Causes.{CountsFor};
ghost use Rattle.outside.specs.declared.errors.DeviceError.TheVariants as devices;
ghost use Rattle.service_tool.specs.Calls.{Answers, Calls, Concludes, GoesOnBy};
ghost use Rattle.service_tool.specs.Calls.{line_of, lines_of, slot_line};
ghost use Rattle.service_tool.specs.Outputs.{FaultsFor, faults, outputs};
ghost use Rattle.service_tool.specs.Statuses.{IsOfCall};
ghost use Rattle.service_tool.specs.Telling.{told_line};

use crate::status::{Status, call_text};
use crate::telling::{Tool, told_line};
use client_call::{CallError, Session};
use nop_types::{Accept, Bytes, NoMemory, Op};
use op_text::{OpText, Words};
use outside::{Clock, Link, Sink, WriteError, write_all};
use std::alloc::Global;

/// How ops are submitted: the most turns of each, and whether its slot is written too.
#[derive(Clone, Copy)]
pub(crate) struct Manner {
    pub(crate) turns: u64,
    pub(crate) slot: bool,
}

/// Appends words as a line.
fn put_line(words: &Words, to: &mut Vec<u8>) -> Result<(), NoMemory>
    ensures { OnOk result (to.new.items ≡ to.old.items ++ line_of words.now) }
{
    let text = words.text()?;
    to.extend_from_slice(&text)?;
    to.push(b'\n')?;
    Ok(())
}

/// The words of a slot.
fn slot_words(alloc: Global, slot: u32) -> Result<Words, NoMemory>
    ensures { IfOk result (λ words. words ≡ codes "slot" ∷ decimal slot ∷ []) }
{
    let mut words = Words::new(alloc);
    words.put(b"slot")?;
    words.put_number(u64::from(slot))?;
    Ok(words)
}

/// Appends the line of a slot, where it is asked for.
fn put_slot(alloc: Global, asked: bool, slot: u32, to: &mut Vec<u8>) -> Result<(), NoMemory>
    ensures { OnOk result (to.new.items ≡ to.old.items ++ slot_line asked slot) }
{
    if !asked {
        return Ok(());
    }
    put_line(&slot_words(alloc, slot)?, to)
}

/// The lines of an acceptance.
fn lines_of<T: OpText>(alloc: Global, with_slot: bool, accept: &Accept) -> Result<Bytes, NoMemory>
    ensures { IfOk result (λ lines. lines ≡ lines_of T.result_words with_slot accept.now) }
{
    let mut lines = Vec::new(alloc);
    put_slot(alloc, with_slot, accept.slot, &mut lines)?;
    put_line(&T::result(alloc, accept.result.as_slice())?, &mut lines)?;
    Ok(Bytes::from_vec(lines))
}

/// Has an op executed, and gives the lines of its result.
#[tactic(auto, using(crate::proofs::CallLemmas::goes_on))]
fn execute<T: OpText, L: Link, C: Clock>(
    alloc: Global,
    session: &mut Session<L>,
    manner: Manner,
    op: &Op,
    clock: &mut C,
) -> Result<Bytes, CallError>
    // The lines are those of the result with which the replicas replied to the request of the next id,
    // which has this op.
    ensures answers { Answers T.result_words session.old.core.state op.now manner.slot result }
    ensures goes_on { session.old.ended ≡ None
        → GoesOnBy session.old.core.state session.new.core.state op.now session.new.ended result }
{
    let accept = session.submit(op, manner.turns, clock)?;
    Ok(lines_of::<T>(alloc, manner.slot, &accept)?)
}

/// Tells something of no word.
pub(crate) fn tell<E: Sink>(
    alloc: Global,
    tool: &Tool<'_>,
    text: &str,
    err: &mut E,
) -> Result<(), WriteError>
    ensures ok { OnOk result (Appends (E.held err.old) (E.held err.new)
        (told_line tool.now.program.now text.now)) }
    ensures count { CountsFor (E.fault_count err.old) (E.fault_count err.new)
        devices.Failed result }
{
    let line = told_line(alloc, tool.program, text)?;
    write_all(err, &line)
}

/// Writes the lines of an answer, or tells why there is none.
#[tactic(auto, using(crate::proofs::FaultLemmas::out_fault, crate::proofs::FaultLemmas::err_fault))]
pub(crate) fn conclude<K: Sink, E: Sink>(
    alloc: Global,
    tool: &Tool<'_>,
    answer: Result<Bytes, CallError>,
    out: &mut K,
    err: &mut E,
) -> Result<Status, WriteError>
    ensures writes { IfOk result (Concludes tool.now.program.now answer
        (outputs (K.held out.old) (K.held out.new) (E.held err.old) (E.held err.new))) }
    ensures faults { FaultsFor (faults (K.fault_count out.old) (K.fault_count out.new)
        (E.fault_count err.old) (E.fault_count err.new)) result }
{
    match answer {
        Ok(lines) => {
            write_all(out, lines.as_slice())?;
            Ok(Status::Done)
        }
        Err(e) => {
            tell(alloc, tool, call_text(e), err)?;
            Ok(Status::from(e))
        }
    }
}

/// Has an op executed, and writes its result, or tells why there is none.
pub(crate) fn call<T: OpText, L: Link, C: Clock, K: Sink, E: Sink>(
    alloc: Global,
    tool: &Tool<'_>,
    session: &mut Session<L>,
    manner: Manner,
    op: &Op,
    clock: &mut C,
    out: &mut K,
    err: &mut E,
) -> Result<Status, WriteError>
    ensures calls { IfOk result (Calls T.result_words tool.now.program.now
        session.old.core.state session.new.core.state session.old.ended session.new.ended
        op.now manner.slot
        (outputs (K.held out.old) (K.held out.new) (E.held err.old) (E.held err.new))) }
    ensures status { IfOk result IsOfCall }
    ensures faults { FaultsFor (faults (K.fault_count out.old) (K.fault_count out.new)
        (E.fault_count err.old) (E.fault_count err.new)) result }
{
    let answer = execute::<T, L, C>(alloc, session, manner, op, clock);
    conclude(alloc, tool, answer, out, err)
}
