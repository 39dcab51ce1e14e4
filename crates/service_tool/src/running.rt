//! What is asked for is done: texts are written, and ops executed over ports.

ghost use Rattle.std.specs.Prelude.{◌≡◌, ◌+◌, IfOk, None, length};
ghost use Rattle.client_call.specs.Sessions.{opening};
ghost use Rattle.outside.specs.Causes.{Rose};
ghost use Rattle.service_tool.specs.Asked.{asked_of};
ghost use Rattle.service_tool.specs.Outputs.{FaultsFor, faults, outputs};
ghost use Rattle.service_tool.specs.Running.{Does, DoesIn, Tells};
ghost use Rattle.service_tool.specs.declared.status.Status.TheVariants as statuses;

use crate::asked::{Asked, Command, asked_of};
use crate::calling::{Manner, call, conclude};
use crate::repl::take_lines;
use crate::status::Status;
use crate::telling::{Tool, fault, help, version};
use client_call::{Service, Session, close_session, open_session};
use nop_types::Bytes;
use op_text::OpText;
use outside::{Clock, Link, Ports, Sink, Source, WriteError, write_all};
use std::alloc::Global;

/// What the words ask for, where that takes a service or is turned; else how the program ends, with
/// what was told.
#[tactic(auto, using(crate::proofs::FaultLemmas::out_fault, crate::proofs::FaultLemmas::err_fault))]
pub fn told<T: OpText, K: Sink, E: Sink>(
    alloc: Global,
    tool: &Tool<'_>,
    words: &[Bytes],
    out: &mut K,
    err: &mut E,
) -> Result<Result<Asked, Status>, WriteError>
    ensures tells { IfOk result (Tells tool.now words.now (asked_of T.op_of words.now)
        (outputs (K.held out.old) (K.held out.new) (E.held err.old) (E.held err.new))) }
    ensures faults { FaultsFor (faults (K.fault_count out.old) (K.fault_count out.new)
        (E.fault_count err.old) (E.fault_count err.new)) result }
{
    let asked = match asked_of::<T>(alloc, words)? {
        Ok(asked) => asked,
        Err(bad) => {
            write_all(err, &fault(alloc, tool, words, bad)?)?;
            return Ok(Err(Status::Usage));
        }
    };
    match asked.command {
        Command::Help(at) => {
            write_all(out, &help(alloc, tool, words, at)?)?;
            Ok(Err(Status::Done))
        }
        Command::Version => {
            write_all(out, &version(alloc, tool)?)?;
            Ok(Err(Status::Done))
        }
        _ => Ok(Ok(asked)),
    }
}

/// Does what is asked for in a session.
fn run_session<T: OpText, L: Link, C: Clock, S: Source, K: Sink, E: Sink>(
    alloc: Global,
    tool: &Tool<'_>,
    session: &mut Session<L>,
    asked: &Asked,
    source: &mut S,
    clock: &mut C,
    out: &mut K,
    err: &mut E,
) -> Result<Status, WriteError>
    requires { session.old.ended ≡ None }
    ensures does { IfOk result (DoesIn T.op_of T.result_words tool.now
        (S.left source.old) (S.left source.new)
        session.old.core.state asked.now.command asked.now.options.slot
        (outputs (K.held out.old) (K.held out.new) (E.held err.old) (E.held err.new))) }
    ensures reads { IfOk result (λ status. status ≡ statuses.ReadFault
        → Rose (S.fault_count source.old) (S.fault_count source.new)) }
    ensures faults { FaultsFor (faults (K.fault_count out.old) (K.fault_count out.new)
        (E.fault_count err.old) (E.fault_count err.new)) result }
{
    let manner = Manner {
        turns: asked.options.turns,
        slot: asked.options.slot,
    };
    match &asked.command {
        Command::Execute(op) => {
            call::<T, L, C, K, E>(alloc, tool, session, manner, op, clock, out, err)
        }
        Command::Repl => take_lines::<T, L, C, S, K, E>(
            alloc, tool, session, manner, source, clock, out, err,
        ),
        _ => Ok(Status::Done),
    }
}

/// Does what is asked for as one client of a service. The client's number is one that was never
/// used before.
pub fn run_command<T: OpText, P: Ports, C: Clock, S: Source, K: Sink, E: Sink>(
    alloc: Global,
    tool: &Tool<'_>,
    service: &Service,
    number: u32,
    asked: &Asked,
    source: &mut S,
    ports: &mut P,
    clock: &mut C,
    out: &mut K,
    err: &mut E,
) -> Result<Status, WriteError>
    // What is written is the result of the op that is asked for, or of the op of each line; where no
    // session could be opened, why is told.
    ensures does { IfOk result (Does T.op_of T.result_words tool.now
        (S.left source.old) (S.left source.new)
        (opening service.now.config number) asked.now.command asked.now.options.slot
        (outputs (K.held out.old) (K.held out.new) (E.held err.old) (E.held err.new))
        (P.attached ports.old) (P.attached ports.new)) }

    // The client's port is given back.
    ensures back { P.attached ports.new + length (P.detached ports.old)
        ≡ P.attached ports.old + length (P.detached ports.new) }

    ensures reads { IfOk result (λ status. status ≡ statuses.ReadFault
        → Rose (S.fault_count source.old) (S.fault_count source.new)) }
    ensures faults { FaultsFor (faults (K.fault_count out.old) (K.fault_count out.new)
        (E.fault_count err.old) (E.fault_count err.new)) result }
{
    match open_session(alloc, service, number, ports) {
        Ok(session) => {
            let mut session = session;
            let ended = run_session::<T, P::L, C, S, K, E>(
                alloc,
                tool,
                &mut session,
                asked,
                source,
                clock,
                out,
                err,
            );
            close_session(session, ports);
            ended
        }
        Err(e) => conclude(alloc, tool, Err(e), out, err),
    }
}
