ghost use Rattle.std.specs.Prelude.{◌∷◌, [], map};
ghost use Rattle.nop_types.specs.Given.{given};
ghost use Rattle.outside.specs.Causes.{CountsFor};
ghost use Rattle.outside.specs.declared.errors.DeviceError.TheVariants as devices;
ghost use Rattle.transcript_text.specs.Transcript as texts;
ghost use Rattle.udp_node.specs.Effects.{effects_of, effects, Call, Writes};
ghost use Rattle.udp_node.specs.Nodes.{asks_of, Does, Takes};
ghost use Rattle.udp_node.specs.Ports.{datagrams_to};

use crate::node::Node;
use crate::sending::send_to;
use nop_types::{Bytes, Core, Dest, Input, Key, NoMemory, Out, Outbox, Request};
use outside::{Link, Sink, WriteError, write_all};
use std::alloc::Global;
use transcript_text::{accept_line, answer_line, read_line, submit_line};

fn write_submit<W: Sink>(alloc: Global, request: &Request, sink: &mut W) -> Result<(), WriteError>
    ensures line { Writes (texts.submit_line request.now) result (W.held sink.old)
        (W.held sink.new) }
    ensures count { CountsFor (W.fault_count sink.old) (W.fault_count sink.new)
        devices.Failed result }
{
    let mut line = Vec::new(alloc);
    submit_line(request, &mut line)?;
    write_all(sink, &line)
}

fn write_accept<W: Sink>(
    alloc: Global,
    client: u32,
    id: u64,
    answer: &Bytes,
    sink: &mut W,
) -> Result<(), WriteError>
    ensures line { Writes (texts.accept_line client id answer.now) result (W.held sink.old)
        (W.held sink.new) }
    ensures count { CountsFor (W.fault_count sink.old) (W.fault_count sink.new)
        devices.Failed result }
{
    let mut line = Vec::new(alloc);
    accept_line(client, id, answer, &mut line)?;
    write_all(sink, &line)
}

fn write_read<W: Sink>(
    alloc: Global,
    client: u32,
    id: u64,
    observer: u8,
    key: &Key,
    sink: &mut W,
) -> Result<(), WriteError>
    ensures line { Writes (texts.read_line client id observer key.now) result (W.held sink.old)
        (W.held sink.new) }
    ensures count { CountsFor (W.fault_count sink.old) (W.fault_count sink.new)
        devices.Failed result }
{
    let mut line = Vec::new(alloc);
    read_line(client, id, observer, key, &mut line)?;
    write_all(sink, &line)
}

fn write_answer<W: Sink>(
    alloc: Global,
    client: u32,
    id: u64,
    observer: u8,
    position: u32,
    answer: &Bytes,
    sink: &mut W,
) -> Result<(), WriteError>
    ensures line { Writes (texts.answer_line client id observer position answer.now) result
        (W.held sink.old) (W.held sink.new) }
    ensures count { CountsFor (W.fault_count sink.old) (W.fault_count sink.new)
        devices.Failed result }
{
    let mut line = Vec::new(alloc);
    answer_line(client, id, observer, position, answer, &mut line)?;
    write_all(sink, &line)
}

impl<C: Core, L: Link, W: Sink> Node<'_, '_, '_, C, L, W> {
    /// Sends a datagram to each port of its destination.
    #[tactic(auto, using(crate::proofs::EffectLemmas::posted, crate::proofs::EffectLemmas::posted_prefix))]
    pub(crate) fn send(&mut self, dest: Dest, bytes: &Bytes) -> Result<(), WriteError>
        ensures { Does L.Link W.Sink self.old self.new
            (map Call (datagrams_to self.old.at dest bytes.now)) result }
    {
        match send_to(&self.at, dest, bytes.as_slice(), self.link, &mut self.lost) {
            Ok(()) => Ok(()),
            Err(NoMemory) => Err(WriteError::NoMemory),
        }
    }

    /// Carries out one output: a datagram goes to each port of its destination, a line to the sink.
    #[tactic(auto, using(crate::proofs::EffectLemmas::wrote_line))]
    fn carry_out(&mut self, out: &Out) -> Result<(), WriteError>
        ensures { Does L.Link W.Sink self.old self.new (effects_of self.old.at out.now) result }
    {
        match out {
            Out::Send(dest, bytes) => self.send(*dest, bytes),
            Out::Submitted(request) => write_submit(self.alloc, request, self.sink),
            Out::Accepted { client, id, result } => {
                write_accept(self.alloc, *client, *id, result, self.sink)
            }
            Out::Reading {
                client,
                id,
                observer,
                key,
            } => write_read(self.alloc, *client, *id, *observer, key, self.sink),
            Out::Answered {
                client,
                id,
                observer,
                position,
                result,
            } => write_answer(
                self.alloc, *client, *id, *observer, *position, result, self.sink,
            ),
            _ => Ok(()),
        }
    }

    /// Carries out outputs in order.
    fn carry_out_all(&mut self, outs: &[Out]) -> Result<(), WriteError>
        ensures { Does L.Link W.Sink self.old self.new (effects self.old.at outs.now) result }
    {
        for out in outs {
            if let Err(e) = self.carry_out(out) {
                return Err(e);
            }
        }
        Ok(())
    }

    /// Does what a step asks of the outside.
    fn give(&mut self, input: Input<'_>, outs: &[Out]) -> Result<(), WriteError>
        ensures { Does L.Link W.Sink self.old self.new
            (asks_of self.old (record { given = given input.entry; outs = outs.now })) result }
    {
        if self.trace {
            self.give_traced(input, outs)
        } else {
            self.carry_out_all(outs)
        }
    }

    /// One step of the core, and what it gives.
    #[tactic(auto, using(crate::proofs::EffectLemmas::nothing_done))]
    pub(crate) fn take_step(&mut self, input: Input<'_>) -> Result<(), WriteError>
        ensures { Takes C.Core L.Link W.Sink self.old self.new (given input.entry ∷ []) result }
    {
        let mut outbox = Outbox::new(self.alloc);
        if self.core.step(input, &mut outbox).is_err() {
            return Err(WriteError::NoMemory);
        }
        self.give(input, outbox.as_slice())
    }
}
