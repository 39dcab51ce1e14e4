//! The steps of a node that writes a trace.

ghost use Rattle.std.specs.Prelude.{true, ◌∷◌, []};
ghost use Rattle.nop_types.specs.Given.{given};
ghost use Rattle.outside.specs.Causes.{CountsFor};
ghost use Rattle.outside.specs.declared.errors.DeviceError.TheVariants as devices;
ghost use Rattle.udp_node.specs.Effects.{sends_of, sends_in, step_effects, step_text};
ghost use Rattle.udp_node.specs.Effects.{Line, Writes};
ghost use Rattle.udp_node.specs.Nodes.{Does};

use crate::node::Node;
use nop_types::{Actor, Core, Input, Out};
use outside::{Link, Sink, WriteError, write_all};
use std::alloc::Global;
use trace_text::trace_step;

/// Writes the lines of a step.
fn write_step<W: Sink>(
    alloc: Global,
    own: Actor,
    input: Input<'_>,
    outs: &[Out],
    sink: &mut W,
) -> Result<(), WriteError>
    ensures text { Writes (step_text own (record { given = given input.entry; outs = outs.now }))
        result (W.held sink.old) (W.held sink.new) }
    ensures count { CountsFor (W.fault_count sink.old) (W.fault_count sink.new)
        devices.Failed result }
{
    let mut text = Vec::new(alloc);
    trace_step(own, input, outs, &mut text)?;
    write_all(sink, &text)
}

impl<C: Core, L: Link, W: Sink> Node<'_, '_, '_, C, L, W> {
    /// Sends the datagram of an output, if it is one.
    fn send_out(&mut self, out: &Out) -> Result<(), WriteError>
        ensures { Does L.Link W.Sink self.old self.new (sends_of self.old.at out.now) result }
    {
        match out {
            Out::Send(dest, bytes) => self.send(*dest, bytes),
            _ => Ok(()),
        }
    }

    /// Sends the datagrams among outputs, in order.
    fn send_all(&mut self, outs: &[Out]) -> Result<(), WriteError>
        ensures { Does L.Link W.Sink self.old self.new (sends_in self.old.at outs.now) result }
    {
        for out in outs {
            if let Err(e) = self.send_out(out) {
                return Err(e);
            }
        }
        Ok(())
    }

    /// Writes all lines of a step in one text.
    #[tactic(auto, using(crate::proofs::EffectLemmas::wrote_line))]
    fn write_lines(&mut self, input: Input<'_>, outs: &[Out]) -> Result<(), WriteError>
        ensures { Does L.Link W.Sink self.old self.new (Line (step_text self.old.at.own
            (record { given = given input.entry; outs = outs.now })) ∷ []) result }
    {
        write_step(self.alloc, self.at.own, input, outs, self.sink)
    }

    /// Writes all lines of a step, and sends then.
    pub(crate) fn give_traced(&mut self, input: Input<'_>, outs: &[Out]) -> Result<(), WriteError>
        ensures { Does L.Link W.Sink self.old self.new (step_effects true self.old.at
            (record { given = given input.entry; outs = outs.now })) result }
    {
        match self.write_lines(input, outs) {
            Ok(()) => self.send_all(outs),
            Err(e) => Err(e),
        }
    }
}
