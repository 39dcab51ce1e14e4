//! What is written, and how the program ends.

ghost use Rattle.std.specs.Io.KnownBytes.{Appends};
ghost use Rattle.std.specs.Prelude.{◌≡◌, ◌+◌, length, option_map, None, OnErr, OnOk};
ghost use Rattle.outside.specs.Causes.{CountsFor};
ghost use Rattle.outside.specs.Ports.{next_link};
ghost use Rattle.outside.specs.Prefixes.{AppendsPrefix};
ghost use Rattle.outside.specs.declared.errors.DeviceError.TheVariants as devices;
ghost use Rattle.watch.specs.Arguments.{call_of};
ghost use Rattle.watch.specs.Ending.{Ends, usage_line};

use crate::call::call_of;
use op_text::Words;
use outside::{Clock, Ports, Sink, WriteError, write_all};
use roll_call::Roll;
use std::alloc::Global;
use watching::{Status, status_of, watch_cluster};

pub(crate) const USAGE_LINE: &str =
    "usage: watch (PORT REPLICAS | LIST) OBSERVER [--once | --redraw] [--turns TURNS]\n";

#[tactic(auto, unfolding(crate::specs::Ending::usage_line))]
fn write_usage<W: Sink>(sink: &mut W) -> Result<(), WriteError>
    ensures ok { OnOk result (Appends (W.held sink.old) (W.held sink.new) usage_line) }
    ensures err { OnErr result (AppendsPrefix (W.held sink.old) (W.held sink.new) usage_line) }
    ensures count { CountsFor (W.fault_count sink.old) (W.fault_count sink.new)
        devices.Failed result }
{
    write_all(sink, USAGE_LINE.as_bytes())
}

/// Makes the watch that the arguments name; where they name none, writes the usage line.
pub fn run<P: Ports, C: Clock, W: Sink>(
    alloc: Global,
    arguments: &Words,
    ports: &mut P,
    clock: &mut C,
    sink: &mut W,
) -> Result<Status, WriteError>
    ensures ends { Ends (option_map next_link (P.to_come ports.old)) (C.values clock.old)
        (W.held sink.old) (W.held sink.new) (call_of arguments.now) result }
    ensures back { P.attached ports.new + length (P.detached ports.old)
        ≡ P.attached ports.old + length (P.detached ports.new) }
    ensures unused { call_of arguments.now ≡ None → ports.new ≡ ports.old }
{
    let Some(call) = call_of(arguments.as_slice()) else {
        write_usage(sink)?;
        return Ok(Status::Usage);
    };
    let (at, asked) = (call.at, call.asked);
    let port = at.port_of(at.own);
    let ended = watch_cluster(
        alloc,
        at.config,
        port,
        asked,
        Roll::none(alloc),
        ports,
        clock,
        sink,
    );
    Ok(status_of(ended))
}
