ghost use Rattle.std.specs.Prelude.{◌≡◌, false};
ghost use Rattle.one_box.specs.Showing.{link_view};
ghost use Rattle.outside.specs.Memory.{answers_of};
ghost use Rattle.replay.specs.Safety.{RunsSafelyOf};
ghost use Rattle.commands.specs.Words.{asked, reads, Taken};
ghost use Rattle.commands.specs.Audits.{AuditEnds, PassesTrace};
ghost use Rattle.commands.specs.Checks.{CheckEnds};
ghost use Rattle.commands.specs.Clusters.{uses_ports};
ghost use Rattle.commands.specs.Ending.{ReplayEnds, UsageEnds};
ghost use Rattle.commands.specs.Nodes.{ports_view};
ghost use Rattle.commands.specs.Runs.{Runs, CompletesAlways, bytes_view, devices};

use crate::running::run;
use crate::status::Status;
use command_line::Command;
use nop_types::Host;
use outside::{ClockMem, PortsMem, ReadMem, WriteMem};
use std::alloc::Global;

/// Carries out the command that the words name, as `run` does, over devices in memory that never
/// fail. No status tells a fault then, without a premise on what the devices answer.
pub fn run_in_memory<H: Host>(
    alloc: Global,
    program: &str,
    words: &[String],
    source: &mut ReadMem,
    sink: &mut WriteMem,
    ports: &mut PortsMem,
    clock: &mut ClockMem,
) -> Status
    ensures replay { asked words.now ≡ Some Command.Replay →
        ReplayEnds H.meaning (Some source.old.left) (Some source.new.left) (Some sink.old.held)
        (Some sink.new.held) result }
    ensures safe { asked words.now ≡ Some Command.Replay → result ≡ Status.Done →
        RunsSafelyOf H.meaning (Some source.old.left) }
    ensures check { asked words.now ≡ Some Command.Check →
        CheckEnds H.meaning (Some source.old.left) (Some source.new.left) (Some sink.old.held)
        (Some sink.new.held) result }
    ensures audit { asked words.now ≡ Some Command.Audit →
        AuditEnds H.meaning (Some source.old.left) (Some source.new.left) (Some sink.old.held)
        (Some sink.new.held) result }
    ensures audited { asked words.now ≡ Some Command.Audit → PassesTrace H.meaning
        (Some source.old.left) result }
    ensures usage { ¬ Taken words.now →
        UsageEnds program.now (Some sink.old.held) (Some sink.new.held) result }
    ensures ends { Runs H.meaning (asked words.now) (devices
        (bytes_view (Some source.old.left) (Some source.new.left) 0 0)
        (bytes_view (Some sink.old.held) (Some sink.new.held) 0 0)
        (ports_view (Some (answers_of ports.old.links)) ports.old.detached ports.new.detached 0 0
        ports.old.attached ports.new.attached)
        (link_view (λ l. Some l.answers) (λ l. l.port) (λ l. Some l.trace) (λ _. 0) (λ _. 0))
        (Some clock.old)) result }
    ensures complete { CompletesAlways (asked words.now) result }
    ensures unread { reads (asked words.now) ≡ false → source.new ≡ source.old }
    ensures ports { uses_ports (asked words.now) ≡ false → ports.new ≡ ports.old }
    ensures clock { uses_ports (asked words.now) ≡ false → clock.new ≡ clock.old }
{
    run::<H, ReadMem, WriteMem, PortsMem, ClockMem>(
        alloc, program, words, source, sink, ports, clock,
    )
}
