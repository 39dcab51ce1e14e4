ghost use Rattle.std.specs.Prelude.{◌≡◌, ◌++◌, decimal, IsTrue, OnOk};
ghost use Rattle.nop_types.specs.Headers.{gives};
ghost use Rattle.outside.specs.Causes.{CountsFor};
ghost use Rattle.one_box.specs.Boxing.{WritesRun};
ghost use Rattle.one_box.specs.declared.errors.ClusterError.TheVariants as errors;
ghost use Rattle.std.specs.List.{All, flat_map};
ghost use Rattle.schedule_text.specs.EventText.{HasLine};
ghost use Rattle.printed_runs.specs.Printing.{event_line};
ghost use Rattle.one_box.specs.Text.{cluster_text, line_of, served_line, IsReadBack};

use crate::boxed::Boxed;
use crate::course::Course;
use crate::errors::ClusterError;
use crate::serving::Taken;
use nop_types::{Config, Host, NoMemory};
use outside::{Sink, WriteError, write_all};
use schedule_text::{Event, event_line};
use std::alloc::Global;
use trace_text::header_line;
use transcript_text::{put_number, transcript_line};
use world::final_lines;

fn put_labelled(label: &[u8], n: u64, to: &mut Vec<u8>) -> Result<(), NoMemory>
    ensures { OnOk result (to.new.items ≡ to.old.items ++ (label.now ++ decimal n)) }
{
    to.extend_from_slice(label)?;
    put_number(n, to)?;
    Ok(())
}

/// A line of three numbers, each behind its word.
fn put_line(
    first: &[u8],
    a: u64,
    second: &[u8],
    b: u64,
    third: &[u8],
    c: u64,
    to: &mut Vec<u8>,
) -> Result<(), NoMemory>
    ensures { OnOk result (to.new.items
        ≡ to.old.items ++ line_of first.now a second.now b third.now c) }
{
    put_labelled(first, a, to)?;
    put_labelled(second, b, to)?;
    put_labelled(third, c, to)?;
    to.push(b'\n')?;
    Ok(())
}

fn put_events(events: &[Event], to: &mut Vec<u8>) -> Result<(), NoMemory>
    requires { All HasLine events.now }
    ensures ok { OnOk result (to.new.items ≡ to.old.items ++ flat_map event_line events.now) }
    ensures means { OnOk result (All IsReadBack events.now) }
{
    for event in events {
        event_line(event, to)?;
    }
    Ok(())
}

/// The last line.
#[tactic(auto, unfolding(crate::specs::Text::served_line))]
fn put_served(turns: u64, lost: u64, stray: u64, to: &mut Vec<u8>) -> Result<(), NoMemory>
    ensures { OnOk result (to.new.items ≡ to.old.items ++ served_line turns lost stray) }
{
    put_line(b"served ", turns, b" lost ", lost, b" stray ", stray, to)
}

/// The schedule of the events that were kept, its transcript, and the last line.
fn put_all<H: Host>(
    config: Config,
    course: &Course<H>,
    turns: u64,
    lost: u64,
    to: &mut Vec<u8>,
) -> Result<(), NoMemory>
    requires form { IsTrue (gives 1 config) }
    requires lines { All HasLine course.now.events.items }
    ensures ok { OnOk result (to.new.items ≡ to.old.items ++ cluster_text config
        course.now.events.items course.now.text.items course.now.world.state turns lost
        course.now.stray) }
    ensures means { OnOk result (All IsReadBack course.now.events.items) }
{
    header_line(1, config, to)?;
    put_events(&course.events, to)?;
    transcript_line(1, config, to)?;
    to.extend_from_slice(&course.text)?;
    final_lines(&course.world, to)?;
    put_served(turns, lost, course.stray, to)?;
    Ok(())
}

/// Writes what a run did, and says how it ended.
pub(crate) fn write_run<H: Host, K: Sink>(
    alloc: Global,
    config: Config,
    course: &Course<H>,
    taken: Taken,
    lost: u64,
    sink: &mut K,
) -> Result<Boxed, ClusterError>
    requires form { IsTrue (gives 1 config) }
    requires lines { All HasLine course.now.events.items }
    ensures writes { WritesRun (cluster_text config course.now.events.items
        course.now.text.items course.now.world.state taken.turns lost course.now.stray)
        (record {
          turns = taken.turns;
          lost = lost;
          stray = course.now.stray;
          done = taken.done;
        })
        result (K.held sink.old) (K.held sink.new) }
    ensures means { OnOk result (All IsReadBack course.now.events.items) }
    ensures count { CountsFor (K.fault_count sink.old) (K.fault_count sink.new)
        errors.WriteFault result }
{
    let mut text = Vec::new(alloc);
    if put_all(config, course, taken.turns, lost, &mut text).is_err() {
        return Err(ClusterError::NoMemory);
    }
    match write_all(sink, &text) {
        Ok(()) => Ok(Boxed {
            turns: taken.turns,
            lost,
            stray: course.stray,
            done: taken.done,
        }),
        Err(WriteError::Failed) => Err(ClusterError::WriteFault),
        Err(WriteError::NoMemory) => Err(ClusterError::NoMemory),
    }
}
