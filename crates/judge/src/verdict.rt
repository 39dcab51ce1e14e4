//! The line that tells what a judge answered.

ghost use Rattle.std.specs.Prelude.{◌≡◌, ◌++◌, OnOk};
ghost use Rattle.outside.specs.Causes.{CountsFor};
ghost use Rattle.judge.specs.Verdicts.{verdict_line, WritesVerdict};
ghost use Rattle.outside.specs.declared.errors.DeviceError.TheVariants as devices;

use crate::tally::Tally;
use nop_types::NoMemory;
use outside::{Sink, WriteError, write_all};
use std::alloc::Global;
use transcript_reader::CheckError;
use transcript_text::{Field, write_line};

#[tactic(auto, unfolding(crate::specs::Verdicts::verdict_line))]
fn put_verdict(verdict: &Result<Tally, CheckError>, to: &mut Vec<u8>) -> Result<(), NoMemory>
    ensures { OnOk result (to.new.items ≡ to.old.items ++ verdict_line verdict.now) }
{
    match verdict {
        Ok(tally) => {
            let fields = [
                Field::Number(u64::from(tally.submits)),
                Field::Number(u64::from(tally.accepts)),
                Field::Number(u64::from(tally.history)),
            ];
            write_line("legal", &fields, to)
        }
        Err(CheckError::Refuted { line, clause }) => {
            let fields = [
                Field::Word("line"),
                Field::Number(u64::from(*line)),
                Field::Word("clause"),
                Field::Number(u64::from(*clause)),
            ];
            write_line("refuted", &fields, to)
        }
        Err(_) => Ok(()),
    }
}

/// Writes `legal SUBMITS ACCEPTS HISTORY`, or `refuted line K clause M`; nothing where nothing was
/// decided.
pub fn write_verdict<K: Sink>(
    alloc: Global,
    verdict: &Result<Tally, CheckError>,
    sink: &mut K,
) -> Result<(), WriteError>
    ensures writes { WritesVerdict (verdict_line verdict.now) result (K.held sink.old)
        (K.held sink.new) }
    ensures count { CountsFor (K.fault_count sink.old) (K.fault_count sink.new)
        devices.Failed result }
{
    let mut line = Vec::new(alloc);
    put_verdict(verdict, &mut line)?;
    write_all(sink, &line)
}
