//! What is written of an answer.

ghost use Rattle.std.specs.Prelude.{◌≡◌, ◌++◌, ◌<◌, length, slice_get, Some, OnOk};
ghost use Rattle.std.specs.List.{flat_map};
ghost use Rattle.linearize.specs.Texts.{answer_text, header, transcript_of};
ghost use Rattle.linearize.specs.Writing.{CanBeNumbered, IsWritable, WritesAnswer};
ghost use Rattle.nop_types.specs.Lines.{Submit};
ghost use Rattle.nop_types.specs.declared.request.Request.{Request};
ghost use Rattle.order_search.specs.Turns.{history_at};
ghost use Rattle.outside.specs.Causes.{CountsFor};
ghost use Rattle.outside.specs.declared.errors.DeviceError.TheVariants as devices;
ghost use Rattle.transcript_reader.specs.Claims.{line_of, lines_of};
ghost use Rattle.transcript_reader.specs.Transcripts.{members, transcript_text};
ghost use Rattle.transcript_rows.specs.Rows.{row_text};
ghost use Rattle.transcript_rows.specs.declared.row.Row.TheVariants as rows;
ghost use Rattle.transcript_text.specs.Transcript.{line_text, lines_text};
ghost use Rattle.transcript_text.specs.Transcript as texts;

use crate::answer::Answer;
use nop_types::{Config, NoMemory};
use outside::{Sink, WriteError, write_all};
use std::alloc::Global;
use transcript_reader::{CheckError, Claim};
use transcript_text::{
    Field, accept_line, end_line, history_line, submit_line, transcript_line, write_line,
};

fn put_first_line(to: &mut Vec<u8>) -> Result<(), NoMemory>
    ensures { OnOk result (to.new.items
        ≡ to.old.items ++ texts.transcript_line header.form header.config) }
{
    match Config::new(1, 1, 16, 1, 0) {
        Some(config) => transcript_line(1, config, to),
        None => unreachable!(),
    }
}

fn put_claim(claim: &Claim, to: &mut Vec<u8>) -> Result<(), NoMemory>
    ensures { OnOk result (to.new.items ≡ to.old.items ++ line_text (line_of claim.now)) }
{
    match claim {
        Claim::Submitted(request) => submit_line(request, to),
        Claim::Accepted { client, id, result } => accept_line(*client, *id, result, to),
    }
}

fn put_claims(claims: &[Claim], to: &mut Vec<u8>) -> Result<(), NoMemory>
    ensures { OnOk result (to.new.items ≡ to.old.items ++ lines_text (lines_of claims.now)) }
{
    for claim in claims {
        put_claim(claim, to)?;
    }
    Ok(())
}

fn claim_at(claims: &[Claim], place: usize) -> &Claim
    requires { place < length claims.now }
    ensures { slice_get (lines_of claims.now) place ≡ Some (line_of result.now) }
{
    &claims[place]
}

/// The line of the member that a claim submits.
#[tactic(auto, using(transcript_rows::proofs::LineRows::member_as_row))]
fn put_member(number: u32, claim: &Claim, to: &mut Vec<u8>) -> Result<(), NoMemory>
    requires { (r : Request) × (line_of claim.now ≡ Submit r) }
    ensures { OnOk result ((r : Request) → line_of claim.now ≡ Submit r → to.new.items
        ≡ to.old.items ++ row_text (rows.Member number r)) }
{
    match claim {
        Claim::Submitted(request) => history_line(number, request, to),
        Claim::Accepted { .. } => unreachable!(),
    }
}

/// The history of the claims at these places.
fn put_history(claims: &[Claim], places: &[usize], to: &mut Vec<u8>) -> Result<(), NoMemory>
    requires { CanBeNumbered (lines_of claims.now) places.now }
    ensures { OnOk result (to.new.items ≡ to.old.items
        ++ flat_map row_text (members 1 (history_at (lines_of claims.now) places.now))) }
{
    let mut number = 1u32;
    for place in places {
        put_member(number, claim_at(claims, *place), to)?;
        number += 1;
    }
    Ok(())
}

fn put_transcript(claims: &[Claim], places: &[usize], to: &mut Vec<u8>) -> Result<(), NoMemory>
    requires { CanBeNumbered (lines_of claims.now) places.now }
    ensures { OnOk result (to.new.items ≡ to.old.items ++ transcript_text (transcript_of
        (lines_of claims.now) (history_at (lines_of claims.now) places.now))) }
{
    put_first_line(to)?;
    put_claims(claims, to)?;
    put_history(claims, places, to)?;
    end_line(to)
}

#[tactic(auto, unfolding(crate::specs::Texts::answer_text))]
fn put_answer(answer: &Result<Answer, CheckError>, to: &mut Vec<u8>) -> Result<(), NoMemory>
    requires { IsWritable answer.now }
    ensures { OnOk result (to.new.items ≡ to.old.items ++ answer_text answer.now) }
{
    match answer {
        Ok(Answer::Order { claims, places }) => put_transcript(claims, places, to),
        Ok(Answer::NoOrder { part, line }) => {
            let fields = [
                Field::Word("part"),
                Field::Hex(part),
                Field::Word("line"),
                Field::Number(u64::from(*line)),
            ];
            write_line("none", &fields, to)
        }
        Ok(Answer::Repeated(line)) => {
            let fields = [Field::Word("line"), Field::Number(u64::from(*line))];
            write_line("repeated", &fields, to)
        }
        Ok(Answer::Unknown(steps)) => {
            let fields = [Field::Word("steps"), Field::Number(*steps)];
            write_line("unknown", &fields, to)
        }
        Err(CheckError::Refuted { line, clause }) => {
            let fields = [
                Field::Word("line"),
                Field::Number(u64::from(*line)),
                Field::Word("clause"),
                Field::Number(u64::from(*clause)),
            ];
            write_line("refuted", &fields, to)
        }
        Err(_) => Ok(()),
    }
}

/// Writes what an answer says; nothing where nothing was decided.
pub(crate) fn write_answer<K: Sink>(
    alloc: Global,
    answer: &Result<Answer, CheckError>,
    sink: &mut K,
) -> Result<(), WriteError>
    requires { IsWritable answer.now }
    ensures writes { WritesAnswer (answer_text answer.now) result (K.held sink.old)
        (K.held sink.new) }
    ensures count { CountsFor (K.fault_count sink.old) (K.fault_count sink.new)
        devices.Failed result }
{
    let mut text = Vec::new(alloc);
    put_answer(answer, &mut text)?;
    write_all(sink, &text)
}
