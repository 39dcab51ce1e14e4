//! What a line is.

ghost use Rattle.std.specs.Prelude.{◌≡◌, IfOk};
ghost use Rattle.std.specs.Option.{option_copied};
ghost use Rattle.line_fields.specs.Fields.{fields};
ghost use Rattle.line_fields.specs.Split.{other_fields};
ghost use Rattle.trace_rows.specs.Reading.{in_of, out_of, row_of, row_of_fields};

use crate::gave::gave;
use crate::names::name;
use crate::row::Row;
use crate::taken::taken;
use line_fields::{cut, is_word, next_field};
use nop_types::{MAX_LINE_BYTES, NoMemory};
use std::alloc::Global;

fn in_row(alloc: Global, field: &[u8], rest: Option<&[u8]>) -> Result<Option<Row>, NoMemory>
    ensures { IfOk result (λ row. row
        ≡ in_of field.now (other_fields (option_copied rest.entry))) }
{
    let Some(name) = name(field) else {
        return Ok(None);
    };
    match taken(alloc, rest)? {
        Some(taken) => Ok(Some(Row::In(name, taken))),
        None => Ok(None),
    }
}

fn out_row(alloc: Global, field: &[u8], rest: Option<&[u8]>) -> Result<Option<Row>, NoMemory>
    ensures { IfOk result (λ row. row
        ≡ out_of field.now (other_fields (option_copied rest.entry))) }
{
    let Some(name) = name(field) else {
        return Ok(None);
    };
    match gave(alloc, rest)? {
        Some(gave) => Ok(Some(Row::Out(name, gave))),
        None => Ok(None),
    }
}

fn row_of_fields(alloc: Global, line: &[u8]) -> Result<Option<Row>, NoMemory>
    ensures { IfOk result (λ row. row ≡ row_of_fields (fields line.now)) }
{
    let (word, rest) = cut(line);
    let Some((field, rest)) = next_field(rest) else {
        return Ok(None);
    };
    if is_word(word, "in") {
        return in_row(alloc, field, rest);
    }
    if is_word(word, "out") {
        return out_row(alloc, field, rest);
    }
    Ok(None)
}

/// The row that a line is, without its end; None where it is none.
#[tactic(auto, unfolding(crate::specs::Reading::row_of))]
pub fn read_row(alloc: Global, line: &[u8]) -> Result<Option<Row>, NoMemory>
    ensures { IfOk result (λ row. row ≡ row_of line.now) }
{
    if line.len() > MAX_LINE_BYTES {
        return Ok(None);
    }
    row_of_fields(alloc, line)
}
