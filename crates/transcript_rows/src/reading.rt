//! What a line is. A line is read leniently, what was read is written again, and the line is that row where both are the same.

ghost use Rattle.std.specs.Prelude.{◌≡◌, ◌++◌, ◌∷◌, [], IfOk, IsTrue, MatchBool};
ghost use Rattle.std.specs.Option.{option_copied};
ghost use Rattle.line_fields.specs.Fields.{fields, number_below};
ghost use Rattle.line_fields.specs.Split.{other_fields};
ghost use Rattle.nop_types.specs.Headers.{gives};
ghost use Rattle.transcript_rows.specs.Reading.{counts_of, header_with, header_of_fields};
ghost use Rattle.transcript_rows.specs.Reading.{IsHeaderOf, IsRowOf};
ghost use Rattle.transcript_rows.specs.Rows.{row_text};
ghost use Rattle.transcript_text.specs.Transcript as texts;

use crate::parsing::row_of_line;
use crate::ranges::{row_fits, typed};
use crate::row::Row;
use crate::writing::write_row;
use line_fields::{cut, next_field, small_number};
use nop_types::{Config, Header, NoMemory};
use std::alloc::Global;
use transcript_text::transcript_line;

fn is_same(text: &[u8], other: &[u8]) -> bool
    ensures { MatchBool result (text.now ≡ other.now) (text.now ≡ other.now → ⊥) }
{
    text == other
}

/// Whether the text is the line and its end.
fn is_whole(text: &[u8], line: &[u8]) -> bool
    ensures { MatchBool result (text.now ≡ line.now ++ 10 ∷ []) (text.now ≡ line.now ++ 10 ∷
        [] → ⊥) }
{
    if text.len() < line.len() {
        return false;
    }
    is_same(&text[..line.len()], line) && is_same(&text[line.len()..], b"\n")
}

fn is_text_of(row: &Row, line: &[u8], scratch: &mut Vec<u8>) -> Result<bool, NoMemory>
    ensures { IfOk result (λ same. MatchBool same (row_text row.now ≡ line.now ++ 10 ∷ [])
        (row_text row.now ≡ line.now ++ 10 ∷ [] → ⊥)) }
{
    scratch.clear();
    write_row(row, scratch)?;
    Ok(is_whole(scratch, line))
}

/// The row that a line is, without its end; None if it is none. The scratch space may hold anything, and holds anything
/// afterwards.
pub fn read_row(alloc: Global, line: &[u8], scratch: &mut Vec<u8>) -> Result<Option<Row>, NoMemory>
    ensures { IfOk result (λ row. IsRowOf line.now row) }
{
    let Some(row) = row_of_line(alloc, line)? else {
        return Ok(None);
    };
    typed(&row);
    if !row_fits(&row) {
        return Ok(None);
    }
    if is_text_of(&row, line, scratch)? {
        Ok(Some(row))
    } else {
        Ok(None)
    }
}

/// The form, and how many controllers and observers there are, by what follows the other counts.
fn counts(rest: Option<&[u8]>) -> Option<(u8, u8, u8)>
    ensures { result ≡ counts_of (other_fields (option_copied rest.entry)) }
{
    let Some(rest) = rest else {
        return Some((1, 1, 0));
    };
    let (_, rest) = cut(rest);
    let (k, rest) = next_field(rest)?;
    let Some(rest) = rest else {
        return Some((2, small_number(256, k)?, 0));
    };
    let (_, rest) = cut(rest);
    let (o, _) = next_field(rest)?;
    Some((3, small_number(256, k)?, small_number(256, o)?))
}

fn header_with(n: &[u8], s: &[u8], c: &[u8], k: Option<(u8, u8, u8)>) -> Option<Header>
    ensures { result ≡ header_with (number_below 256 n.now) (number_below 256 s.now)
        (number_below 256 c.now) k }
{
    match (
        small_number(256, n),
        small_number(256, s),
        small_number(256, c),
        k,
    ) {
        (Some(n), Some(s), Some(c), Some((form, k, o))) => {
            let config = Config::new(n, s, c, k, o)?;
            Some(Header { form, config })
        }
        _ => None,
    }
}

#[tactic(auto, unfolding(crate::specs::Reading::header_of_fields))]
fn header_of_line(line: &[u8]) -> Option<Header>
    ensures { result ≡ header_of_fields (fields line.now) }
{
    let (_, rest) = cut(line);
    let (_, rest) = next_field(rest)?;
    let (_, rest) = next_field(rest)?;
    let (n, rest) = next_field(rest)?;
    let (_, rest) = next_field(rest)?;
    let (s, rest) = next_field(rest)?;
    let (_, rest) = next_field(rest)?;
    let (c, rest) = next_field(rest)?;
    header_with(n, s, c, counts(rest))
}

fn is_header_of(header: &Header, line: &[u8], scratch: &mut Vec<u8>) -> Result<bool, NoMemory>
    requires { IsTrue (gives header.now.form header.now.config) }
    ensures { IfOk result (λ same. MatchBool same
        (texts.transcript_line header.now.form header.now.config ≡ line.now ++ 10 ∷ [])
        (texts.transcript_line header.now.form header.now.config ≡ line.now ++ 10 ∷ [] → ⊥)) }
{
    scratch.clear();
    transcript_line(header.form, header.config, scratch)?;
    Ok(is_whole(scratch, line))
}

/// What the first line of a transcript says, without its end; None if it is none.
pub fn read_header(line: &[u8], scratch: &mut Vec<u8>) -> Result<Option<Header>, NoMemory>
    ensures { IfOk result (λ header. IsHeaderOf line.now header) }
{
    let Some(header) = header_of_line(line) else {
        return Ok(None);
    };
    if is_header_of(&header, line, scratch)? {
        Ok(Some(header))
    } else {
        Ok(None)
    }
}
