//! The fields of a line, and lists of them.

ghost use Rattle.std.specs.Prelude.{◌≡◌, ◌++◌, IfOk, OnOk};
ghost use Rattle.line_fields.specs.Fields.{fields};

use line_fields::{cut, next_field};
use nop_types::{Bytes, NoMemory};
use op_text::Words;
use std::alloc::Global;

/// The fields of a line.
pub fn fields_of(alloc: Global, line: &[u8]) -> Result<Words, NoMemory>
    ensures { IfOk result (λ words. words ≡ fields line.now) }
{
    let mut words = Words::new(alloc);
    let (first, mut rest) = cut(line);
    words.put(first)?;
    while let Some((field, more)) = next_field(rest) {
        words.put(field)?;
        rest = more;
    }
    Ok(words)
}

/// Appends each field.
pub(crate) fn put_all(fields: &[Bytes], to: &mut Words) -> Result<(), NoMemory>
    ensures { OnOk result (to.new ≡ to.old ++ fields.now) }
{
    for field in fields {
        to.put(field.as_slice())?;
    }
    Ok(())
}
