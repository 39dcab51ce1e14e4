//! The lines in an order, and the call that reads and writes them.

ghost use Rattle.std.specs.Prelude.{◌≡◌, IfOk};
ghost use Rattle.std.specs.List.{range_with_len};
ghost use Rattle.braiding.specs.Ending.{written, Ends};
ghost use Rattle.braiding.specs.Orders.{texts_of, IsOrder};
ghost use Rattle.outside.specs.Causes.{CountsFor};

use crate::checking::is_order;
use crate::error::BraidError;
use crate::reading::read_all;
use crate::search::found_order;
use crate::traces::{Line, Traces, text_at};
use outside::{Sink, Source, write_all};
use std::alloc::{AllocError, Global};

/// So many numbers, from 0.
fn all_in_turn(alloc: Global, count: usize) -> Result<Vec<usize>, AllocError>
    ensures { IfOk result (λ v. v.items ≡ range_with_len 0 count) }
{
    let mut all = Vec::with_capacity(alloc, count)?;
    for number in 0..count {
        all.push(number)?;
    }
    Ok(all)
}

/// The order that was found, or else that of the input.
fn order_of(alloc: Global, traces: &Traces) -> Result<Vec<usize>, AllocError>
    ensures { IfOk result (λ v. IsOrder (texts_of traces.now.lines.items) v.items) }
{
    let found = found_order(alloc, traces)?;
    if is_order(alloc, &traces.lines, &found)? {
        return Ok(found);
    }
    all_in_turn(alloc, traces.lines.len())
}

/// The text of the lines.
fn text_of(alloc: Global, lines: &[Line], order: &[usize]) -> Result<Vec<u8>, AllocError>
    requires { IsOrder (texts_of lines.now) order.now }
    ensures { IfOk result (λ v. v.items ≡ written (texts_of lines.now) order.now) }
{
    let mut text = Vec::new(alloc);
    for place in order {
        text.extend_from_slice(text_at(lines, *place))?;
        text.push(b'\n')?;
    }
    Ok(text)
}

/// Reads the lines of traces, and writes their steps in an order in which each packet was sent
/// before it is taken, wherever there is one.
pub fn braid<S: Source, K: Sink>(
    alloc: Global,
    source: &mut S,
    sink: &mut K,
) -> Result<(), BraidError>
    ensures ends { Ends (S.left source.old) (S.left source.new) (K.held sink.old)
        (K.held sink.new) result }
    ensures reads { CountsFor (S.fault_count source.old) (S.fault_count source.new)
        BraidError.ReadFault result }
    ensures writes { CountsFor (K.fault_count sink.old) (K.fault_count sink.new)
        BraidError.WriteFault result }
{
    let traces = read_all(alloc, source)?;
    let order = order_of(alloc, &traces)?;
    let text = text_of(alloc, &traces.lines, &order)?;
    write_all(sink, &text)?;
    Ok(())
}
