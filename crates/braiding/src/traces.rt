//! The lines of traces, and what the search needs of each.

ghost use Rattle.std.specs.Prelude.{◌≡◌, ◌++◌, ◌∷◌, ◌<◌, [], length, OnOk};
ghost use Rattle.braiding.specs.Orders.{line_at, node_in, starts_step, texts_of};

use indexmap::IndexSet;
use line_fields::{cut, is_word, next_field};
use std::alloc::{AllocError, Global};

/// A line. The number of its node, where a step starts with it. The number of the packet that the
/// step takes with it, or sends with it.
#[derive(Drop)]
pub(crate) struct Line {
    pub(crate) text: Vec<u8>,
    pub(crate) node: Option<usize>,
    pub(crate) packet: Option<usize>,
}

/// The text of the line with this number.
pub(crate) fn text_at(lines: &[Line], place: usize) -> &[u8]
    requires { place < length lines.now }
    ensures { result.now ≡ line_at (texts_of lines.now) place }
{
    &lines[place].text
}

/// Whether a step begins with this line, if it isn't the first.
pub(crate) fn starts_step(text: &[u8]) -> bool
    ensures { result ≡ starts_step text.now }
{
    is_word(cut(text).0, "in")
}

/// The second field, no bytes where there is none.
pub(crate) fn node_in(text: &[u8]) -> &[u8]
    ensures { result.now ≡ node_in text.now }
{
    match next_field(cut(text).1) {
        Some((second, _)) => second,
        None => &text[..0],
    }
}

/// The second field, the third, and the last.
fn fields(text: &[u8]) -> (&[u8], &[u8], &[u8]) {
    let none = &text[..0];
    let (second, rest) = next_field(cut(text).1).unwrap_or((none, None));
    let (third, _) = next_field(rest).unwrap_or((none, None));
    match text.iter().rposition(|b| *b == b' ') {
        Some(space) => (second, third, &text[space + 1..]),
        None => (second, third, text),
    }
}

/// All lines, and the names of nodes and packets by their numbers.
#[derive(Drop)]
pub(crate) struct Traces {
    alloc: Global,
    pub(crate) lines: Vec<Line>,
    pub(crate) nodes: IndexSet<Vec<u8>>,
    pub(crate) packets: IndexSet<Vec<u8>>,
}

impl Traces {
    pub(crate) fn new(alloc: Global) -> Traces
        ensures { result.lines.items ≡ [] }
    {
        Traces {
            alloc,
            lines: Vec::new(alloc),
            nodes: IndexSet::new(alloc),
            packets: IndexSet::new(alloc),
        }
    }

    /// The number of a packet; capital letters count as small ones.
    fn packet(&mut self, text: &[u8]) -> Result<Option<usize>, AllocError>
        ensures { self.new.lines ≡ self.old.lines }
    {
        let name = text
            .iter()
            .map(|b| b.to_ascii_lowercase())
            .collect(self.alloc)?;
        Ok(Some(self.packets.insert_full(name)?.0))
    }

    /// Takes a line.
    pub(crate) fn take(&mut self, text: &[u8]) -> Result<(), AllocError>
        ensures { OnOk result (texts_of self.new.lines.items
            ≡ texts_of self.old.lines.items ++ text.now ∷ []) }
    {
        let (name, kind, last) = fields(text);
        let mut line = Line {
            text: Vec::from_slice(self.alloc, text)?,
            node: None,
            packet: None,
        };
        if !self.lines.is_empty() && starts_step(text) {
            let name = Vec::from_slice(self.alloc, name)?;
            line.node = Some(self.nodes.insert_full(name)?.0);
            if is_word(kind, "packet") {
                line.packet = self.packet(last)?;
            }
        } else if !self.nodes.is_empty() && is_word(cut(text).0, "out") && is_word(kind, "send") {
            line.packet = self.packet(last)?;
        }
        self.lines.push(line)?;
        Ok(())
    }
}
