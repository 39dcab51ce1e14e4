ghost use Rattle.std.specs.Prelude.{◌≡◌, ◌+◌, ◌≤◌, ◌<◌, ◌⊎◌, false, true, length, take, drop};
ghost use Rattle.std.specs.Prelude.{◌↔◌, IfOk, IsTrue, OnOk, OnErr};
ghost use Rattle.outside.specs.Causes.{CountsFor};
ghost use Rattle.line_reader.specs.Deciding.{IsUndecided};
ghost use Rattle.line_reader.specs.Reading.{opening, IsFirst, LeavesNone, NeedsNoRead, Reaches};
ghost use Rattle.line_reader.specs.Reading.{TakesFrom};

use crate::buffer::fill;
use crate::first_line::{FirstLine, first_line};
use crate::read_error::ReadError;
use bytes::BytesMut;
use outside::Source;
use std::alloc::Global;
use std::marker::Model;

/// Reads lines, of which there may be `most`. It asks a source for pieces of at most 4,096 bytes, and only while no further line
/// is decided: a line is decided by its end, by a byte more than a line or a line more than there may be, or by the end of
/// the source.
#[derive(Drop)]
pub struct LineReader {
    buffer: BytesMut,
    most: u32,
    line: u32,
    ended: bool,
    /// The next line, if it is decided.
    next: Option<FirstLine>,
}

impl Model for LineReader {
    ghost use Rattle.line_reader.specs.Reading.{Reading, IsReader};

    ghost Value = { Reading };

    ghost view = { λ r. record {
      most = r.most;
      line = r.line;
      pending = r.buffer.items;
      ended = r.ended;
    } };

    ghost invariant = { λ r. IsReader r.next r.most r.line r.ended r.buffer.items };
}

impl LineReader {
    /// A reader that took nothing. It takes no memory.
    pub fn new(alloc: Global, most: u32) -> LineReader
        ensures { result ≡ opening most }
    {
        LineReader {
            buffer: BytesMut::new(alloc),
            most,
            line: 0,
            ended: false,
            next: None,
        }
    }

    /// The number of lines taken.
    pub fn line(&self) -> u32
        ensures value { result ≡ self.now.line }
        ensures most { result ≤ self.now.most }
    {
        self.line
    }

    /// Whether the next line or the end of the source is there already: exactly where `next_line` does not ask its source.
    pub fn has_line(&self) -> bool
        ensures { IsTrue result ↔ NeedsNoRead self.now }
    {
        self.ended || self.next.is_some()
    }

    /// Where the next line lies, None at the end of the source. After ReadFault and NoMemory nothing that was read is lost, and
    /// the next call goes on.
    pub fn next_line<S: Source>(&mut self, source: &mut S) -> Result<Option<FirstLine>, ReadError>
        ensures first { IfOk result (Reaches self.new) }
        ensures takes { TakesFrom self.old self.new (S.left source.old) (S.left source.new) }
        ensures none_left { LeavesNone self.new result }
        ensures count { CountsFor (S.fault_count source.old) (S.fault_count source.new)
            ReadError.ReadFault result }
        ensures unread { NeedsNoRead self.old → (source.new ≡ source.old)
            × (self.new ≡ self.old) }
    {
        if let Some(first) = self.next {
            return Ok(Some(first));
        }
        self.read_line(source)
    }

    /// Reads until the next line is decided; None at the end of the source.
    #[cold]
    fn read_line<S: Source>(&mut self, source: &mut S) -> Result<Option<FirstLine>, ReadError>
        ensures first { IfOk result (Reaches self.new) }
        ensures takes { TakesFrom self.old self.new (S.left source.old) (S.left source.new) }
        ensures none_left { LeavesNone self.new result }
        ensures count { CountsFor (S.fault_count source.old) (S.fault_count source.new)
            ReadError.ReadFault result }
        ensures unread { NeedsNoRead self.old → (source.new ≡ source.old)
            × (self.new ≡ self.old) }
    {
        loop {
            if let Some(first) = self.next {
                return Ok(Some(first));
            }
            if self.ended {
                return Ok(None);
            }
            self.read_piece(source)?;
        }
    }

    fn read_piece<S: Source>(&mut self, source: &mut S) -> Result<(), ReadError>
        requires undecided { IsUndecided self.old.most self.old.line self.old.ended
            self.old.pending }
        requires going { self.old.ended ≡ false }
        ensures more { OnOk result ((self.new.ended ≡ true)
            ⊎ (length self.old.pending < length self.new.pending)) }
        ensures takes { TakesFrom self.old self.new (S.left source.old) (S.left source.new) }
        ensures kept { OnErr result (self.new ≡ self.old) }
        ensures count { CountsFor (S.fault_count source.old) (S.fault_count source.new)
            ReadError.ReadFault result }
    {
        let searched = self.buffer.len();
        match fill(&mut self.buffer, source) {
            Ok(count) => {
                self.ended = count == 0;
                let bytes = self.buffer.as_slice();
                self.next = first_line(self.most, self.line, self.ended, searched, bytes);
                Ok(())
            }
            Err(e) => Err(e),
        }
    }

    /// The next line, without its end.
    pub fn text(&self, first: FirstLine) -> &[u8]
        requires { IsFirst self.now first }
        ensures { result.now ≡ take first.len self.now.pending }
    {
        &self.buffer.as_slice()[..first.len]
    }

    /// Takes the next line.
    pub fn take(&mut self, first: FirstLine)
        requires first { IsFirst self.old first }
        requires fits { self.old.line < self.old.most }
        ensures most { self.new.most ≡ self.old.most }
        ensures line { self.new.line ≡ self.old.line + 1 }
        ensures pending { self.new.pending ≡ drop first.end self.old.pending }
        ensures ended { self.new.ended ≡ self.old.ended }
    {
        self.buffer.advance(first.end);
        self.line += 1;
        let bytes = self.buffer.as_slice();
        self.next = first_line(self.most, self.line, self.ended, 0, bytes);
    }
}
