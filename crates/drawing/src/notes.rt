//! The notes of a row.

ghost use Rattle.std.specs.Prelude.{◌≡◌, ◌↔◌, ◌∷◌, [], false, IfOk, IsTrue, OnOk};
ghost use Rattle.drawing.specs.Gathered.{notes_of, AddsMarked, AddsNotes};

use nop_types::NoMemory;
use picture::{Mark, Note, Text};
use picture_labels::note_of;
use std::alloc::Global;
use std::mem;

/// Notes that grow one by one. Want of memory is told at the end.
#[derive(Drop)]
pub struct Notes {
    alloc: Global,
    written: Vec<Note>,
    failed: bool,
}

impl Notes {
    pub fn new(alloc: Global) -> Notes
        ensures written { result.written.items ≡ [] }
        ensures failed { result.failed ≡ false }
    {
        Notes {
            alloc,
            written: Vec::new(alloc),
            failed: false,
        }
    }

    /// These notes in the place of all others.
    pub fn set(&mut self, notes: Vec<Note>)
        ensures { self.new ≡ record self.old { written = notes } }
    {
        self.written = notes;
    }

    pub fn is_empty(&self) -> bool
        ensures { IsTrue result ↔ (self.now.written.items ≡ []) }
    {
        self.written.is_empty()
    }

    fn push(&mut self, note: Note)
        ensures { AddsNotes self.old self.new (note ∷ []) }
    {
        self.failed |= self.written.push(note).is_err();
    }

    pub fn put(&mut self, mark: Mark, text: Text)
        ensures { AddsMarked self.old self.new mark }
    {
        match note_of(mark, text) {
            Ok(note) => self.push(note),
            Err(_) => self.failed = true,
        }
    }

    /// Appends a note, if there is one.
    pub fn extend(&mut self, note: Option<Note>)
        ensures { AddsNotes self.old self.new (notes_of note) }
    {
        if let Some(note) = note {
            self.push(note);
        }
    }

    /// All notes. Then there are none.
    pub fn take(&mut self) -> Result<Vec<Note>, NoMemory>
        ensures all { IfOk result (λ notes. notes.items ≡ self.old.written.items) }
        ensures left { OnOk result (self.new.written.items ≡ []) }
        ensures failed { OnOk result (self.old.failed ≡ false) }
        ensures stays { self.new.failed ≡ self.old.failed }
    {
        if self.failed {
            return Err(NoMemory);
        }
        Ok(mem::replace(&mut self.written, Vec::new(self.alloc)))
    }
}
