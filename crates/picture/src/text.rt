ghost use Rattle.std.specs.Prelude.{◌≡◌, ◌++◌, [], decimal, false, encode_utf8, string_bytes, IfOk};
ghost use Rattle.transcript_text.specs.Transcript.{actor_text};
ghost use Rattle.picture.specs.Texts.{Grows};

use nop_types::{Actor, NoMemory};
use std::alloc::Global;

/// A text that grows by its parts. Want of memory is told at the end.
#[derive(Drop)]
pub struct Text {
    written: String,
    failed: bool,
}

impl Text {
    pub fn new(alloc: Global) -> Text
        ensures { (result.failed ≡ false) × (string_bytes result.written ≡ []) }
    {
        Text {
            written: String::new(alloc),
            failed: false,
        }
    }

    pub fn put(&mut self, text: &str)
        ensures { Grows self.old self.new text.now }
    {
        if self.written.push_str(text).is_err() {
            self.failed = true;
        }
    }

    pub fn character(&mut self, c: char)
        ensures { Grows self.old self.new (encode_utf8 c) }
    {
        if self.written.push(c).is_err() {
            self.failed = true;
        }
    }

    pub fn number(&mut self, n: u64)
        ensures { Grows self.old self.new (decimal n) }
    {
        let mut buffer = itoa::Buffer::new();
        self.put(buffer.format(n));
    }

    /// A word and a number.
    pub fn numbered(&mut self, word: &str, n: u64)
        ensures { Grows self.old self.new (word.now ++ decimal n) }
    {
        self.put(word);
        self.number(n);
    }

    /// The name of an actor, as schedules have it.
    pub fn actor(&mut self, actor: Actor)
        ensures { Grows self.old self.new (actor_text actor) }
    {
        match actor {
            Actor::Replica(i) => self.numbered("r", u64::from(i)),
            Actor::Sequencer(i) => self.numbered("s", u64::from(i)),
            Actor::Client(i) => self.numbered("c", u64::from(i)),
            Actor::Controller(0) => self.put("ctl"),
            Actor::Controller(i) => self.numbered("ctl", u64::from(i)),
            Actor::Observer(i) => self.numbered("o", u64::from(i)),
        }
    }

    pub fn finish(self) -> Result<String, NoMemory>
        ensures { IfOk result (λ s. (self.failed ≡ false) × (s ≡ self.written)) }
    {
        if self.failed {
            return Err(NoMemory);
        }
        Ok(self.written)
    }
}
