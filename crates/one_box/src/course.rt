ghost use Rattle.std.specs.Prelude.{◌≡◌, ◌+◌, ◌++◌, ◌∷◌, [], IfOk, OnOk};
ghost use Rattle.one_box.specs.ClusterRun.{opening_course};
ghost use Rattle.one_box.specs.Counting.{AtMost};
ghost use Rattle.one_box.specs.Showing.{course_of};

use nop_types::{Config, Host, NoMemory};
use schedule_text::Event;
use std::alloc::Global;
use world::{Lines, World};

/// What all actors did: the world, the events that were kept, the text of their lines, how many ops were accepted, and how many
/// datagrams came that nobody had sent.
#[derive(Drop)]
pub(crate) struct Course<H: Host> {
    pub(crate) world: World<H>,
    pub(crate) events: Vec<Event>,
    pub(crate) text: Vec<u8>,
    pub(crate) accepts: u64,
    pub(crate) stray: u64,
}

/// The sum; a count past its type answers NoMemory, since no memory holds that many lines.
fn raised(count: u64, more: u32) -> Result<u64, NoMemory>
    ensures { IfOk result (λ n. n ≡ count + more) }
{
    match count.checked_add(u64::from(more)) {
        Some(n) => Ok(n),
        None => Err(NoMemory),
    }
}

impl<H: Host> Course<H> {
    /// Nothing was done. The world keeps an index, so that a datagram is found by its bytes.
    pub(crate) fn new(alloc: Global, config: Config) -> Result<Course<H>, NoMemory>
        ensures { IfOk result (λ c. course_of c ≡ opening_course config) }
    {
        Ok(Course {
            world: World::with_index(alloc, config)?,
            events: Vec::new(alloc),
            text: Vec::new(alloc),
            accepts: 0,
            stray: 0,
        })
    }

    /// Keeps an event that happened, and its lines.
    pub(crate) fn keep(&mut self, event: Event, lines: Lines) -> Result<(), NoMemory>
        ensures kept { OnOk result (course_of self.new ≡ record (course_of self.old) {
          events = self.old.events.items ++ event ∷ [];
          text = self.old.text.items ++ lines.text;
          accepts = self.old.accepts + lines.accepts;
        }) }
        ensures few { AtMost 1 self.old.events.items self.new.events.items }
    {
        self.accepts = raised(self.accepts, lines.accepts)?;
        self.text.extend_from_slice(lines.text.as_slice())?;
        self.events.push(event)?;
        Ok(())
    }
}
