//! The client cores' way out.

ghost use Rattle.std.specs.Prelude.{◌≡◌};
ghost use Rattle.gate.specs.Carrying.{Untaken};
ghost use Rattle.gate.specs.Sides.{links_seen};

use crate::readers::ReadTimer;
use crate::retry::RetryTimer;
use attached_links::AttachedLink;
use nop_types::{Dest, NoMemory};
use outside::Link;
use roll_call::Roll;
use std::alloc::Global;
use watching::ask;

/// When a core sends its requests again, and when its read.
#[derive(Drop)]
pub(crate) struct Timers {
    pub(crate) requests: RetryTimer,
    pub(crate) reads: ReadTimer,
}

/// The links of so many client cores, in the order of their places, and behind them that of the
/// watch, if there is one; and how many requests were submitted.
pub(crate) struct Lines<L> {
    pub(crate) lines: Vec<AttachedLink<L, Timers>>,
    pub(crate) cores: usize,
    pub(crate) submitted: u64,
}

impl Timers {
    pub(crate) fn new(alloc: Global) -> Timers {
        Timers {
            requests: RetryTimer::new(alloc),
            reads: ReadTimer::new(alloc),
        }
    }

    /// Whether the open requests or the read of a core are to be sent again now.
    fn is_due(&mut self, now: u64) -> bool {
        let requests = self.requests.is_due(now);
        let read = self.reads.is_due(now);
        requests || read
    }
}

impl<L: Link> Lines<L> {
    /// The core at a place sends a datagram.
    pub(crate) fn send(&mut self, core: usize, dest: Dest, bytes: &[u8]) -> Result<(), NoMemory>
        ensures { Untaken (links_seen L.Link self.old) (links_seen L.Link self.new) }
    {
        if core >= self.lines.len() {
            return Ok(());
        }
        let line = &mut self.lines[core];
        line.send(dest, bytes)
    }

    /// The nodes of a roll are asked over the link of the watch, where it is time for a round.
    pub(crate) fn ask(&mut self, roll: &Roll, now: u64)
        ensures { Untaken (links_seen L.Link self.old) (links_seen L.Link self.new) }
    {
        let place = self.cores;
        if place >= self.lines.len() {
            return;
        }
        let line = &mut self.lines[place];
        ask(roll, now, &mut line.link);
    }

    /// The core at a place submitted a request.
    pub(crate) fn submitted(&mut self, core: usize, id: u64, now: u64) -> Result<(), NoMemory>
        ensures { links_seen L.Link self.new ≡ links_seen L.Link self.old }
    {
        if core >= self.lines.len() {
            return Ok(());
        }
        self.submitted = self.submitted.saturating_add(1);
        let order = self.submitted;
        let line = &mut self.lines[core];
        line.state.requests.submitted(id, order, now)
    }

    /// The core at a place accepted the result of a request. Gives the order of the request.
    fn accept(&mut self, core: usize, id: u64, now: u64) -> u64
        ensures { links_seen L.Link self.new ≡ links_seen L.Link self.old }
    {
        if core >= self.lines.len() {
            return 0;
        }
        let line = &mut self.lines[core];
        line.state.requests.accepted(id, now)
    }

    /// How many requests are open, of all cores.
    fn open(&self) -> usize {
        let mut open: usize = 0;
        for line in self.lines.iter() {
            open = open.saturating_add(line.state.requests.open());
        }
        open
    }

    /// The request with this order was answered before those that the core at a place submitted
    /// earlier; so many are open, of all cores.
    fn pass_at(&mut self, core: usize, order: u64, open: usize)
        ensures { links_seen L.Link self.new ≡ links_seen L.Link self.old }
    {
        if core < self.lines.len() {
            let line = &mut self.lines[core];
            line.state.requests.passed(order, open);
        }
    }

    /// The request with this order was answered before all that were submitted earlier and are
    /// open.
    fn pass(&mut self, order: u64)
        ensures { links_seen L.Link self.new ≡ links_seen L.Link self.old }
    {
        let open = self.open();
        for core in 0..self.lines.len() {
            self.pass_at(core, order, open);
        }
    }

    /// The core at a place accepted the result of a request.
    pub(crate) fn accepted(&mut self, core: usize, id: u64, now: u64)
        ensures { links_seen L.Link self.new ≡ links_seen L.Link self.old }
    {
        let order = self.accept(core, id, now);
        self.pass(order);
    }

    /// The core at a place asked for a read.
    pub(crate) fn asked(&mut self, core: usize, id: u64, now: u64) -> Result<(), NoMemory>
        ensures { links_seen L.Link self.new ≡ links_seen L.Link self.old }
    {
        if core >= self.lines.len() {
            return Ok(());
        }
        let line = &mut self.lines[core];
        line.state.reads.asked(id, now)
    }

    /// The core at a place was answered its read.
    pub(crate) fn answered(&mut self, core: usize, id: u64, now: u64)
        ensures { links_seen L.Link self.new ≡ links_seen L.Link self.old }
    {
        if core < self.lines.len() {
            let line = &mut self.lines[core];
            line.state.reads.answered(id, now);
        }
    }

    /// Whether the core at a place has no read under way.
    pub(crate) fn reads_nothing(&self, core: usize) -> bool {
        core < self.lines.len() && self.lines[core].state.reads.is_idle()
    }

    /// Whether the core at a place waits for an answer.
    pub(crate) fn is_waiting(&self, core: usize) -> bool {
        if core >= self.lines.len() {
            return false;
        }
        let line = &self.lines[core];
        !line.state.requests.is_idle() || !line.state.reads.is_idle()
    }

    /// Whether another core is to ask for the read of the core at a place now, if one may.
    pub(crate) fn is_overdue(&mut self, core: usize, may: bool, now: u64) -> bool
        ensures { links_seen L.Link self.new ≡ links_seen L.Link self.old }
    {
        if core >= self.lines.len() {
            return false;
        }
        let line = &mut self.lines[core];
        line.state.reads.is_overdue(may, now)
    }

    /// Whether the core at a place sends its open requests and its read again now.
    pub(crate) fn is_due(&mut self, core: usize, now: u64) -> bool
        ensures { links_seen L.Link self.new ≡ links_seen L.Link self.old }
    {
        if core >= self.lines.len() {
            return false;
        }
        let line = &mut self.lines[core];
        line.state.is_due(now)
    }
}
