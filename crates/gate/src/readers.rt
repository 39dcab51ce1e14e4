//! Which reads wait for a core, and when.

ghost use Rattle.std.specs.Prelude.{◌≡◌};

use crate::retry::RetryTimer;
use nop_types::NoMemory;
use std::alloc::Global;
use std::collections::VecDeque;

/// After so many milliseconds a read is asked for again whose answer was from a state that is too
/// old.
pub(crate) const AGAIN_MILLIS: u64 = 10;

/// After so many milliseconds without an answer a read is asked for by another core.
pub(crate) const REASSIGN_MILLIS: u64 = 1_000;

const _: () = prove!(AGAIN_MILLIS == 10 && REASSIGN_MILLIS == 1_000);

/// A user whose read waits, and from when on it is to be asked for.
#[derive(Clone, Copy)]
struct Later {
    user: u64,
    due: u64,
}

/// The users whose reads wait for a core: those that may be asked for at once, and those whose
/// answers were too old, in the order in which they came.
#[derive(Drop)]
pub(crate) struct Readers {
    now: VecDeque<u64>,
    later: VecDeque<Later>,
}

impl Readers {
    pub(crate) fn new(alloc: Global) -> Readers {
        Readers {
            now: VecDeque::new(alloc),
            later: VecDeque::new(alloc),
        }
    }

    /// A read of a user waits; `again` where its answer was too old.
    pub(crate) fn push(&mut self, user: u64, again: bool, now: u64) -> Result<(), NoMemory> {
        if again {
            let due = now.saturating_add(AGAIN_MILLIS);
            self.later.push_back(Later { user, due })?;
        } else {
            self.now.push_back(user)?;
        }
        Ok(())
    }

    fn is_due(&self, now: u64) -> bool {
        match self.later.front() {
            Some(first) => first.due <= now,
            None => false,
        }
    }

    /// The user whose read is asked for next, if one may be.
    pub(crate) fn take_first(&mut self, now: u64) -> Option<u64> {
        if !self.is_due(now) {
            return self.now.pop_front();
        }
        match self.later.pop_front() {
            Some(first) => Some(first.user),
            None => None,
        }
    }

    /// A user left.
    pub(crate) fn forget(&mut self, user: u64) {
        self.now.retain(|reader| *reader != user);
        self.later.retain(|reader| reader.user != user);
    }
}

/// The read that a core has under way: when it is sent again, from when on it is under way, and
/// whether another core was to ask for it since.
#[derive(Drop)]
pub(crate) struct ReadTimer {
    timer: RetryTimer,
    since: u64,
    is_reassigned: bool,
}

impl ReadTimer {
    pub(crate) fn new(alloc: Global) -> ReadTimer {
        ReadTimer {
            timer: RetryTimer::new(alloc),
            since: 0,
            is_reassigned: false,
        }
    }

    /// No read is under way.
    pub(crate) fn is_idle(&self) -> bool {
        self.timer.is_idle()
    }

    /// The core asked for a read.
    pub(crate) fn asked(&mut self, id: u64, now: u64) -> Result<(), NoMemory> {
        self.since = now;
        self.is_reassigned = false;
        self.timer.submitted(id, 0, now)
    }

    /// The core was answered it.
    pub(crate) fn answered(&mut self, id: u64, now: u64) {
        let _order = self.timer.accepted(id, now);
    }

    /// Whether it is to be sent again now.
    pub(crate) fn is_due(&mut self, now: u64) -> bool {
        self.timer.is_due(now)
    }

    /// Whether another core is to ask for it now, if one may: once, when its observer did not
    /// answer for long.
    pub(crate) fn is_overdue(&mut self, may: bool, now: u64) -> bool {
        if !may || self.is_idle() || self.is_reassigned {
            return false;
        }
        self.is_reassigned = REASSIGN_MILLIS <= now.saturating_sub(self.since);
        self.is_reassigned
    }
}
