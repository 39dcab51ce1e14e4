//! What the program meets outside: the traits `Source`, `Sink`, `Link`, `Ports` and `Clock`, and
//! their forms in memory.
//!
//! Observable devices: in a contract a device's contents are `Some` where contracts can see them,
//! as in memory, and `None` where not, as those of sockets; clauses on contents hold trivially at
//! `None`. The clauses of the traits say what a call took or gave, and that each count of failures
//! rises by one exactly where a call failed, up to 2^64 - 1 (`count_after`). The contents of a link
//! are one trace of its polls and of what it sent, in order. A send that fails is counted apart, as
//! a loss; a link that is not observable may also find losses at a poll.
//!
//! The forms in memory follow a plan (`CallPlan`): what each poll answers, which calls fail, which
//! values the clock has. Of those that never fail (`Unfailing`) each count is 0, whatever was
//! called (law `unfailing_has_no_faults`). `write_all` writes all of a piece, or a proper prefix of
//! it on an error.
//!
//! Calls: the traits; `write_all`; `ReadMem`, `WriteMem`, `LinkMem`, `PortsMem` and `ClockMem`, for
//! `commands::run_in_memory` and tests.
//!
//! Files: `source`, `sink`, `link`, `ports`, `clock`; `plan`, then the forms in memory; `errors`.
//! Definitions: `specs/Causes` (`count_after`, `CountsWhere`, `Rose`), `Observed` (`Stays`, `Adds`),
//! `Links`, `Plans`.
#![tactic(auto)]

mod clock;
mod clock_mem;
mod errors;
mod link;
mod link_mem;
mod plan;
mod ports;
mod ports_mem;
mod read_mem;
mod sink;
mod source;
mod write_mem;

pub use clock::Clock;
pub use clock_mem::ClockMem;
pub use errors::{AttachError, DeviceError, Failed, LinkError, WriteError};
pub use link::{Link, LinkCall, PollAnswer};
pub use link_mem::LinkMem;
pub use plan::{CallPlan, Failing, Unfailing, unfailing_has_no_faults};
pub use ports::Ports;
pub use ports_mem::PortsMem;
pub use read_mem::ReadMem;
pub use sink::{Sink, write_all};
pub use source::Source;
pub use write_mem::WriteMem;
