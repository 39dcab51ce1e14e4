//! Laws on how an order is found in which lines are linearizable. A front is the list of the requests that
//! were placed so far, while lines are gone through one by one (`specs/Fronts`): `IsFront` says that it is
//! right for the lines passed, and `GoesOn` that some legal history begins with it. Each law is the
//! contract of a function with an empty body.
//!
//! - One step: where a line accepts what is not placed, some request that was submitted before the line
//!   may be placed next (`the_next_member`). So a search may place requests at such lines only, and finds
//!   an order where there is one. A front stays right (`front_opens`, `front_passes`, `front_places`), and
//!   behind the last line it is a legal history (`fronts_behind_all_lines_are_legal`). Where the empty
//!   front goes nowhere, no history is legal (`all_histories_begin_empty`).
//! - What may be kept: where a front goes on, so does one that leaves the same state and has the same members,
//!   but for some that no line accepts (`fronts_go_on_alike`). So over any `Host` a front goes nowhere where one
//!   with the same line and the same saved state went nowhere, and the same requests were left there, or more
//!   that no line accepts (`failed_configurations_fail_again`).
//! - What need not be tried: where a front goes on, it goes on with any request that may follow and whose
//!   op changes nothing (`reads_may_come_first`). `Parted` says which ops are known to (`only_reads`).
//! - Parts: how a service is `Parted`, so that ops of one part do not rest on those of others. A legal history of
//!   all lines is one of each part (`parts_are_legal`), and orders of the parts make one of the whole where
//!   times lie between the lines of each member (`the_whole_is_legal`). Any service is one part of itself
//!   (`OnePart`).
//!
//! Files: `laws`, `parted`, `part_laws`; definitions: `specs/Fronts`, `Configurations`, `Parts`.
#![tactic(auto)]

mod laws;
mod part_laws;
mod parted;

pub use laws::{
    all_histories_begin_empty, failed_configurations_fail_again, front_opens, front_passes,
    front_places, fronts_behind_all_lines_are_legal, fronts_go_on_alike, reads_may_come_first,
    the_next_member,
};
pub use part_laws::{parts_are_legal, the_whole_is_legal};
pub use parted::{OnePart, Parted};
