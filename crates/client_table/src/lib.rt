//! The greatest executed id of each client, with the results of those less than a window behind it:
//! what makes a retried request execute once.
//!
//! A table `takes` a request whose client it serves, which is one that it has, or any as long as it
//! has fewer than `MAX_SERVED`, and whose id is new. `judge` says of an id that it is `Fresh`, the
//! `Same` (with the result) or `Stale`, exactly by what is kept for the client; after any answers,
//! each of them fresh when it was kept, this compares it with all ids of the client
//! (`verdict_is_by_ids`), and asks what the definitions of execution ask
//! (`verdict_is_of_execution`). `keep` takes the answer to a request that the table takes. On an
//! error the table is as before; else what it gives has the results that left the window for it, and
//! `unkeep`, which takes no memory, puts them back: the table is then as before the answer was kept
//! (`unkept_is_before`), where each account keeps what may be kept (`AllKept`), as it does in every
//! table that is new, or loaded, or has one answer more. `saved` gives the clients in ascending
//! order, and `load` the table again (`saved_loads`).
//!
//! Calls: `ClientTable::new`, `takes`, `judge`, `keep`, `unkeep`, `saved`, `load`, for the
//! executor. Further laws: `table_is_by_client`, `answer_is_for_client`.
//!
//! Files: `table`, with `dropped`, `account` and `accounts` below it; `judged`, `kept`. Definitions:
//! `specs/Table` (`verdict_on`, `unkept`) and `Runs` (`IsVerdict`).
#![tactic(auto)]

mod account;
mod accounts;
mod dropped;
mod judged;
mod kept;
mod laws;
mod table;

pub use judged::Judged;
pub use kept::Kept;
pub use laws::{
    answer_is_for_client, saved_loads, table_is_by_client, unkept_is_before, verdict_is_by_ids,
    verdict_is_of_execution,
};
pub use table::ClientTable;
