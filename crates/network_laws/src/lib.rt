//! Laws on what travels between replicas, over any host: what a replica takes was sent as a whole,
//! and what it sends stays in its ranges.
//!
//! They speak of plain lists: the bytes of all datagrams that were sent, the peer messages that
//! replicas sent, and the last message number that each used. `Network` says that the fragments
//! among the datagrams carry exactly those messages, `InNetwork` that a replica has only parts that
//! were sent. Both hold in the initial state (`opening_carries`), and after each step
//! (`steps_deliver`): it takes the row of a stamped request that was sent, of a message that its
//! sender sent, of a tick, or none, and what it sends is carried too. Datagrams that are no
//! fragments leave it so (`network_goes_on`).
//!
//! Of the rows, over logs that are kept whole and over trimmed ones: they keep states and messages in
//! their ranges (`rows_stay_in_ranges`); they send under the replica's own number
//! (`rows_send_under_their_number`) and to replicas of the configuration
//! (`rows_send_within_the_configuration`). What is posted, while message numbers are left, are the
//! fragments of the messages, under the next numbers (`posts_fragments`), and the replies
//! (`posts_replies`). The premise on the service is `Bounds`: results fit a reply, and a log whose sync
//! point rises stays in its ranges. Each host keeps them (`trimmed_logs_keep_bounds` of `trimming`).
//!
//! Files: `laws`; the proofs of `safety` and `replay` cite them. Definitions: `specs/Carried`,
//! `Network`, `Steps` (`Delivers`). More in docs/PROOF.md, "From moves to the program".
#![tactic(auto)]

mod laws;

pub use laws::{
    fragments_bring_messages, joined_was_sent, network_goes_on, opening_carries, posting_carries,
    posts_fragments, posts_replies, rows_send_under_their_number,
    rows_send_within_the_configuration, rows_stay_in_ranges, steps_deliver,
};
