//! Lemmas for the proofs of the crates above: on members, places and prefixes of lists, on slots of
//! logs, on numbers and bytes, on the order and the rank of views, on the results that are kept for
//! a client, and on a function of which one place changes (`put`, in `specs/Functions`). There is no
//! code here, and no contract.
//!
//! A lemma that speaks of nothing else and serves in two files is here once; what std has is cited
//! from std. An equation is named by its left side (`length-laid`), another lemma by what it gives.
//! Tactics take the rule sets `order_of_views`, `rank_of_views`, `written_slots` and `laid_slots`.
//!
//! Files, in `proofs/`: `Members`, `Places`, `Mapped`, `Prefixes`, `Counts`, `Ranks`, `Slots`,
//! `Numbers`, `Views`, `Functions`, `Kept`; `Limits` of a configuration, `Bools`, `Options`; `Bytes`,
//! with services that answer with bytes.
#![tactic(auto)]
