//! Who of the nodes of a cluster answers, as one sees it who only listens at its links: each second he asks every node whether his own
//! number is free, which no node notes, and hears who answers.
//!
//! Proved: whom an answer is of, which nodes stand otherwise in a round than before, and the lines that say so, are what the definitions
//! say (`specs/Rolls`, `Lines`), whatever comes. Its laws: a node stands otherwise only where a line says so (`changes_are_told`), and
//! that in a round (`answers_show_in_rounds`), and what is asked changes nothing that a link keeps (`questions_leave_no_trace`). A node
//! is silent that answered nothing for three seconds; answers can be forged by who can send from the address of any node.
//!
//! Calls: `Roll::new` and `none`; of a round `is_due`, `count`, `port_at` and `question`, `put_news`, and `turn`; `hear`; `put_standings`;
//! `silent_since`.
//! Files: `node`, `answers`, `lines`, `roll`, `laws`. Definitions: `specs/Nodes`, `Rolls`, `Lines`.
#![tactic(auto)]

mod answers;
mod laws;
mod lines;
mod node;
mod roll;

pub use laws::{answers_show_in_rounds, changes_are_told, questions_leave_no_trace};
pub use node::{Node, Standing};
pub use roll::Roll;
