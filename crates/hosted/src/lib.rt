//! The programs of a service, over the devices of the system: standard input and output, sockets, files, clock. A program is one
//! call, with the service's `Host` and the program's name; its status is the number with which the process ends.
//!
//! `run_service` carries out the command that the words ask for, on this machine: `commands::run`. A word that is no text is answered
//! as no words are, by the usage line. It has no clauses, since no contract says what these devices hold; those of `run` hold of it.
//! That the status becomes the exit status, and that nothing is written to standard error, is seen by `checks/processes.sh`.
//!
//! `run_hosted` runs one node of several machines, where a list of hosts says where each actor is:
//!
//!     PROGRAM LIST [--marks FOLDER] ACTOR [OPTION..] [OP..]
//!
//! LIST is the file of a list of hosts, ACTOR the name that an actor has there, of a client `c` and its whole number; what follows
//! are options and ops as `commands` has them for this actor, but for those that the list says. The counts of replicas, sequencers
//! and observers are those of the list. With `--marks` a file `CLUSTER-ACTOR` is made in the folder before anything is sent; where
//! it is there already, the link fails.
//!
//! Proved: what the words ask for (`asked_by`, in `specs/Arguments`); who is to run, by the text of the list, or why nothing is
//! (`planned`, in `specs/Plans`); that the words that run it are those of its command, with the list's counts, and then the user's
//! (`own_words`), and that the command that `command_line` reads in them is the one of this actor (`runs_own`): where it is not, the
//! words are not taken. Of a list that is refused the line and the rule are told, and else the usage line, with status 2, or 4 exactly
//! where a write failed (`Ends`, in `specs/Texts`). Who is where, is said at the head of `host_places`. The run is a call of
//! `commands::run` as it is, so its clauses hold of it. No contract says what a file holds: that status 3 means that the list could
//! not be read, and 5 that a mark was there, is only tested.
//!
//! Calls: `run_service` (`service`), `run_hosted`. Files of that: `actors` (which actor), `arguments` (what is asked for), `unfit`, `plans` (who is to run), `texts`
//! (lines for the user), `running`.
#![tactic(auto)]

mod actors;
mod arguments;
mod plans;
mod running;
mod service;
mod texts;
mod unfit;

pub use running::run_hosted;
pub use service::run_service;
