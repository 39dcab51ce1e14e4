//! Tests alone: links over sockets, at ports of the loopback address (`sockets`) and at places (`places`); how they send and acknowledge
//! the fragments of long messages (`links`, through loss in `loss`), and when, in calls that take times (`resent`); users at a TCP socket (`tcp`); lists of hosts
//! and greetings as bytes (`lists`), processes that start and what links answer them (`askers`). Stories of links are told over any
//! ports, and by a test over those of the system. Clusters over sockets are in `run_tests`.
#![tactic(auto)]

#[cfg(test)]
mod askers;
#[cfg(test)]
mod checking;
#[cfg(test)]
mod links;
#[cfg(test)]
mod lists;
#[cfg(test)]
mod loss;
#[cfg(test)]
mod places;
#[cfg(test)]
mod resent;
#[cfg(test)]
mod sockets;
#[cfg(test)]
mod tcp;
