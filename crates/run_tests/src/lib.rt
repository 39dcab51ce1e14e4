//! Tests alone, by the public calls of the crates below: commands over devices in memory, whose
//! reads and writes are short and fail in turn (`runs`, `faults`), also of the tools that look for
//! an order; calls and sessions of a client (`calls`); and events that are drawn and run (`drawn`).
//! What a run of the real program shows is data of `checks/`.
#![tactic(auto)]

#[cfg(test)]
mod calls;
#[cfg(test)]
mod clusters;
#[cfg(test)]
mod drawn;
#[cfg(test)]
mod faults;
#[cfg(test)]
mod nodes;
#[cfg(test)]
mod outcomes;
#[cfg(test)]
mod runs;
#[cfg(test)]
mod texts;
#[cfg(test)]
mod traces;
