//! Tests alone, by the public calls of the crates below: the cores one by one, and groups of
//! replicas that are driven by hand-written deliveries, forged ones too, with logs that are trimmed
//! and full ones; an observer; and a client that asks one until an answer is new enough.
#![tactic(auto)]

#[cfg(test)]
mod asking;
#[cfg(test)]
mod cores;
#[cfg(test)]
mod failing;
#[cfg(test)]
mod forged;
#[cfg(test)]
mod groups;
#[cfg(test)]
mod hostile;
#[cfg(test)]
mod observers;
#[cfg(test)]
mod rows;
#[cfg(test)]
mod scripts;
#[cfg(test)]
mod trimmed;
