//! Tests alone, by the public calls of the crates below: the parts by which a replica comes to its
//! log (`receiving`, `votes`, `logs`, `changes`), how it executes that, whole or from a checkpoint
//! on (`execution`), what it keeps for each client (`tables`), and the services: the key-value
//! service (`kv`, `kv_saved`) and the lock service (`lock`), what they answer, undo and save.
//! Answers and saved bytes are written out by hand.
#![tactic(auto)]

#[cfg(test)]
mod changes;
#[cfg(test)]
mod checking;
#[cfg(test)]
mod execution;
#[cfg(test)]
mod kv;
#[cfg(test)]
mod kv_saved;
#[cfg(test)]
mod lock;
#[cfg(test)]
mod logs;
#[cfg(test)]
mod receiving;
#[cfg(test)]
mod requests;
#[cfg(test)]
mod tables;
#[cfg(test)]
mod votes;
