//! Tests alone, by the public calls of `gate_core`, `gate`, `observer` and `watching`: requests of
//! users, and their replies; the loop over devices in memory, with each fault of these; reads of an
//! observer that receives datagrams; and what a watch writes of messages in the bytes of the formats.
#![tactic(auto)]

#[cfg(test)]
mod loops;
#[cfg(test)]
mod near;
#[cfg(test)]
mod scripts;
#[cfg(test)]
mod stories;
#[cfg(test)]
mod watched;
