//! Tests alone, by the public calls of the crates below: shared types, datagrams and peer messages,
//! fragments, requests and replies of RESP (as the documents of Redis have them), lines of schedules
//! and transcripts. Expected bytes and texts are written out by hand.
//! What a run of a program shows stands in examples/ and checks/.
#![tactic(auto)]

#[cfg(test)]
mod datagrams;
#[cfg(test)]
mod joining;
#[cfg(test)]
mod peers;
#[cfg(test)]
mod replies;
#[cfg(test)]
mod requests;
#[cfg(test)]
mod rows;
#[cfg(test)]
mod texts;
#[cfg(test)]
mod unseen;
#[cfg(test)]
mod values;
