//! What undoes an op of the lock service: nothing, a new place, or what stood at a place.
use crate::lock::Lock;

/// What takes an op back.
#[derive(Drop)]
pub enum LockUndo {
    /// The op changed nothing.
    Nothing,
    /// The last place goes, and the last token is the one before it.
    Last,
    /// At this place stands what stood there, and the last token is this one.
    Back(usize, Option<Lock>, u64),
}
