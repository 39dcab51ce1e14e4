//! When the requests of a core are sent again.

/// How many requests of a core are open, and when they are sent again.
#[derive(Clone, Copy)]
pub(crate) struct Resends {
    pub(crate) open_: u64,
    pub(crate) due: u64,
}
