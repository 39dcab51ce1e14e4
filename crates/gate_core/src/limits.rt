//! The most users of a gateway, and the most bytes of one that wait to be read.
/// The most users at a time.
pub const MAX_USERS: usize = 10_000;

/// The most bytes of a user that wait to be read: as many as a request may have.
pub const MAX_WAITING_BYTES: usize = 1_048_576;

// A number that both code and definitions name would be proved whatever it was; so here each stands once more.
const _: () = prove!(MAX_USERS == 10_000 && MAX_WAITING_BYTES == 1_048_576);
