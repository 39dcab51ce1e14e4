//! How much is kept.

/// The most connections at a time. One more is ended as soon as it comes.
pub const MAX_CONNECTIONS: usize = 10_240;

const _: () = prove!(MAX_CONNECTIONS == 10_240);

/// The most bytes that wait until a connection takes them.
pub const MAX_UNSENT_BYTES: usize = 1_048_576;

const _: () = prove!(MAX_UNSENT_BYTES == 1_048_576);
