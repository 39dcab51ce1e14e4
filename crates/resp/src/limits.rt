//! How long a request may be.

/// The most arguments of a request, the name of its command among them.
pub const MAX_ARGUMENTS: usize = 32;

/// The most bytes of an argument.
pub const MAX_ARGUMENT_BYTES: usize = 32_000;

/// No request has more bytes than this.
pub const MAX_REQUEST_BYTES: usize = 1_048_576;

// A number that both code and definitions name would be proved whatever it was; so here each stands once more.
const _: () = prove!(
    MAX_ARGUMENTS == 32 && MAX_ARGUMENT_BYTES == 32_000 && MAX_REQUEST_BYTES == 1_048_576
);
