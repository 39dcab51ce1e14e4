//! The limits of the protocol and of its formats.

/// The most bytes of an op.
pub const MAX_OP_BYTES: usize = 640;

/// The most bytes of a key.
pub const MAX_KEY_BYTES: usize = 64;

/// The most bytes of a value.
pub const MAX_VALUE_BYTES: usize = 256;

/// The most bytes of a result: `=` and a value.
pub const MAX_RESULT_BYTES: usize = 257;

/// The most bytes of a host's saved state.
pub const MAX_HOST_BYTES: usize = 1_400_000;

/// The most clients that a log serves: the first different ones in it.
pub const MAX_SERVED: usize = 256;

/// How far a client's requests may be apart: one is executed where its id plus the window exceeds the greatest id of its client.
pub const WINDOW: u64 = 8;

/// The most entries of a log above its sync point.
pub const MAX_SLOTS: usize = 4096;

/// The most slots of a log.
pub const MAX_LENGTH: u32 = 0xffff_ffff;

/// The epochs of controller j are j modulo this number: a session names its controller, however many there are.
pub const EPOCH_STEP: u64 = 4;

/// Message numbers of a session are below this one.
pub const NUMBER_END: u64 = 0x1_0000_0000_0000;

/// The most stamped requests that wait at a replica.
pub const MAX_QUEUED: usize = 1024;

/// The most fragments of a peer message.
pub const MAX_FRAGMENTS: usize = 4096;

/// The payload of each fragment but the last.
pub const FRAGMENT_BYTES: usize = 1400;

/// The most unfinished peer messages that are kept for a sender.
pub const MAX_UNFINISHED: usize = 4;

/// The most bytes of a datagram.
pub const MAX_DATAGRAM_BYTES: usize = 1500;

/// The most replicas; there is always an odd number of them.
pub const MAX_REPLICAS: u8 = 7;

/// The most sequencers.
pub const MAX_SEQUENCERS: u8 = 4;

/// The most controllers.
pub const MAX_CONTROLLERS: u8 = 4;

/// The most observers.
pub const MAX_OBSERVERS: u8 = 4;

/// The most clients of a schedule.
pub const MAX_CLIENTS: u8 = 16;

/// The most bytes of a line of a schedule, without its end.
pub const MAX_LINE_BYTES: usize = 4096;

/// The most lines of a schedule.
pub const MAX_LINES: u32 = 1_000_000;

// A number that both code and definitions name would be proved whatever it was; so here each stands once more.
const _: () = prove!(
    MAX_OP_BYTES == 640
        && MAX_KEY_BYTES == 64
        && MAX_VALUE_BYTES == 256
        && MAX_RESULT_BYTES == 257
        && MAX_HOST_BYTES == 1_400_000
        && MAX_SERVED == 256
        && WINDOW == 8
        && MAX_SLOTS == 4096
        && MAX_LENGTH == 4_294_967_295
        && EPOCH_STEP == 4
        && NUMBER_END == 281_474_976_710_656
        && MAX_QUEUED == 1024
        && MAX_FRAGMENTS == 4096
        && FRAGMENT_BYTES == 1400
        && MAX_UNFINISHED == 4
        && MAX_DATAGRAM_BYTES == 1500
        && MAX_REPLICAS == 7
        && MAX_SEQUENCERS == 4
        && MAX_CONTROLLERS == 4
        && MAX_OBSERVERS == 4
        && MAX_CLIENTS == 16
        && MAX_LINE_BYTES == 4096
        && MAX_LINES == 1_000_000
);
