/// The most bytes of an event.
pub const MAX_EVENT_BYTES: usize = 16_384;

// A number that both code and definitions name would be proved whatever it was; so here it stands once more.
const _: () = prove!(MAX_EVENT_BYTES == 16_384);
