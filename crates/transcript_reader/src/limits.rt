/// The most lines of a transcript.
pub const MAX_TRANSCRIPT_LINES: u32 = 4_294_967_294;

// A number that both code and contracts name would be proved whatever it was; so here it stands once more.
const _: () = prove!(MAX_TRANSCRIPT_LINES == 4_294_967_294);
