/// The most lines of a text, as those of a transcript.
pub const MAX_TEXT_LINES: u32 = 4_294_967_294;

// A number that both code and contracts name would be proved whatever it was; so here it stands once more.
const _: () = prove!(MAX_TEXT_LINES == 4_294_967_294);
