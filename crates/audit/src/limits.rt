/// The most lines of a trace.
pub const MAX_TRACE_LINES: u32 = 4_000_000;

/// The most steps of a trace: with the first line they are as many lines as a schedule may have.
pub const MAX_STEPS: u32 = 999_999;

// Numbers that both code and contracts name would be proved whatever they were; so here they stand once more.
const _: () = prove!(MAX_TRACE_LINES == 4_000_000);

const _: () = prove!(MAX_STEPS == 999_999);
