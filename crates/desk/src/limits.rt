/// The most ops that wait for a core.
pub const MAX_WAITING: usize = 10_000;

// Code and definitions both name it; here is its number once more.
const _: () = prove!(MAX_WAITING == 10_000);
