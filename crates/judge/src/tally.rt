/// What a legal transcript has: lines that submit, lines that accept, and members of its history.
#[derive(Clone, Copy, PartialEq, Eq)]
pub struct Tally {
    pub submits: u32,
    pub accepts: u32,
    pub history: u32,
}
