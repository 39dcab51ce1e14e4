use transcript_reader::Taken;

/// What was read of a transcript in which results may be unnoted.
#[derive(Drop)]
pub struct Unnoted {
    pub taken: Taken,
    /// For each claim whether it accepts a result that nobody noted.
    pub marks: Vec<bool>,
}
