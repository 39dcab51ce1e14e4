use transcript_reader::Claim;

/// What is found of the claims of a transcript. Lines are counted from 1.
#[derive(Drop)]
pub enum Answer {
    /// The claims, and the places of those that submit, in the order of a legal history.
    Order {
        claims: Vec<Claim>,
        places: Vec<usize>,
    },
    /// This part alone has no order, and no order of it was found past this line.
    NoOrder {
        part: Vec<u8>,
        line: u32,
    },
    /// The client and id of this line are submitted by an earlier one.
    Repeated(u32),
    /// So many steps do not decide it.
    Unknown(u64),
}
