//! What a search came to.

/// A request that was placed.
#[derive(Clone, Copy, PartialEq, Eq)]
pub struct Placed {
    /// The place of the claim that submits it.
    pub submit: usize,
    /// The place of the claim before which it was placed.
    pub line: usize,
}

/// What a search came to.
#[derive(Drop)]
pub enum Outcome {
    /// The requests, in the order of a legal history.
    Found(Vec<Placed>),
    /// No history is legal. No order was found that passes the claim at this place.
    Nothing(usize),
}
