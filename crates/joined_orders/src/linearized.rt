/// What is found of claims.
#[derive(Drop)]
pub enum Linearized {
    /// The places of the claims that submit, in the order of a legal history.
    Order(Vec<usize>),
    /// This part alone has no order, so no history is legal. No order of it was found that passes the claim at this place.
    /// Where there are more parts than a service may have, all claims are one part, and its name is empty.
    Nothing { part: Vec<u8>, claim: usize },
    /// The claim at this place, the first that has no pair, accepts what no earlier one submits, or what an earlier one accepts: no
    /// history is legal.
    Groundless(usize),
    /// The claim at this place, the first that has no pair, submits a client and id that an earlier one submits: nothing is decided.
    Repeated(usize),
}
