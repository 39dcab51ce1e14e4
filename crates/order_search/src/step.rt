//! A step of a search that can be taken back.

/// One step of a search: a request was placed.
#[derive(Drop)]
pub(crate) struct Step<U> {
    /// The place of the claim that submits it.
    pub(crate) submit: usize,
    /// The place of the claim before which it was placed.
    pub(crate) line: usize,
    /// Its place among those that waited.
    pub(crate) at: usize,
    /// How many others waited.
    pub(crate) others: usize,
    /// Where it leads to no legal history, none of the first so many that waited does.
    pub(crate) tried: usize,
    pub(crate) undo: U,
}
