/// The claims of a part.
#[derive(Drop)]
pub(crate) struct Part<'a> {
    pub(crate) name: &'a [u8],
    /// Their places among all claims, in order.
    pub(crate) places: Vec<usize>,
}
