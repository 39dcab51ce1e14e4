use crate::Address;
use std::alloc::Global;

/// A node: its core, where it is, whether it writes a trace, its devices, and how many datagrams could not be sent, up to the greatest
/// number of 64 bits.
#[derive(Drop)]
pub(crate) struct Node<'c, 'l, 'w, C, L, W> {
    pub(crate) alloc: Global,
    pub(crate) core: &'c mut C,
    pub(crate) at: Address,
    pub(crate) trace: bool,
    pub(crate) link: &'l mut L,
    pub(crate) sink: &'w mut W,
    pub(crate) lost: u64,
}
