use crate::{Key, Op};

/// A timeout, or an order from outside.
#[derive(Clone, Copy, Debug, PartialEq, Eq)]
pub enum Tick {
    Suspect,
    Watch,
    Resend,
    Sync,
    Retry,
    Next,
    Probe,
    Install(u8),
}

/// What a core takes in one step; a read is of the observer with this number.
#[derive(Clone, Copy)]
pub enum Input<'a> {
    Packet(&'a [u8]),
    Tick(Tick),
    Submit(&'a Op),
    Read(u8, &'a Key),
}
