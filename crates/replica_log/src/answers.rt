use nop_types::Request;

/// What a leader answers to a replica that asks for a slot: that it is synchronised; the request there; that a gap agreement was
/// begun there before; that one is to begin there; or nothing.
#[derive(Clone, Copy)]
pub enum Answer<'a> {
    Below,
    Found(&'a Request),
    GapAgain,
    Begin,
    Nothing,
}
