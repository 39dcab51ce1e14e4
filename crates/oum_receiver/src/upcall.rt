use nop_types::Request;

/// What stands at the next message number: its request, or a drop, where only later requests came.
#[derive(Clone, Copy)]
pub enum Upcall<'a> {
    Message(&'a Request),
    Drop,
}
