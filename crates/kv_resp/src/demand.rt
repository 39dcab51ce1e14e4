use nop_types::{Key, Op};
use resp::Reply;

/// How the result of an op is replied.
#[derive(Clone, Copy, PartialEq, Eq)]
pub enum Form {
    /// The value, or that there is none.
    Value,
    /// That it is done.
    Stored,
    /// 1 where there is a value, else 0.
    Presence,
    /// 1 where the value was swapped, else 0.
    Swapped,
}

/// What a request asks for.
#[derive(Drop)]
pub enum Demand<'a> {
    /// The service's result of an op, in this form.
    Execute(Op, Form),
    /// An observer's result for a key, in the form of a value.
    ReadAt(Key),
    /// What is known of the cluster.
    Info,
    /// A reply, and nothing of the service.
    Answer(Reply<'a>),
    /// A reply, and that the connection ends.
    End(Reply<'a>),
}
