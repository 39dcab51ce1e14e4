use nop_types::{LogRef, View};

/// The body of a message with a log, which is borrowed. `next` is the number of the session's next request.
#[derive(Clone, Copy)]
pub enum LogBody<'a> {
    ViewChange {
        last_normal: View,
        next: u64,
        log: LogRef<'a>,
    },
    StartView {
        next: u64,
        log: LogRef<'a>,
    },
    SyncPrepare(LogRef<'a>),
}
