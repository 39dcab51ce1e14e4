use crate::{OpenList, Recent, Waiting};
use nop_types::Config;

/// A client's number, its last id, the open requests with the replies kept for them, the acceptances of its last ids, and the
/// ops that wait.
#[derive(Drop)]
pub struct ClientState {
    pub config: Config,
    pub number: u32,
    pub last_id: u64,
    pub open_: OpenList,
    pub recent: Recent,
    pub waiting: Waiting,
}
