use nop_types::Key;

/// A read that waits for its answer: its id, and the observer that was asked for the key.
#[derive(Drop)]
pub struct Reading {
    pub id: u64,
    pub observer: u8,
    pub key: Key,
}

/// A client's number, the last id of its reads, and the read that waits, if one does.
#[derive(Drop)]
pub struct Reads {
    pub number: u32,
    pub last_id: u64,
    pub pending: Option<Reading>,
}
