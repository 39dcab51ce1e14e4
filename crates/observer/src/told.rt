use nop_types::{Log, View};

/// A log that a leader told, in its view.
#[derive(Drop)]
pub struct Told {
    pub view: View,
    pub log: Log,
}
