use client_table::Kept;

/// What undoes an executed request: the op at the host, and the result in the table.
#[derive(Drop)]
pub struct SlotUndo<U> {
    pub undo: U,
    pub kept: Kept,
}
