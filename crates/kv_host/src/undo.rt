use crate::key::KvKey;
use crate::value::KvValue;

/// What undoes an op that changed a key: the key, and the value that it had before, None where it had none.
#[derive(Drop)]
pub struct KvUndo {
    pub(crate) key: KvKey,
    pub(crate) value: Option<KvValue>,
}
