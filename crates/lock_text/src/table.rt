//! The table of the lock service.

use lock_host::{ACQUIRE, INSPECT, MAX_NAME_BYTES, RELEASE};
use op_table::{AnswerRow, ByTable, FieldShape, OpRow, OpTable};

/// The ops of the lock service, and its answers that have fields.
pub struct LockTable;

/// The text form of the lock service.
pub type LockText = ByTable<LockTable>;

const NAME: FieldShape = FieldShape::Text(1, MAX_NAME_BYTES as u8);

const OPS: &[OpRow] = &[
    OpRow {
        name: "acquire",
        kind: ACQUIRE,
        fields: &[NAME, NAME],
    },
    OpRow {
        name: "release",
        kind: RELEASE,
        fields: &[NAME, NAME, FieldShape::Number],
    },
    OpRow {
        name: "inspect",
        kind: INSPECT,
        fields: &[NAME],
    },
];

const ANSWERS: &[AnswerRow] = &[
    AnswerRow {
        name: "granted",
        fields: &[FieldShape::Number],
    },
    AnswerRow {
        name: "held",
        fields: &[FieldShape::Number, FieldShape::Rest],
    },
];

impl OpTable for LockTable {
    ghost use Rattle.std.proofs.Common.{refl};
    ghost use Rattle.lock_text.specs.Text.{lock_answers, lock_ops};

    ghost op_shapes = { lock_ops };

    ghost answer_shapes = { lock_answers };

    ghost have_own_names = { refl };

    fn ops() -> &'static [OpRow] {
        OPS
    }

    fn answers() -> &'static [AnswerRow] {
        ANSWERS
    }
}
