//! The rows of a table.

ghost use Rattle.std.specs.Prelude.{◌≡◌, List, map, true};
ghost use Rattle.op_table.specs.Shapes.{AnswerShape, OpShape, answer_shape, are_apart, op_shape};

/// A field of an op or of an answer; numbers and texts as `saved_fields` has them.
#[derive(Clone, Copy)]
pub enum FieldShape {
    /// A number, as a word in decimal.
    Number,
    /// A text of at least so many bytes, and of at most so many.
    Text(u8, u8),
    /// All bytes that follow, as they are.
    Rest,
}

/// An op: in words its name and its fields; in bytes its kind and its fields.
#[derive(Clone, Copy)]
pub struct OpRow {
    pub name: &'static str,
    pub kind: u8,
    pub fields: &'static [FieldShape],
}

/// An answer of these first bytes, if any, and fields.
#[derive(Clone, Copy)]
pub struct AnswerRow {
    pub name: &'static str,
    pub fields: &'static [FieldShape],
}

/// The ops of a service and its answers, as rows.
pub trait OpTable {
    ghost op_shapes: { List OpShape };

    ghost answer_shapes: { List AnswerShape };

    fn ops() -> &'static [OpRow]
        ensures { map op_shape result.now ≡ op_shapes };

    fn answers() -> &'static [AnswerRow]
        ensures { map answer_shape result.now ≡ answer_shapes };

    /// No two ops have one name.
    ghost have_own_names: { are_apart op_shapes ≡ true };
}
