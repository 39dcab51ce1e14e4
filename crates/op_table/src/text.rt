//! The text form by a table.

use crate::from_words::op_in;
use crate::table::OpTable;
use crate::to_words::{result_in, words_in};
use nop_types::{Bytes, NoMemory, Op};
use op_text::{OpText, Words};
use std::alloc::Global;

/// The text form of a service by its table.
pub struct ByTable<T> {
    _table: T,
}

impl<T: OpTable> OpText for ByTable<T> {
    ghost use Rattle.op_table.specs.Shapes.{op_of, result_words, words_of};
    ghost use Rattle.op_table.specs.Laws.{reads_back};

    ghost op_of = { op_of T.op_shapes };

    ghost words_of = { words_of T.op_shapes };

    ghost result_words = { result_words T.answer_shapes };

    ghost reads_back = { reads_back T.op_shapes T.have_own_names };

    fn op(alloc: Global, words: &[Bytes]) -> Result<Option<Op>, NoMemory> {
        op_in(alloc, T::ops(), words)
    }

    fn words(alloc: Global, op: &[u8]) -> Result<Option<Words>, NoMemory> {
        words_in(alloc, T::ops(), op)
    }

    fn result(alloc: Global, answer: &[u8]) -> Result<Words, NoMemory> {
        result_in(alloc, T::answers(), answer)
    }
}
