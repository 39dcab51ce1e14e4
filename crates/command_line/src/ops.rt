//! Ops in hexadecimal.

ghost use Rattle.std.specs.Prelude.{◌≡◌, IfOk, [], map};
ghost use Rattle.command_line.specs.Commands.{op_of, ops_on, ops_of, texts_in};

use nop_types::{MAX_OP_BYTES, NoMemory, Op};
use std::alloc::Global;
use std::marker::Model;

/// Ops in order, seen as their list.
#[derive(Drop)]
pub struct Ops {
    ops: Vec<Op>,
}

impl Model for Ops {
    ghost use Rattle.std.specs.Prelude.{List, ℕ};

    ghost Value = { List (List ℕ) };

    ghost view = { λ o. o.ops.items };
}

impl Ops {
    /// The ops as a vector, without a copy.
    pub fn into_vec(self) -> Vec<Op>
        ensures { result.items ≡ self }
    {
        self.ops
    }
}

/// An op. None where the text is no hexadecimal, or too long.
fn op(alloc: Global, text: &str) -> Result<Option<Op>, NoMemory>
    ensures { IfOk result (λ op. op ≡ op_of text.now) }
{
    match hex::decode(alloc, text.as_bytes()) {
        Ok(bytes) => {
            if bytes.len() <= MAX_OP_BYTES {
                Ok(Some(Op::from_vec(bytes)))
            } else {
                Ok(None)
            }
        }
        Err(hex::FromHexError::OutOfMemory) => Err(NoMemory),
        Err(_) => Ok(None),
    }
}

fn each_op(alloc: Global, texts: &[&str]) -> Result<Option<Ops>, NoMemory>
    ensures { IfOk result (λ ops. ops ≡ ops_on (Some []) (map (λ t. t.now) texts.now)) }
{
    let mut ops = Vec::new(alloc);
    for text in texts {
        match op(alloc, text)? {
            Some(op) => ops.push(op)?,
            None => return Ok(None),
        }
    }
    Ok(Some(Ops { ops }))
}

/// Each text as an op. None where there are no texts, or one is no op.
pub(crate) fn read_ops(alloc: Global, texts: Option<&[&str]>) -> Result<Option<Ops>, NoMemory>
    ensures { IfOk result (λ ops. ops ≡ ops_of (texts_in texts.entry)) }
{
    match texts {
        Some(texts) => each_op(alloc, texts),
        None => Ok(None),
    }
}
