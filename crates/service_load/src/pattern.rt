//! The ops of a load, submitted again and again in their order.
ghost use Rattle.std.specs.Prelude.{◌≡◌, ◌≢◌, [], IfOk, IfSome, None};
ghost use Rattle.service_load.specs.Loads.{op_at};

use nop_types::{NoMemory, Op};
use std::marker::Model;

/// The ops of a load, at least one, which are submitted again and again in this order.
#[derive(Drop)]
pub struct Pattern {
    ops: Vec<Op>,
}

impl Model for Pattern {
    ghost use Rattle.std.specs.Prelude.{List, ℕ, ◌≤◌, length};

    ghost Value = { List (List ℕ) };

    ghost view = { λ p. p.ops.items };

    ghost invariant = { λ p. 1 ≤ length p.ops.items };
}

impl Pattern {
    /// None exactly where there is no op.
    pub fn new(ops: Vec<Op>) -> Option<Pattern>
        ensures some { IfSome result (λ p. p ≡ ops.items) }
        ensures none { result ≡ None → ops.items ≡ [] }
    {
        if ops.is_empty() {
            None
        } else {
            Some(Pattern { ops })
        }
    }

    /// The op at this place.
    pub(crate) fn op_at(&self, place: u64) -> Result<Op, NoMemory>
        ensures { IfOk result (λ op. op ≡ op_at self.now place) }
    {
        let at = place % self.ops.len() as u64;
        match self.ops.get(at as usize) {
            Some(op) => op.try_clone(),
            None => Op::new(*self.ops.allocator(), &[]),
        }
    }
}
