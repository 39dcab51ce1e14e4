ghost use Rattle.std.specs.Prelude.{◌≡◌, ◌≤◌};

use nop_types::NUMBER_END;
use std::marker::Model;

/// The message number of the request that a replica logs next. It is at most `NUMBER_END`.
#[derive(Drop)]
pub struct NextNumber {
    number: u64,
}

impl Model for NextNumber {
    ghost use Rattle.std.specs.Prelude.{ℕ, ◌≤◌};
    ghost use Rattle.nop_types.specs.declared.limits.TheConstants.{NUMBER_END};

    ghost Value = { ℕ };

    ghost view = { λ n. n.number };

    ghost invariant = { λ n. n.number ≤ NUMBER_END };
}

impl NextNumber {
    pub(crate) fn new(number: u64) -> NextNumber
        requires { number ≤ NUMBER_END }
        ensures { result ≡ number }
    {
        NextNumber { number }
    }

    pub fn get(&self) -> u64
        ensures value { result ≡ self.now }
        ensures limit { self.now ≤ NUMBER_END }
    {
        self.number
    }

    pub fn set(&mut self, number: u64)
        requires { number ≤ NUMBER_END }
        ensures { self.new ≡ number }
    {
        self.number = number;
    }
}
