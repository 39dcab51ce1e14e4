ghost use Rattle.std.specs.Prelude.{◌≡◌, ◌≤◌, ◌↔◌, IsSome, IfSome};

use std::marker::Model;

/// The port of replica 0, at most 65000: each actor's port is at most 287 above it.
#[derive(Clone, Copy, PartialEq, Eq)]
pub struct BasePort {
    port: u16,
}

impl Model for BasePort {
    ghost use Rattle.std.specs.Prelude.{ℕ, ◌≤◌};

    ghost Value = { ℕ };

    ghost view = { λ b. b.port };

    ghost invariant = { λ b. b.port ≤ 65000 };

    ghost inverse = { λ n. record { port = n } };
}

impl BasePort {
    /// None exactly above 65000.
    pub fn new(port: u16) -> Option<BasePort>
        ensures some { IsSome result ↔ (port ≤ 65000) }
        ensures value { IfSome result (λ base. base ≡ port) }
    {
        if port <= 65000 {
            Some(BasePort { port })
        } else {
            None
        }
    }

    pub fn get(self) -> u16
        ensures value { result ≡ self }
        ensures limit { result ≤ 65000 }
    {
        self.port
    }
}
