ghost use Rattle.std.specs.Prelude.{◌≡◌, ◌↔◌, ◌<◌, ◌≤◌, IsTrue, IsSome, IfSome};
ghost use Rattle.nop_types.specs.Configuration.{Configuration, is_configuration};

use crate::{MAX_CLIENTS, MAX_CONTROLLERS, MAX_OBSERVERS, MAX_REPLICAS, MAX_SEQUENCERS};
use std::marker::Model;

/// How many actors there are: 1, 3, 5 or 7 replicas, 1 to 4 sequencers, 1 to 16 clients, 1 to 4 controllers
/// and 0 to 4 observers.
#[derive(Clone, Copy, Debug, PartialEq, Eq)]
pub struct Config {
    replicas: u8,
    sequencers: u8,
    clients: u8,
    controllers: u8,
    observers: u8,
}

impl Model for Config {
    ghost use Rattle.std.specs.Prelude.{IsTrue};
    ghost use Rattle.nop_types.specs.Configuration.{Configuration, is_configuration};

    ghost Value = { Configuration };

    ghost view = { λ c.
        record {
          replicas = c.replicas;
          sequencers = c.sequencers;
          clients = c.clients;
          controllers = c.controllers;
          observers = c.observers;
        } };

    ghost invariant = { λ c. IsTrue (is_configuration (record {
      replicas = c.replicas;
      sequencers = c.sequencers;
      clients = c.clients;
      controllers = c.controllers;
      observers = c.observers;
    })) };

    ghost inverse = { λ d.
        record {
          replicas = d.replicas;
          sequencers = d.sequencers;
          clients = d.clients;
          controllers = d.controllers;
          observers = d.observers;
        } };
}

impl Config {
    /// None exactly outside the limits.
    pub fn new(
        replicas: u8,
        sequencers: u8,
        clients: u8,
        controllers: u8,
        observers: u8,
    ) -> Option<Config>
        ensures some { IsSome result
            ↔ IsTrue (is_configuration (record {
              replicas = replicas;
              sequencers = sequencers;
              clients = clients;
              controllers = controllers;
              observers = observers;
            })) }
        ensures value { IfSome result (λ c. c ≡ record {
          replicas = replicas;
          sequencers = sequencers;
          clients = clients;
          controllers = controllers;
          observers = observers;
        }) }
    {
        if replicas % 2 == 0 || replicas > MAX_REPLICAS {
            return None;
        }
        if sequencers == 0 || sequencers > MAX_SEQUENCERS {
            return None;
        }
        if clients == 0 || clients > MAX_CLIENTS {
            return None;
        }
        if controllers == 0 || controllers > MAX_CONTROLLERS {
            return None;
        }
        if observers > MAX_OBSERVERS {
            return None;
        }
        Some(Config {
            replicas,
            sequencers,
            clients,
            controllers,
            observers,
        })
    }

    /// n = 2f + 1.
    pub fn replicas(self) -> u8
        ensures count { result ≡ self.replicas }
        ensures limits { IsTrue (is_configuration self) }
    {
        self.replicas
    }

    pub fn sequencers(self) -> u8
        ensures { result ≡ self.sequencers }
    {
        self.sequencers
    }

    pub fn clients(self) -> u8
        ensures { result ≡ self.clients }
    {
        self.clients
    }

    pub fn controllers(self) -> u8
        ensures count { result ≡ self.controllers }
        ensures limits { IsTrue (is_configuration self) }
    {
        self.controllers
    }

    pub fn observers(self) -> u8
        ensures count { result ≡ self.observers }
        ensures limits { IsTrue (is_configuration self) }
    {
        self.observers
    }
}
