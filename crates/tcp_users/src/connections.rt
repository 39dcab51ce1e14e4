//! The connections by the numbers of their users, and whose turn it is.

ghost use Rattle.std.specs.Prelude.{◌≡◌, ◌++◌, [], length, option_to_list};
ghost use Rattle.tcp_users.specs.Receiving.{ReceivesWithin};
ghost use Rattle.tcp_users.specs.Turns.{AddsTurn, GivesNumber};
ghost use Rattle.tcp_users.specs.declared.connections.Turn.TheVariants as turns;

use crate::connection::{Connection, Received};
use crate::limits::MAX_CONNECTIONS;
use mio::net::TcpStream;
use mio::{Registry, Token};
use nop_types::NoMemory;
use std::alloc::Global;
use std::collections::{HashMap, VecDeque};

/// The first number that no user has. The numbers from here on are for other tokens.
pub(crate) const USERS_END: u64 = 18_446_744_073_709_551_000;

/// Who has a turn: the listener, at which a connection may wait, or a user who may have sent something.
#[derive(Clone, Copy, PartialEq, Eq)]
pub(crate) enum Turn {
    Listener,
    User(u64),
}

/// Open connections, and the turns that are to come. A user has one turn at most among them, and so has the listener.
#[derive(Drop)]
pub(crate) struct Connections {
    alloc: Global,
    table: HashMap<u64, Connection>,
    // How many users there were: the number of the next one.
    opened: u64,
    turns: VecDeque<Turn>,
    is_listener_due: bool,
}

impl Connections {
    /// Nobody is connected.
    pub(crate) fn new(alloc: Global) -> Connections
        ensures turns { result.turns.items ≡ [] }
        ensures opened { result.opened ≡ 0 }
    {
        Connections {
            alloc,
            table: HashMap::new(alloc),
            opened: 0,
            turns: VecDeque::new(alloc),
            is_listener_due: false,
        }
    }

    /// How many turns are to come.
    pub(crate) fn turns(&self) -> usize {
        self.turns.len()
    }

    /// Who has the next turn: the one who has it for longest.
    pub(crate) fn next_turn(&mut self) -> Option<Turn>
        ensures turns { self.old.turns.items ≡ option_to_list result ++ self.new.turns.items }
        ensures opened { self.new.opened ≡ self.old.opened }
    {
        let turn = self.turns.pop_front()?;
        match turn {
            Turn::Listener => self.is_listener_due = false,
            Turn::User(user) => {
                if let Some(connection) = self.table.get_mut(&user) {
                    connection.is_due = false;
                }
            }
        }
        Some(turn)
    }

    /// The listener has a turn, after all who have one.
    pub(crate) fn hear_listener(&mut self) -> Result<(), NoMemory>
        ensures turns { AddsTurn turns.Listener self.old.turns.items self.new.turns.items }
        ensures opened { self.new.opened ≡ self.old.opened }
    {
        if !self.is_listener_due {
            self.turns.push_back(Turn::Listener)?;
            self.is_listener_due = true;
        }
        Ok(())
    }

    /// A user has a turn, after all who have one.
    pub(crate) fn hear(&mut self, user: u64) -> Result<(), NoMemory>
        ensures turns { AddsTurn (turns.User user) self.old.turns.items self.new.turns.items }
        ensures opened { self.new.opened ≡ self.old.opened }
    {
        let Some(connection) = self.table.get_mut(&user) else {
            return Ok(());
        };
        if !connection.is_due {
            self.turns.push_back(Turn::User(user))?;
            connection.is_due = true;
        }
        Ok(())
    }

    /// Keeps a new connection, under a number that none had before. None where there are too many, or the system does not watch it: it ends
    /// then.
    pub(crate) fn open(
        &mut self,
        registry: &Registry,
        stream: TcpStream,
    ) -> Result<Option<u64>, NoMemory>
        ensures { GivesNumber self.old.opened self.new.opened result }
    {
        let user = self.opened;
        if self.table.len() >= MAX_CONNECTIONS || user >= USERS_END {
            return Ok(None);
        }
        let mut connection = Connection::new(self.alloc, stream);
        if connection.register(registry, Token(user as usize)).is_err() {
            return Ok(None);
        }
        self.table.insert(user, connection)?;
        self.opened += 1;
        Ok(Some(user))
    }

    /// What a user sent, as far as it fits into the space.
    pub(crate) fn receive(&mut self, user: u64, space: &mut [u8]) -> Received
        ensures within { ReceivesWithin result (length space.new) }
        ensures opened { self.new.opened ≡ self.old.opened }
    {
        match self.table.get_mut(&user) {
            Some(connection) => connection.receive(space),
            None => Received::Nothing,
        }
    }

    /// Sends bytes to a user.
    pub(crate) fn send(&mut self, user: u64, bytes: &[u8]) -> Result<(), NoMemory>
        ensures { self.new.opened ≡ self.old.opened }
    {
        let Some(connection) = self.table.get_mut(&user) else {
            return Ok(());
        };
        connection.send(bytes)?;
        if connection.is_broken() {
            return self.hear(user);
        }
        Ok(())
    }

    /// Sends what waits for a user, whose socket takes bytes again.
    pub(crate) fn flush(&mut self, user: u64, space: &mut [u8]) -> Result<(), NoMemory>
        ensures { self.new.opened ≡ self.old.opened }
    {
        let Some(connection) = self.table.get_mut(&user) else {
            return Ok(());
        };
        connection.flush();
        if connection.is_broken() {
            self.hear(user)?;
        }
        self.end_if_over(user, space);
        Ok(())
    }

    /// The connection of a user ends as one that failed does: at its next turn.
    pub(crate) fn give_up(&mut self, user: u64)
        ensures { self.new.opened ≡ self.old.opened }
    {
        if let Some(connection) = self.table.get_mut(&user) {
            connection.give_up();
        }
    }

    /// Ends the connection of a user once all is sent.
    pub(crate) fn close(&mut self, user: u64, space: &mut [u8])
        ensures { self.new.opened ≡ self.old.opened }
    {
        if let Some(connection) = self.table.get_mut(&user) {
            connection.close();
        }
        self.end_if_over(user, space);
    }

    fn end_if_over(&mut self, user: u64, space: &mut [u8])
        ensures { self.new.opened ≡ self.old.opened }
    {
        let Some(connection) = self.table.get(&user) else {
            return;
        };
        if connection.is_over() {
            connection.empty(space);
            self.end(user);
        }
    }

    /// Ends the connection of a user.
    pub(crate) fn end(&mut self, user: u64)
        ensures { self.new.opened ≡ self.old.opened }
    {
        let _ended = self.table.remove(&user);
    }
}
