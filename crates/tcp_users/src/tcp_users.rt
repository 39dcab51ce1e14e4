//! The listener, the connections, and what the system says of them.

ghost use Rattle.std.specs.Prelude.{◌≡◌, IfOk, IfSome};
ghost use Rattle.users.specs.Events.{IsShort};
ghost use Rattle.tcp_users.specs.Turns.{Numbers};

use crate::connection::Received;
use crate::connections::{Connections, Turn, USERS_END};
use mio::event::Event;
use mio::net::TcpListener;
use mio::{Events, Interest, Poll, Registry, Token};
use nop_types::{Bytes, NoMemory};
use outside::DeviceError;
use std::alloc::Global;
use std::io;
use std::io::ErrorKind;
use std::net::{Net, SocketAddr};
use std::time::Duration;
use users::{MAX_EVENT_BYTES, UserEvent, Users};

/// The token of the listener.
const LISTENER: Token = Token(USERS_END as usize);

/// The token of other sockets, at which a wait ends too.
pub const OTHERS: Token = Token(USERS_END as usize + 1);

/// How many sockets the system reports at a time.
const MOST_EVENTS: usize = 1024;

/// The connections at a listening socket, as the device `Users`.
#[derive(Drop)]
pub struct TcpUsers {
    alloc: Global,
    poll: Poll,
    events: Events,
    listener: TcpListener,
    connections: Connections,
    // The system gave no connection, and not since none waited: it is asked again.
    is_refused: bool,
    // How many turns may be taken before the system is asked for more.
    left: usize,
    // Room for what is received.
    space: [u8; MAX_EVENT_BYTES],
    faults: u64,
}

/// What a socket is ready for gives turns, and has what waits sent.
fn heed(connections: &mut Connections, event: &Event, space: &mut [u8]) -> Result<(), NoMemory>
    ensures { connections.new.opened ≡ connections.old.opened }
{
    let token = event.token();
    if token == OTHERS {
        return Ok(());
    }
    if token == LISTENER {
        return connections.hear_listener();
    }
    let user = token.0 as u64;
    if event.is_writable() {
        connections.flush(user, space)?;
    }
    connections.hear(user)
}

fn heed_all(
    connections: &mut Connections,
    events: &Events,
    space: &mut [u8],
) -> Result<(), NoMemory>
    ensures { connections.new.opened ≡ connections.old.opened }
{
    for event in events.iter() {
        heed(connections, event, space)?;
    }
    Ok(())
}

impl TcpUsers {
    /// Listens at an address. Nobody is connected.
    pub fn listen<N: Net>(net: &N, alloc: Global, address: SocketAddr) -> io::Result<TcpUsers> {
        let poll = Poll::new(net)?;
        let mut listener = TcpListener::bind(net, address)?;
        poll.registry()
            .register(&mut listener, LISTENER, Interest::READABLE)?;
        Ok(TcpUsers {
            alloc,
            poll,
            events: Events::with_capacity(alloc, MOST_EVENTS)?,
            listener,
            connections: Connections::new(alloc),
            is_refused: false,
            left: 0,
            space: [0; MAX_EVENT_BYTES],
            faults: 0,
        })
    }

    /// The address at which it listens.
    pub fn address(&self) -> io::Result<SocketAddr> {
        self.listener.local_addr()
    }

    /// Where other sockets can be registered under `OTHERS`: what comes there ends a wait for users.
    pub fn registry(&self) -> io::Result<Registry> {
        self.poll.registry().try_clone()
    }

    /// Waits until a socket is ready.
    fn wait(&mut self, patience: u32) -> Result<(), DeviceError>
        ensures opened { self.new.connections.opened ≡ self.old.connections.opened }
        ensures faults { self.new.faults ≡ self.old.faults }
    {
        let time = Duration::from_millis(u64::from(patience));
        if self.poll.poll(&mut self.events, Some(time)).is_err() {
            return Err(DeviceError::Failed);
        }
        heed_all(&mut self.connections, &self.events, &mut self.space)?;
        if self.is_refused {
            self.connections.hear_listener()?;
        }
        self.left = self.connections.turns();
        Ok(())
    }

    /// The next connection that waits.
    fn accept(&mut self) -> Result<Option<UserEvent>, NoMemory>
        ensures short { IfOk result (λ r. IfSome r IsShort) }
        ensures numbers { Numbers self.old.connections.opened self.new.connections.opened result }
        ensures faults { self.new.faults ≡ self.old.faults }
    {
        self.is_refused = false;
        match self.listener.accept() {
            Ok((stream, _)) => {
                self.connections.hear_listener()?;
                let user = self.connections.open(self.poll.registry(), stream)?;
                Ok(user.map(|user| UserEvent::Opened { user }))
            }
            Err(e) => {
                self.is_refused = e.kind() != ErrorKind::WouldBlock;
                Ok(None)
            }
        }
    }

    /// What a user sent, who has a turn then again. Without memory for it the connection ends.
    fn receive(&mut self, user: u64) -> Result<Option<UserEvent>, NoMemory>
        ensures short { IfOk result (λ r. IfSome r IsShort) }
        ensures numbers { Numbers self.old.connections.opened self.new.connections.opened result }
        ensures faults { self.new.faults ≡ self.old.faults }
    {
        match self.connections.receive(user, &mut self.space) {
            Received::Bytes(count) => {
                self.connections.hear(user)?;
                match Bytes::new(self.alloc, &self.space[..count]) {
                    Ok(bytes) => Ok(Some(UserEvent::Sent { user, bytes })),
                    Err(NoMemory) => {
                        self.connections.give_up(user);
                        Err(NoMemory)
                    }
                }
            }
            Received::Nothing => Ok(None),
            Received::End => {
                self.connections.end(user);
                Ok(Some(UserEvent::Left { user }))
            }
        }
    }

    /// What comes of the next turn.
    fn take_turn(&mut self) -> Result<Option<UserEvent>, NoMemory>
        ensures short { IfOk result (λ r. IfSome r IsShort) }
        ensures numbers { Numbers self.old.connections.opened self.new.connections.opened result }
        ensures faults { self.new.faults ≡ self.old.faults }
    {
        self.left = self.left.saturating_sub(1);
        match self.connections.next_turn() {
            Some(Turn::Listener) => self.accept(),
            Some(Turn::User(user)) => self.receive(user),
            None => Ok(None),
        }
    }

    /// Takes turns until there is an event, or all that stand there are taken.
    fn turns(&mut self) -> Result<Option<UserEvent>, NoMemory>
        ensures short { IfOk result (λ r. IfSome r IsShort) }
        ensures numbers { Numbers self.old.connections.opened self.new.connections.opened result }
        ensures faults { self.new.faults ≡ self.old.faults }
    {
        let count = self.connections.turns();
        for _ in 0..count {
            if let Some(event) = self.take_turn()? {
                return Ok(Some(event));
            }
        }
        Ok(None)
    }

    /// The next event. `Failed` where the system could not be asked.
    fn event(&mut self, patience: u32) -> Result<Option<UserEvent>, DeviceError>
        ensures short { IfOk result (λ r. IfSome r IsShort) }
        ensures numbers { Numbers self.old.connections.opened self.new.connections.opened result }
        ensures faults { self.new.faults ≡ self.old.faults }
    {
        if self.left == 0 && self.connections.turns() > 0 {
            self.wait(0)?;
        }
        if let Some(event) = self.turns()? {
            return Ok(Some(event));
        }
        self.wait(patience)?;
        Ok(self.turns()?)
    }
}

impl Users for TcpUsers {
    ghost use Rattle.std.specs.Prelude.{None};

    ghost to_come = { λ _. None };

    ghost trace = { λ _. None };

    ghost fault_count = { λ s. s.faults };

    /// A connection whose bytes are lost at `NoMemory` ends.
    fn next(&mut self, patience: u32) -> Result<Option<UserEvent>, DeviceError> {
        let answer = self.event(patience);
        if let Err(DeviceError::Failed) = answer {
            self.faults = self.faults.saturating_add(1);
        }
        answer
    }

    /// A connection of which more than `MAX_UNSENT_BYTES` bytes would wait ends, and so does one that has taken a part of bytes for whose rest
    /// there is no memory.
    fn reply(&mut self, user: u64, bytes: &[u8]) -> Result<(), NoMemory> {
        self.connections.send(user, bytes)
    }

    fn close(&mut self, user: u64) -> Result<(), NoMemory> {
        self.connections.close(user, &mut self.space);
        Ok(())
    }

    fn faults(&self) -> u64 {
        self.faults
    }
}
