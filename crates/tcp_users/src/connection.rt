//! A connection: what it sends and receives.

ghost use Rattle.std.specs.Prelude.{◌≤◌, length, IfOk};
ghost use Rattle.tcp_users.specs.Receiving.{ReceivesWithin};

use crate::unsent::{KeepError, Unsent};
use mio::net::TcpStream;
use mio::{Interest, Registry, Token};
use nop_types::NoMemory;
use std::alloc::Global;
use std::io;
use std::io::{ErrorKind, Read, Write};

/// How often a socket is asked at most in a call.
const MOST_CALLS: usize = 64;

/// The connection failed.
#[derive(Clone, Copy, PartialEq, Eq)]
struct Failed;

/// What a connection received.
#[derive(Clone, Copy, PartialEq, Eq)]
pub(crate) enum Received {
    /// So many bytes.
    Bytes(usize),
    /// Nothing that is there yet, or that is wanted.
    Nothing,
    /// The user left, or the connection failed.
    End,
}

/// A connection, and the bytes that it has not taken yet.
#[derive(Drop)]
pub(crate) struct Connection {
    stream: TcpStream,
    unsent: Unsent,
    // The user is not heard any more, and the connection ends once all is sent.
    is_closing: bool,
    // It failed, or too many bytes wait.
    is_broken: bool,
    /// Whether it stands among those that have a turn.
    pub(crate) is_due: bool,
}

/// Writes as many bytes as the socket takes now, and says how many.
fn write(mut stream: &TcpStream, bytes: &[u8]) -> Result<usize, Failed>
    ensures { IfOk result (λ sent. sent ≤ length bytes.now) }
{
    let mut sent = 0;
    for _ in 0..MOST_CALLS {
        if sent == bytes.len() {
            break;
        }
        match stream.write(&bytes[sent..]) {
            Ok(count) => sent += count,
            Err(e) => match e.kind() {
                ErrorKind::WouldBlock => break,
                ErrorKind::Interrupted => {}
                _ => return Err(Failed),
            },
        }
    }
    Ok(sent)
}

/// Reads what is there, as far as it fits.
fn read(mut stream: &TcpStream, space: &mut [u8]) -> Received
    ensures { ReceivesWithin result (length space.new) }
{
    for _ in 0..MOST_CALLS {
        match stream.read(space) {
            Ok(0) => return Received::End,
            Ok(count) => return Received::Bytes(count),
            Err(e) => match e.kind() {
                ErrorKind::WouldBlock => return Received::Nothing,
                ErrorKind::Interrupted => {}
                _ => return Received::End,
            },
        }
    }
    Received::Nothing
}

impl Connection {
    /// An open connection without a turn.
    pub(crate) fn new(alloc: Global, stream: TcpStream) -> Connection {
        Connection {
            stream,
            unsent: Unsent::new(alloc),
            is_closing: false,
            is_broken: false,
            is_due: false,
        }
    }

    /// Has the connection reported under a token, and small replies sent at once.
    pub(crate) fn register(&mut self, registry: &Registry, token: Token) -> io::Result<()> {
        let _delayed = self.stream.set_nodelay(true);
        let interests = Interest::READABLE | Interest::WRITABLE;
        registry.register(&mut self.stream, token, interests)
    }

    /// Lets bytes wait. A connection for which too many would wait is broken.
    fn keep(&mut self, bytes: &[u8]) -> Result<(), NoMemory> {
        match self.unsent.keep(bytes) {
            Ok(()) => Ok(()),
            Err(KeepError::Full) => {
                self.is_broken = true;
                Ok(())
            }
            Err(KeepError::NoMemory) => {
                self.is_broken = true;
                Err(NoMemory)
            }
        }
    }

    /// Sends bytes behind those that wait; what the socket does not take now waits too.
    pub(crate) fn send(&mut self, bytes: &[u8]) -> Result<(), NoMemory> {
        if self.is_closing || self.is_broken {
            return Ok(());
        }
        if !self.unsent.is_empty() {
            return self.keep(bytes);
        }
        match write(&self.stream, bytes) {
            Ok(sent) if sent == bytes.len() => Ok(()),
            Ok(sent) => self.keep(&bytes[sent..]),
            Err(Failed) => {
                self.is_broken = true;
                Ok(())
            }
        }
    }

    /// Sends what waits, as far as the socket takes it now.
    pub(crate) fn flush(&mut self) {
        match write(&self.stream, self.unsent.as_slice()) {
            Ok(sent) => self.unsent.advance(sent),
            Err(Failed) => self.is_broken = true,
        }
    }

    /// Receives what is there and fits. A user whose connection is closing is not heard.
    pub(crate) fn receive(&mut self, space: &mut [u8]) -> Received
        ensures { ReceivesWithin result (length space.new) }
    {
        if self.is_closing {
            return Received::Nothing;
        }
        if self.is_broken {
            return Received::End;
        }
        read(&self.stream, space)
    }

    pub(crate) fn give_up(&mut self) {
        self.is_broken = true;
    }

    pub(crate) fn is_broken(&self) -> bool {
        self.is_broken
    }

    /// From now on the user is not heard, and the connection ends once all is sent.
    pub(crate) fn close(&mut self) {
        self.is_closing = true;
    }

    /// Whether a connection that is closing has nothing left to send, or cannot.
    pub(crate) fn is_over(&self) -> bool {
        self.is_closing && (self.is_broken || self.unsent.is_empty())
    }

    /// Takes what came and nobody reads, so that the end of the connection does not overtake the last replies.
    pub(crate) fn empty(&self, space: &mut [u8]) {
        for _ in 0..MOST_CALLS {
            match read(&self.stream, space) {
                Received::Bytes(_) => {}
                Received::Nothing | Received::End => break,
            }
        }
    }
}
