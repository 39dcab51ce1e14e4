//! Tables by number.

ghost use Rattle.std.specs.Prelude.{◌≡◌, IfNone, IfOk, OnOk, OnErr};
ghost use Rattle.std.specs.FinMap as finite;
ghost use Rattle.gate_core.specs.Gates.{key_of, key_to_ask};
ghost use Rattle.gate_core.specs.Next.{IsNext, IsNextOf};

use crate::session::{InFlight, Session};
use nop_types::{Key, NoMemory};
use resp::{Parsed, parse};
use std::alloc::Global;
use std::collections::BTreeMap;
use std::marker::Model;

/// The users that are connected, by number.
#[derive(Drop)]
pub struct Sessions {
    sessions: BTreeMap<u64, Session>,
}

impl Model for Sessions {
    ghost use Rattle.gate_core.specs.Tables.{SessionMap, session_code, map_of};

    ghost Value = { SessionMap };

    ghost coded = { session_code };

    ghost view = { λ t. map_of t.sessions.entries };
}

impl Sessions {
    pub(crate) fn new(alloc: Global) -> Sessions
        ensures { result ≡ finite.empty }
    {
        Sessions {
            sessions: BTreeMap::new(alloc),
        }
    }

    #[tactic(auto, using(crate::proofs::Entries::len_is))]
    pub fn len(&self) -> usize
        ensures { result ≡ finite.len self.now }
    {
        self.sessions.len()
    }

    /// The next request of a user, where it is connected and none of it is in flight.
    #[tactic(auto, using(crate::proofs::Entries::get_is))]
    pub(crate) fn next_request(&self, alloc: Global, user: u64) -> Result<Option<Parsed>, NoMemory>
        ensures { IfOk result (λ next. IsNext (finite.get self.now user) next) }
    {
        match self.sessions.get(&user) {
            Some(session) => next_of(alloc, session),
            None => Ok(None),
        }
    }

    /// The key of a user's read that no core has under way.
    #[tactic(auto, using(crate::proofs::Entries::get_is))]
    pub(crate) fn key_to_ask(&self, user: u64) -> Result<Option<Key>, NoMemory>
        ensures { IfOk result (λ key. key ≡ key_to_ask (finite.get self.now user)) }
    {
        match self.sessions.get(&user) {
            Some(session) => key_of(&session.asked),
            None => Ok(None),
        }
    }

    #[tactic(auto, using(crate::proofs::Entries::insert_is))]
    pub(crate) fn put(&mut self, user: u64, session: Session) -> Result<(), NoMemory>
        ensures ok { OnOk result (self.new ≡ finite.insert self.old user session) }
        ensures err { OnErr result (self.new ≡ self.old) }
    {
        self.sessions.insert(user, session)?;
        Ok(())
    }

    #[tactic(auto, using(crate::proofs::Entries::get_is, crate::proofs::Entries::remove_is, crate::proofs::Entries::gone_none))]
    pub(crate) fn take(&mut self, user: u64) -> Option<Session>
        ensures found { result ≡ finite.get self.old user }
        ensures after { self.new ≡ finite.remove self.old user }
        ensures absent { IfNone result (self.new ≡ self.old) }
    {
        self.sessions.remove(&user)
    }
}

/// The key of a read that no core has under way.
fn key_of(asked: &Option<InFlight>) -> Result<Option<Key>, NoMemory>
    ensures { IfOk result (λ key. key ≡ key_of asked.now) }
{
    match asked {
        Some(InFlight::Read(reading)) if reading.under_way.is_none() => {
            Ok(Some(reading.key.try_clone()?))
        }
        _ => Ok(None),
    }
}

/// The next request of a session without one in flight.
fn next_of(alloc: Global, session: &Session) -> Result<Option<Parsed>, NoMemory>
    ensures { IfOk result (λ next. IsNextOf session.now.asked session.now.waiting next) }
{
    if session.asked.is_some() {
        return Ok(None);
    }
    match parse(alloc, session.waiting.as_slice()) {
        Ok(parsed) => Ok(Some(parsed)),
        Err(e) => Err(e),
    }
}

/// Whose the tickets are that are not answered yet: of a user, or of the gateway itself.
#[derive(Drop)]
pub struct Owners {
    owners: BTreeMap<u64, Option<u64>>,
}

impl Model for Owners {
    ghost use Rattle.gate_core.specs.Tables.{OwnerMap, owner_code, map_of};

    ghost Value = { OwnerMap };

    ghost coded = { owner_code };

    ghost view = { λ t. map_of t.owners.entries };
}

impl Owners {
    pub(crate) fn new(alloc: Global) -> Owners
        ensures { result ≡ finite.empty }
    {
        Owners {
            owners: BTreeMap::new(alloc),
        }
    }

    #[tactic(auto, using(crate::proofs::Entries::len_is))]
    pub fn len(&self) -> usize
        ensures { result ≡ finite.len self.now }
    {
        self.owners.len()
    }

    #[tactic(auto, using(crate::proofs::Entries::insert_is))]
    pub(crate) fn put(&mut self, ticket: u64, owner: Option<u64>) -> Result<(), NoMemory>
        ensures ok { OnOk result (self.new ≡ finite.insert self.old ticket owner) }
        ensures err { OnErr result (self.new ≡ self.old) }
    {
        self.owners.insert(ticket, owner)?;
        Ok(())
    }

    #[tactic(auto, using(crate::proofs::Entries::get_is, crate::proofs::Entries::remove_is, crate::proofs::Entries::gone_none))]
    pub(crate) fn take(&mut self, ticket: u64) -> Option<Option<u64>>
        ensures found { result ≡ finite.get self.old ticket }
        ensures after { self.new ≡ finite.remove self.old ticket }
    {
        self.owners.remove(&ticket)
    }
}

/// The users for whom cores have reads under way, by the places of these cores.
#[derive(Drop)]
pub struct Readers {
    readers: BTreeMap<usize, u64>,
}

impl Model for Readers {
    ghost use Rattle.gate_core.specs.Tables.{ReaderMap, reader_code, map_of};

    ghost Value = { ReaderMap };

    ghost coded = { reader_code };

    ghost view = { λ t. map_of t.readers.entries };
}

impl Readers {
    pub(crate) fn new(alloc: Global) -> Readers
        ensures { result ≡ finite.empty }
    {
        Readers {
            readers: BTreeMap::new(alloc),
        }
    }

    #[tactic(auto, using(crate::proofs::Entries::get_is))]
    pub(crate) fn get(&self, core: usize) -> Option<u64>
        ensures { result ≡ finite.get self.now core }
    {
        self.readers.get(&core).copied()
    }

    #[tactic(auto, using(crate::proofs::Entries::insert_is))]
    pub(crate) fn put(&mut self, core: usize, user: u64) -> Result<(), NoMemory>
        ensures ok { OnOk result (self.new ≡ finite.insert self.old core user) }
        ensures err { OnErr result (self.new ≡ self.old) }
    {
        self.readers.insert(core, user)?;
        Ok(())
    }

    #[tactic(auto, using(crate::proofs::Entries::get_is, crate::proofs::Entries::remove_is, crate::proofs::Entries::gone_none))]
    pub(crate) fn take(&mut self, core: usize) -> Option<u64>
        ensures found { result ≡ finite.get self.old core }
        ensures after { self.new ≡ finite.remove self.old core }
    {
        self.readers.remove(&core)
    }
}
