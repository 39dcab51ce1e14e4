//! The places of the locks that are held, and the last token; both have their limits.
ghost use Rattle.std.specs.Prelude.{◌≡◌, ◌+◌, ◌-◌, ◌∷◌, [], ◌++◌, length, take, slice_set};
ghost use Rattle.std.specs.Prelude.{position, nat_lt, Some, None, IfOk, OnOk, OnErr};
ghost use Rattle.std.specs.Prelude.{if◌then◌else◌};
ghost use Rattle.lock_host.specs.Locks.{is_free, is_named, found};

use crate::lock::Lock;
use crate::name::Name;
use nop_types::NoMemory;
use std::alloc::{AllocError, Global};
use std::marker::Model;

/// The most locks that are held at a time.
pub const MAX_LOCKS: usize = 4096;

/// The last token. After it no lock is granted any more.
pub const LAST_TOKEN: u64 = 18_446_744_073_709_551_615;

// A number that both code and definitions name would be proved whatever it was; so here each stands
// once more.
const _: () = prove!(MAX_LOCKS == 4096 && LAST_TOKEN == 18_446_744_073_709_551_615);

/// The last token, and the places of the locks that are held.
pub struct LockTable {
    last: u64,
    places: Vec<Option<Lock>>,
}

// By hand, so that a crate with a service proves nothing on how its parts are dropped.
impl Drop for LockTable {
    fn drop(self) {
        let LockTable {
            last: _last,
            places: _places,
        } = self;
    }
}

impl Model for LockTable {
    ghost use Rattle.lock_host.specs.Locks.{Locks};

    ghost Value = { Locks };

    ghost view = { λ t. record { last = t.last; places = t.places.items } };
}

fn is_named(place: &Option<Lock>, name: &Name) -> bool
    ensures { result ≡ is_named name.now place.now }
{
    match place {
        Some(lock) => lock.name.is_same(name),
        None => false,
    }
}

fn place_of(places: &[Option<Lock>], name: &Name) -> Option<usize>
    ensures { result ≡ position (is_named name.now) places.now }
{
    places.iter().position(|place| is_named(place, name))
}

fn is_free(place: &Option<Lock>) -> bool
    ensures { result ≡ is_free place.now }
{
    place.is_none()
}

fn free_place(places: &[Option<Lock>]) -> Option<usize>
    ensures { result ≡ position is_free places.now }
{
    places.iter().position(is_free)
}

fn find(places: &[Option<Lock>], name: &Name) -> Option<(usize, Lock)>
    ensures { result ≡ found places.now name.now }
{
    let i = place_of(places, name)?;
    match &places[i] {
        Some(lock) => Some((i, lock.copied())),
        None => None,
    }
}

impl LockTable {
    /// No lock, and no token so far.
    pub fn new(alloc: Global) -> LockTable
        ensures { result ≡ record { last = 0; places = [] } }
    {
        LockTable {
            last: 0,
            places: Vec::new(alloc),
        }
    }

    /// A table with these places.
    pub fn from_parts(last: u64, places: Vec<Option<Lock>>) -> LockTable
        ensures { result ≡ record { last = last; places = places.items } }
    {
        LockTable { last, places }
    }

    pub fn alloc(&self) -> Global {
        *self.places.allocator()
    }

    /// The last token that was granted.
    pub fn last(&self) -> u64
        ensures { result ≡ self.now.last }
    {
        self.last
    }

    pub fn places(&self) -> &[Option<Lock>]
        ensures { result.now ≡ self.now.places }
    {
        &self.places
    }

    /// The lock with this name, where it is held, and its place.
    pub fn find(&self, name: &Name) -> Option<(usize, Lock)>
        ensures { result ≡ found self.now.places name.now }
    {
        find(&self.places, name)
    }

    /// The first free place.
    pub fn free_place(&self) -> Option<usize>
        ensures { result ≡ position is_free self.now.places }
    {
        free_place(&self.places)
    }

    /// One more place is allowed.
    pub fn has_room(&self) -> bool
        ensures { result ≡ nat_lt (length self.now.places) MAX_LOCKS }
    {
        self.places.len() < MAX_LOCKS
    }

    /// Writes into a place, if there is one with this number, and sets the last token.
    pub fn write(&mut self, i: usize, place: Option<Lock>, last: u64)
        ensures { self.new ≡ record { last = last; places = slice_set self.old.places i place } }
    {
        if i < self.places.len() {
            self.places[i] = place;
        }
        self.last = last;
    }

    /// Adds a place with a lock, and sets the last token.
    pub fn add(&mut self, place: Option<Lock>, last: u64) -> Result<(), NoMemory>
        ensures ok { OnOk result (self.new
            ≡ record { last = last; places = self.old.places ++ place ∷ [] }) }
        ensures err { OnErr result (self.new ≡ self.old) }
    {
        self.places.push(place)?;
        self.last = last;
        Ok(())
    }

    /// Takes the last place away, and goes one token back.
    pub fn remove_last(&mut self)
        ensures { self.new ≡ record {
          last = self.old.last - 1;
          places = take (length self.old.places - 1) self.old.places;
        } }
    {
        self.places.truncate(self.places.len().saturating_sub(1));
        self.last = self.last.saturating_sub(1);
    }

    pub fn copy(&self) -> Result<LockTable, AllocError>
        ensures { IfOk result (λ table. table ≡ self.now) }
    {
        Ok(LockTable {
            last: self.last,
            places: self.places.clone()?,
        })
    }
}
