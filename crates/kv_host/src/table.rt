ghost use Rattle.std.specs.Prelude.{◌≡◌, ◌<◌, ◌^◌, [], length, map, nat_le, Some};
ghost use Rattle.std.specs.Prelude.{IfOk, OnOk, OnErr};
ghost use Rattle.std.specs.Option.{option_copied, option_flatten};
ghost use Rattle.std.specs.FinMap as finite;
ghost use Rattle.std.specs.Map.Iter.{deref_pair};
ghost use Rattle.indexmap.specs.IndexMap.{index_map_len};
ghost use Rattle.kv_host.specs.Places.{plain, places, values_of, count_of, recounted, key_of};
ghost use Rattle.kv_host.specs.Places.{IsPlaceOf, IsListOf};

use crate::value::KvValue;
use indexmap::IndexMap;
use nop_types::NoMemory;
use std::alloc::{AllocError, Global};
use std::marker::Model;
use std::mem;

/// The most keys that have a value.
pub const MAX_KEYS: usize = 4096;

// A number that both code and definitions name would be proved whatever it was; so here it stands
// once more.
const _: () = prove!(MAX_KEYS == 4096);

/// A place for each key that was ever written, with its value or without one.
type PlaceMap = IndexMap<Vec<u8>, Option<KvValue>>;

/// A key and its value.
pub type Row<'a> = (&'a [u8], &'a [u8]);

/// The places, and how many of them have a value. In a clause it is the list of the places in the
/// order in which they were made.
pub struct Table {
    places: PlaceMap,
    count: usize,
}

// By hand, so that a crate with a service proves nothing on how its parts are dropped.
impl Drop for Table {
    fn drop(self) {
        let Table {
            places: _places,
            count: _count,
        } = self;
    }
}

impl Model for Table {
    ghost use Rattle.std.specs.Prelude.{List, ◌≡◌};
    ghost use Rattle.kv_host.specs.Places.{Place, plain, count_of};

    ghost Value = { List Place };

    ghost view = { λ t. plain t.places.entries };

    ghost invariant = { λ t. t.count ≡ count_of (plain t.places.entries) };
}

/// The count once a key that had a value, or had none, has one, or has none.
fn recount(count: usize, had: bool, has: bool) -> usize
    requires { recounted count had has < 2 ^ 64 }
    ensures { result ≡ recounted count had has }
{
    match (had, has) {
        (false, true) => count + 1,
        (true, false) => count.saturating_sub(1),
        _ => count,
    }
}

/// Writes into a place, and gives the value that was there.
fn replace(map: &mut PlaceMap, index: usize, value: Option<KvValue>) -> Option<KvValue>
    requires { index < index_map_len map.old }
    ensures former { finite.get (places (plain map.old.entries))
        (key_of (plain map.old.entries) index) ≡ Some result }
    ensures after { places (plain map.new.entries) ≡ finite.insert (places (plain map.old.entries))
        (key_of (plain map.old.entries) index) value }
{
    let (_key, place) = map.pair_mut(index);
    mem::replace(place, value)
}

/// Gives a key this value, and gives the value that its place had.
fn insert(map: &mut PlaceMap, key: Vec<u8>, value: KvValue) -> Result<Option<KvValue>, NoMemory>
    ensures former { IfOk result (λ v. v ≡ option_flatten (finite.get
        (places (plain map.old.entries)) key.items)) }
    ensures ok { OnOk result (places (plain map.new.entries) ≡ finite.insert
        (places (plain map.old.entries)) key.items (Some value)) }
    ensures err { OnErr result (plain map.new.entries ≡ plain map.old.entries) }
{
    match map.insert(key, Some(value)) {
        Ok(former) => Ok(former.flatten()),
        Err(_) => Err(NoMemory),
    }
}

impl Table {
    /// A table without places.
    pub fn new(alloc: Global) -> Table
        ensures { result ≡ [] }
    {
        Table {
            places: IndexMap::new(alloc),
            count: 0,
        }
    }

    /// A table without places, with room for so many.
    pub fn with_capacity(alloc: Global, n: usize) -> Result<Table, NoMemory>
        ensures { IfOk result (λ table. table ≡ []) }
    {
        Ok(Table {
            places: IndexMap::with_capacity(alloc, n)?,
            count: 0,
        })
    }

    pub fn alloc(&self) -> Global {
        *self.places.allocator()
    }

    /// As many keys as may have a value have one.
    pub fn is_full(&self) -> bool
        ensures { result ≡ nat_le MAX_KEYS (count_of self.now) }
    {
        self.count >= MAX_KEYS
    }

    /// The number of a key's place, and the key's value.
    pub fn look_up(&self, key: &[u8]) -> (Option<usize>, Option<&KvValue>)
        ensures place { IsPlaceOf self.now key.now result.0 }
        ensures value { option_copied result.1 ≡ finite.get (values_of (places self.now)) key.now }
    {
        match self.places.get_full(key) {
            Some((index, _key, value)) => (Some(index), value.as_ref()),
            None => (None, None),
        }
    }

    /// Writes into a place, and gives the value that was there.
    pub fn replace(&mut self, index: usize, value: Option<KvValue>) -> Option<KvValue>
        requires { index < length self.old }
        ensures former { finite.get (places self.old) (key_of self.old index) ≡ Some result }
        ensures after { places self.new ≡ finite.insert (places self.old)
            (key_of self.old index) value }
    {
        let has = value.is_some();
        let former = replace(&mut self.places, index, value);
        // No more keys than places have a value, so their count fits as that of the places does.
        let _places = self.places.len();
        self.count = recount(self.count, former.is_some(), has);
        former
    }

    /// Gives a key this value. A place is made for a key that has none.
    fn insert(&mut self, key: Vec<u8>, value: KvValue) -> Result<(), NoMemory>
        ensures ok { OnOk result (places self.new ≡ finite.insert (places self.old) key.items
            (Some value)) }
        ensures err { OnErr result (self.new ≡ self.old) }
    {
        let former = insert(&mut self.places, key, value)?;
        // As in `replace`, the count fits.
        let _places = self.places.len();
        self.count = recount(self.count, former.is_some(), true);
        Ok(())
    }

    /// Gives a copy of the key this value.
    pub fn add(&mut self, key: &[u8], value: KvValue) -> Result<(), NoMemory>
        ensures ok { OnOk result (places self.new ≡ finite.insert (places self.old) key.now
            (Some value)) }
        ensures err { OnErr result (self.new ≡ self.old) }
    {
        let key = Vec::from_slice(self.alloc(), key)?;
        self.insert(key, value)
    }

    /// Writes a value into a key's place, which is made where there is none, and gives the former
    /// value.
    #[inline(always)]
    #[tactic(auto, using(crate::proofs::PlacesLemmas::place_writes))]
    pub fn write(
        &mut self,
        place: Option<usize>,
        key: &[u8],
        value: KvValue,
    ) -> Result<Option<KvValue>, NoMemory>
        requires { IsPlaceOf self.old key.now place }
        ensures former { IfOk result (λ v. v ≡ finite.get (values_of (places self.old)) key.now) }
        ensures ok { OnOk result (places self.new ≡ finite.insert (places self.old) key.now
            (Some value)) }
        ensures err { OnErr result (places self.new ≡ places self.old) }
    {
        match place {
            Some(index) => Ok(self.replace(index, Some(value))),
            None => {
                self.add(key, value)?;
                Ok(None)
            }
        }
    }

    /// The same places, with the same values.
    pub fn copy(&self) -> Result<Table, AllocError>
        ensures { IfOk result (λ table. table ≡ self.now) }
    {
        Ok(Table {
            places: self.places.clone()?,
            count: self.count,
        })
    }

    /// The keys that have a value, with their values, in the order in which the keys got their
    /// places.
    pub fn rows(&self) -> Result<Vec<Row<'_>>, NoMemory>
        ensures { IfOk result (λ rows. IsListOf (values_of (places self.now))
            (map deref_pair rows.items)) }
    {
        let mut rows = Vec::with_capacity(self.alloc(), self.count)?;
        for (key, value) in self.places.iter() {
            if let Some(value) = value {
                rows.push((key.as_slice(), value.as_slice()))?;
            }
        }
        Ok(rows)
    }
}
