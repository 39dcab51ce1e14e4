ghost use Rattle.std.specs.Prelude.{◌≡◌, false, None, IfNone, OnOk, OnErr, option_map};
ghost use Rattle.std.specs.FinMap as finite;
ghost use Rattle.oum_receiver.specs.Requests.{is_from};
ghost use Rattle.oum_receiver.specs.Table.{map_of, starts_below, apart_at, apart_without, apart_from};

use nop_types::{NoMemory, Request};
use std::alloc::Global;
use std::collections::BTreeMap;
use std::marker::Model;

/// Requests by message number. One of them stands apart from the table, so that a request that is taken before the next one
/// comes costs no search.
#[derive(Drop)]
pub(crate) struct Queue {
    apart: Option<(u64, Request)>,
    table: BTreeMap<u64, Request>,
}

impl Model for Queue {
    ghost use Rattle.oum_receiver.specs.Requests.{Requests, requests_code};
    ghost use Rattle.oum_receiver.specs.Table.{map_of, with_apart, IsApart};

    ghost Value = { Requests };

    ghost coded = { requests_code };

    ghost view = { λ q. with_apart q.apart (map_of q.table.entries) };

    ghost invariant = { λ q. IsApart q.apart (map_of q.table.entries) };
}

/// The request that stands apart, where it has this number.
fn request_apart(apart: &Option<(u64, Request)>, number: u64) -> Option<&Request>
    ensures { option_map (λ r. r.now) result ≡ apart_at apart.now number }
{
    match apart {
        Some((at, request)) if *at == number => Some(request),
        _ => None,
    }
}

/// Takes the request that stands apart, where it has this number.
fn take_apart(apart: &mut Option<(u64, Request)>, number: u64) -> Option<Request>
    ensures found { result ≡ apart_at apart.old number }
    ensures after { apart.new ≡ apart_without apart.old number }
{
    match apart {
        Some((at, _)) if *at == number => apart.take().map(|(_, request)| request),
        _ => None,
    }
}

/// Drops the request that stands apart, where it is below a number.
fn drop_apart_below(apart: &mut Option<(u64, Request)>, next: u64)
    ensures { apart.new ≡ apart_from next apart.old }
{
    if let Some((at, _)) = apart
        && *at < next
    {
        *apart = None;
    }
}

/// Whether the first request of a table stands below a number; where it doesn't, none does.
fn starts_below(requests: &BTreeMap<u64, Request>, next: u64) -> bool
    ensures value { result ≡ starts_below next requests.now.entries }
    ensures none_below { result ≡ false →
        finite.retain_keys (map_of requests.now.entries) (is_from next)
        ≡ map_of requests.now.entries }
{
    match requests.first_key_value() {
        Some((number, _)) => *number < next,
        None => false,
    }
}

/// Drops the requests of a table below a number, in time that grows with these alone.
fn drop_below(requests: &mut BTreeMap<u64, Request>, next: u64)
    ensures { map_of requests.new.entries ≡
        finite.retain_keys (map_of requests.old.entries) (is_from next) }
{
    while starts_below(requests, next) {
        requests.pop_first();
    }
}

impl Queue {
    pub(crate) fn new(alloc: Global) -> Queue
        ensures { result ≡ finite.empty }
    {
        Queue {
            apart: None,
            table: BTreeMap::new(alloc),
        }
    }

    #[tactic(auto, using(crate::proofs::Entries::len_is, crate::proofs::Apart::len_apart))]
    pub(crate) fn len(&self) -> usize
        ensures { result ≡ finite.len self.now }
    {
        match self.apart {
            None => self.table.len(),
            Some(_) => self.table.len() + 1,
        }
    }

    #[tactic(auto, using(crate::proofs::Entries::get_is))]
    pub(crate) fn get(&self, number: u64) -> Option<&Request>
        ensures { option_map (λ r. r.now) result ≡ finite.get self.now number }
    {
        match request_apart(&self.apart, number) {
            Some(request) => Some(request),
            None => self.table.get(&number),
        }
    }

    #[tactic(auto, using(crate::proofs::Entries::insert_is))]
    pub(crate) fn insert(&mut self, number: u64, request: Request) -> Result<(), NoMemory>
        requires { finite.get self.old number ≡ None }
        ensures ok { OnOk result (self.new ≡ finite.insert self.old number request) }
        ensures err { OnErr result (self.new ≡ self.old) }
    {
        if self.apart.is_none() {
            self.apart = Some((number, request));
            return Ok(());
        }
        self.table.insert(number, request)?;
        Ok(())
    }

    #[tactic(auto, using(crate::proofs::Entries::remove_is, crate::proofs::Entries::get_is))]
    pub(crate) fn remove(&mut self, number: u64) -> Option<Request>
        ensures found { result ≡ finite.get self.old number }
        ensures after { self.new ≡ finite.remove self.old number }
        ensures absent { IfNone result (self.new ≡ self.old) }
    {
        match take_apart(&mut self.apart, number) {
            Some(request) => Some(request),
            None => self.table.remove(&number),
        }
    }

    /// Drops the requests below a number.
    pub(crate) fn drop_below(&mut self, next: u64)
        ensures { self.new ≡ finite.retain_keys self.old (is_from next) }
    {
        drop_apart_below(&mut self.apart, next);
        drop_below(&mut self.table, next);
    }

    pub(crate) fn clear(&mut self)
        ensures { self.new ≡ finite.empty }
    {
        self.apart = None;
        self.table.clear();
    }
}
