ghost use Rattle.std.specs.Prelude.{◌≡◌, ◌==◌, ◌&&◌, ◌++◌, ◌∷◌, ◌+◌, [], find, length, nat_lt, OnOk, OnErr, IfSome};
ghost use Rattle.std.specs.List.{AllByRecursion, list_all, list_any, position};
ghost use Rattle.std.specs.Option.{option_copied};
ghost use Rattle.nop_types.specs.declared.limits.TheConstants.{WINDOW};
ghost use Rattle.nop_types.specs.Ranges.{ReplyFits, RequestFits};
ghost use Rattle.client_quorum.specs.Opens.{are_near, closed, has_id, is_empty, replies_for, requests_of, with_reply, OpenFits};
ghost use Rattle.client_quorum.specs.KeptReplies.{quorum_of};

use crate::Replies;
use nop_types::{Config, NoMemory, Reply, Request, View, WINDOW};
use std::alloc::Global;
use std::marker::Model;

/// An open request, and the replies that are kept for it.
#[derive(Drop)]
pub struct Open {
    pub request: Request,
    pub replies: Replies,
}

/// The requests that a client waits for, in the order of their ids. Each field of them is in its range.
#[derive(Drop)]
pub struct OpenList {
    alloc: Global,
    requests: Vec<Open>,
}

impl Model for OpenList {
    ghost use Rattle.std.specs.Prelude.{List};
    ghost use Rattle.std.specs.List.{AllByRecursion};
    ghost use Rattle.client_quorum.specs.Opens.{OpenFits};
    ghost use Rattle.client_quorum.specs.declared.open_requests.Open.{Open};

    ghost Value = { List Open };

    ghost view = { λ o. o.requests.items };

    ghost invariant = { λ o. AllByRecursion OpenFits o.requests.items };
}

/// Where the request with an id stands.
fn place_of(requests: &[Open], id: u64) -> Option<usize>
    ensures { result ≡ position (λ o. o.request.id == id) requests.now }
{
    requests.iter().position(|o| o.request.id == id)
}

fn first_open(requests: &[Open], id: u64) -> Option<&Open>
    ensures { option_copied result ≡ find (λ o. o.request.id == id) requests.now }
{
    requests.iter().find(|o| o.request.id == id)
}

fn has_open(requests: &[Open], id: u64) -> bool
    ensures { result ≡ list_any (λ o. o.request.id == id) requests.now }
{
    requests.iter().any(|o| o.request.id == id)
}

/// Keeps a reply for its id.
fn put_reply(requests: &mut Vec<Open>, reply: Reply) -> Result<(), NoMemory>
    requires fits { ReplyFits reply }
    requires all { AllByRecursion OpenFits requests.old.items }
    ensures ok { OnOk result (requests.new.items ≡ with_reply requests.old.items reply) }
    ensures err { OnErr result (requests.new.items ≡ requests.old.items) }
    ensures all { AllByRecursion OpenFits requests.new.items }
{
    match place_of(requests, reply.id) {
        Some(place) => requests[place].replies.put(reply),
        None => Ok(()),
    }
}

/// Whether the id after the last one is less than a window above this one.
fn is_near(last_id: u64, id: u64) -> bool
    ensures { result ≡ nat_lt (last_id + 1) (id + WINDOW) }
{
    last_id.saturating_sub(id) < WINDOW - 1
}

fn are_near(requests: &[Open], last_id: u64) -> bool
    ensures { result ≡ list_all (λ o. nat_lt (last_id + 1) (o.request.id + WINDOW)) requests.now }
{
    requests.iter().all(|o| is_near(last_id, o.request.id))
}

/// Closes the request with an id.
fn close_in(requests: &mut Vec<Open>, id: u64)
    requires { AllByRecursion OpenFits requests.old.items }
    ensures items { requests.new.items ≡ closed requests.old.items id }
    ensures all { AllByRecursion OpenFits requests.new.items }
{
    requests.retain(|o| o.request.id != id);
}

impl OpenList {
    pub fn new(alloc: Global) -> OpenList
        ensures { result ≡ [] }
    {
        OpenList {
            alloc,
            requests: Vec::new(alloc),
        }
    }

    pub fn as_slice(&self) -> &[Open]
        ensures requests { result.now ≡ self.now }
        ensures fit { AllByRecursion OpenFits self.now }
    {
        &self.requests
    }

    pub fn is_empty(&self) -> bool
        ensures { result ≡ is_empty self.now }
    {
        self.requests.is_empty()
    }

    /// Whether a request with this id is open.
    pub fn has_id(&self, id: u64) -> bool
        ensures { result ≡ has_id self.now id }
    {
        has_open(&self.requests, id)
    }

    /// Whether there is room for the request of the next id: fewer are open than a window has, and that id is near each of theirs.
    pub fn has_room(&self, last_id: u64) -> bool
        ensures { result ≡ (nat_lt (length self.now) WINDOW && are_near self.now last_id) }
    {
        (self.requests.len() as u64) < WINDOW && are_near(&self.requests, last_id)
    }

    /// Opens a request.
    pub fn push(&mut self, request: Request) -> Result<(), NoMemory>
        requires { RequestFits request }
        ensures ok { OnOk result (self.new ≡ self.old
            ++ record { request = request; replies = [] } ∷ []) }
        ensures err { OnErr result (self.new ≡ self.old) }
    {
        let replies = Replies::new(self.alloc);
        self.requests.push(Open { request, replies })?;
        Ok(())
    }

    /// Keeps a reply for its id.
    pub fn put(&mut self, reply: Reply) -> Result<(), NoMemory>
        requires { ReplyFits reply }
        ensures ok { OnOk result (self.new ≡ with_reply self.old reply) }
        ensures err { OnErr result (self.new ≡ self.old) }
    {
        put_reply(&mut self.requests, reply)
    }

    /// The reply of the view's leader for this id and slot, where f + 1 replies that are kept for the id are of this view and slot.
    pub fn quorum(&self, config: Config, id: u64, view: View, slot: u32) -> Option<&Reply>
        ensures reply { option_copied result
            ≡ quorum_of config.replicas (replies_for self.now id) view slot }
        ensures fits { IfSome (quorum_of config.replicas (replies_for self.now id) view slot)
            ReplyFits }
    {
        match first_open(&self.requests, id) {
            Some(open) => open.replies.quorum(config, view, slot),
            None => None,
        }
    }

    /// Closes the request with an id.
    pub fn close(&mut self, id: u64)
        ensures { self.new ≡ closed self.old id }
    {
        close_in(&mut self.requests, id);
    }
}
