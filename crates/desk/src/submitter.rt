//! A client core, and the tickets of its open requests.

ghost use Rattle.std.specs.Prelude.{◌≡◌, ◌==◌, ◌++◌, ◌∷◌, [], find, length, OnOk, OnErr, IfOk};
ghost use Rattle.std.specs.Option.{option_copied};
ghost use Rattle.nop_types.specs.Given.{given};
ghost use Rattle.client_quorum.specs.ClientSteps.{can_submit};
ghost use Rattle.desk.specs.Desks.{is_free_with};
ghost use Rattle.desk.specs.Submitters.{core_left, held_after, held_by, labelled, labels, opening, submits};
ghost use Rattle.desk.specs.Submitters.{submit_tells, takes, tells, ticket_for, ticket_of};
ghost use Rattle.desk.specs.Submitters.{without_id, without_ticket};

use client_quorum::Client;
use nop_types::{Config, Core, Input, NoMemory, Op, Out, Outbox};
use std::alloc::Global;
use std::marker::Model;

/// The request of a core with this id is for this ticket.
#[derive(Clone, Copy, PartialEq, Eq)]
pub struct OpenTicket {
    pub id: u64,
    pub ticket: u64,
}

/// An op that waits for a core, and its ticket.
#[derive(Drop)]
pub struct Queued {
    pub ticket: u64,
    pub op: Op,
}

/// What a core gave, and the ticket that it is for.
#[derive(Drop)]
pub struct Labelled {
    /// The place of the core, counted from 0.
    pub core: usize,
    /// Of an acceptance and of a submission, where a user waits for it.
    pub ticket: Option<u64>,
    pub out: Out,
}

/// The tickets of a core's open requests, whose users did not leave.
#[derive(Drop)]
pub struct OpenTickets {
    tickets: Vec<OpenTicket>,
}

impl Model for OpenTickets {
    ghost use Rattle.std.specs.Prelude.{List};
    ghost use Rattle.desk.specs.declared.submitter.OpenTicket.{OpenTicket};

    ghost Value = { List OpenTicket };

    ghost view = { λ t. t.tickets.items };
}

fn first_of(tickets: &[OpenTicket], id: u64) -> Option<&OpenTicket>
    ensures { option_copied result ≡ find (λ h. h.id == id) tickets.now }
{
    tickets.iter().find(|h| h.id == id)
}

fn close_in(tickets: &mut Vec<OpenTicket>, id: u64)
    ensures { tickets.new.items ≡ without_id tickets.old.items id }
{
    tickets.retain(|h| h.id != id);
}

fn leave_in(tickets: &mut Vec<OpenTicket>, ticket: u64)
    ensures { tickets.new.items ≡ without_ticket tickets.old.items ticket }
{
    tickets.retain(|h| h.ticket != ticket);
}

impl OpenTickets {
    fn new(alloc: Global) -> OpenTickets
        ensures { result ≡ [] }
    {
        OpenTickets {
            tickets: Vec::new(alloc),
        }
    }

    /// How many there are.
    pub(crate) fn len(&self) -> usize
        ensures { result ≡ length self.now }
    {
        self.tickets.len()
    }

    /// The ticket of the request with an id.
    fn ticket_of(&self, id: u64) -> Option<u64>
        ensures { result ≡ ticket_of self.now id }
    {
        match first_of(&self.tickets, id) {
            Some(first) => Some(first.ticket),
            None => None,
        }
    }

    fn push(&mut self, open_: OpenTicket) -> Result<(), NoMemory>
        ensures ok { OnOk result (self.new ≡ self.old ++ open_ ∷ []) }
        ensures err { OnErr result (self.new ≡ self.old) }
    {
        self.tickets.push(open_)?;
        Ok(())
    }

    /// The request with an id is no longer open.
    fn close(&mut self, id: u64)
        ensures { self.new ≡ without_id self.old id }
    {
        close_in(&mut self.tickets, id);
    }

    /// The user of a ticket left.
    fn leave(&mut self, ticket: u64)
        ensures { self.new ≡ without_ticket self.old ticket }
    {
        leave_in(&mut self.tickets, ticket);
    }

    /// The ticket that an output of a step is for. An acceptance closes its request.
    fn take_for(&mut self, out: &Out) -> Option<u64>
        ensures ticket { result ≡ ticket_for self.old out.now }
        ensures rest { self.new ≡ held_after self.old out.now }
    {
        match out {
            Out::Accepted { id, .. } => {
                let ticket = self.ticket_of(*id);
                self.close(*id);
                ticket
            }
            _ => None,
        }
    }
}

/// Tells outputs of a core, each with the ticket that it is for.
fn tell(
    core: usize,
    held: &mut OpenTickets,
    outs: Vec<Out>,
    told: &mut Vec<Labelled>,
) -> Result<(), NoMemory>
    ensures held { OnOk result (held.new ≡ held_by held.old outs.items) }
    ensures told { OnOk result (told.new.items
        ≡ told.old.items ++ labels core held.old outs.items) }
{
    for out in outs {
        let ticket = held.take_for(&out);
        told.push(Labelled { core, ticket, out })?;
    }
    Ok(())
}

/// Tells outputs of a core, all of one ticket.
fn tell_for(
    core: usize,
    ticket: u64,
    outs: Vec<Out>,
    told: &mut Vec<Labelled>,
) -> Result<(), NoMemory>
    ensures { OnOk result (told.new.items ≡ told.old.items ++ labelled core ticket outs.items) }
{
    for out in outs {
        told.push(Labelled {
            core,
            ticket: Some(ticket),
            out,
        })?;
    }
    Ok(())
}

/// A client core, and the tickets of its open requests.
#[derive(Drop)]
pub struct Submitter {
    pub client: Client,
    pub held: OpenTickets,
}

impl Submitter {
    /// A core with this number, which was never used before.
    pub(crate) fn new(alloc: Global, config: Config, number: u32) -> Result<Submitter, NoMemory>
        ensures { IfOk result (λ s. s ≡ opening config number) }
    {
        Ok(Submitter {
            client: Client::new(alloc, config, number, Vec::new(alloc))?,
            held: OpenTickets::new(alloc),
        })
    }

    pub(crate) fn can_submit(&self) -> bool
        ensures { result ≡ can_submit self.now.client.state.requests }
    {
        self.client.can_submit()
    }

    /// It takes an op, and holds so many tickets.
    pub(crate) fn is_free_with(&self, held: usize) -> bool
        ensures { result ≡ is_free_with held self.now }
    {
        self.can_submit() && self.held.len() == held
    }

    /// The user of a ticket left.
    pub(crate) fn leave(&mut self, ticket: u64)
        ensures { self.new ≡ core_left ticket self.old }
    {
        self.held.leave(ticket);
    }

    /// The core takes an input.
    #[tactic(auto, using(crate::proofs::Machines::same_machine))]
    pub(crate) fn takes(
        &mut self,
        alloc: Global,
        core: usize,
        input: Input<'_>,
        told: &mut Vec<Labelled>,
    ) -> Result<(), NoMemory>
        ensures state { OnOk result (self.new ≡ takes self.old (given input.entry)) }
        ensures told { OnOk result (told.new.items
            ≡ told.old.items ++ tells core self.old (given input.entry)) }
    {
        let mut outs = Outbox::new(alloc);
        self.client.step(input, &mut outs)?;
        tell(core, &mut self.held, outs.into_vec(), told)?;
        Ok(())
    }

    /// The core submits an op for a ticket.
    #[tactic(auto, using(crate::proofs::Machines::same_machine))]
    pub(crate) fn submits(
        &mut self,
        alloc: Global,
        core: usize,
        queued: &Queued,
        told: &mut Vec<Labelled>,
    ) -> Result<(), NoMemory>
        ensures state { OnOk result (self.new ≡ submits self.old queued.now) }
        ensures told { OnOk result (told.new.items
            ≡ told.old.items ++ submit_tells core self.old queued.now) }
    {
        let mut outs = Outbox::new(alloc);
        self.client.step(Input::Submit(&queued.op), &mut outs)?;
        let id = self.client.state().last_id;
        let ticket = queued.ticket;
        self.held.push(OpenTicket { id, ticket })?;
        tell_for(core, ticket, outs.into_vec(), told)?;
        Ok(())
    }
}
