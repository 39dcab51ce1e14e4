ghost use Rattle.std.specs.Prelude.{◌≡◌, ◌+◌, ◌++◌, ◌∷◌, ◌<◌, ◌≤◌, [], length, drop, All, IfOk, IsOk, OnOk, OnErr, Some};
ghost use Rattle.outside.specs.Causes.{count_after};
ghost use Rattle.outside.specs.Observed.{Stays};
ghost use Rattle.outside.specs.Ports.{GivesNext};
ghost use Rattle.outside.specs.Memory.{IsFresh, answers_of, count_if, link_at};
ghost use Rattle.outside.specs.Plans.{new_plan, IsPlannedCall, plan_after_call};

use crate::{AttachError, CallPlan, Failing, LinkMem, Ports, Unfailing};
use nop_types::NoMemory;
use std::alloc::Global;
use std::collections::VecDeque;
use std::marker::Model;

/// Ports in memory. They give their links in order, and after them links without datagrams. Their plan says which attaches
/// fail. Where calls never fail, those on the links don't either.
#[derive(Drop)]
pub struct PortsMem<P: CallPlan = Unfailing> {
    alloc: Global,
    links: VecDeque<LinkMem<P>>,
    attached: usize,
    detached: Vec<LinkMem<P>>,
    attaches: P,
}

impl<P: CallPlan> Model for PortsMem<P> {
    ghost use Rattle.std.specs.Prelude.{◌≤◌, All, vec_len, vec_capacity};
    ghost use Rattle.outside.specs.Memory.{PortsMemory, IsFresh};

    ghost Value = { PortsMemory P };

    ghost view = { λ s. record {
      links = s.links.items;
      attached = s.attached;
      detached = s.detached.items;
      attaches = s.attaches;
    } };

    ghost invariant = { λ s. (vec_len s.detached ≤ s.attached)
        × (s.attached ≤ vec_capacity s.detached) × All (IsFresh P.fault_count) s.links.items };
}

impl PortsMem<Unfailing> {
    /// Links without datagrams, and no call fails.
    pub fn new(alloc: Global) -> PortsMem<Unfailing>
        ensures { result ≡ record {
          links = [];
          attached = 0;
          detached = [];
          attaches = usize.MAX;
        } }
    {
        PortsMem::with_links(alloc, Vec::new(alloc))
    }

    /// These links in order, which never fail, and no attach fails.
    pub fn with_links(alloc: Global, links: Vec<LinkMem<Unfailing>>) -> PortsMem<Unfailing>
        requires { All (IsFresh ⟦<Unfailing as CallPlan>⟧.fault_count) links.items }
        ensures { result ≡ record {
          links = links.items;
          attached = 0;
          detached = [];
          attaches = usize.MAX;
        } }
    {
        PortsMem {
            alloc,
            links: VecDeque::from(links),
            attached: 0,
            detached: Vec::new(alloc),
            attaches: Unfailing::new(usize::MAX),
        }
    }
}

impl PortsMem<Failing> {
    /// These links in order, and the attaches with these numbers fail. Attaches count from 1.
    pub fn with_faults(
        alloc: Global,
        links: Vec<LinkMem<Failing>>,
        failing: &[u64],
    ) -> Result<PortsMem<Failing>, NoMemory>
        requires { All (IsFresh ⟦<Failing as CallPlan>⟧.fault_count) links.items }
        ensures { IfOk result (λ p. p
            ≡ record {
              links = links.items;
              attached = 0;
              detached = [];
              attaches = new_plan
                  usize.MAX failing.now;
            }) }
    {
        Ok(PortsMem {
            alloc,
            links: VecDeque::from(links),
            attached: 0,
            detached: Vec::new(alloc),
            attaches: Failing::new(alloc, usize::MAX, failing)?,
        })
    }
}

impl<P: CallPlan> PortsMem<P> {
    /// The next link, with the room for it to be given back, where the plan lets an attach succeed.
    #[tactic(auto, using(crate::proofs::Counts::ok_counts_nothing))]
    fn give(&mut self, port: u16) -> Result<LinkMem<P>, NoMemory>
        requires { IsOk (P.next_answer self.old.attaches 0) }
        ensures link { IfOk result (λ link. link ≡ link_at P.opening port self.old.links) }
        ensures fresh { IfOk result (IsFresh P.fault_count) }
        ensures ok { OnOk result (self.new ≡ record {
          links = drop 1 self.old.links;
          attached = self.old.attached + 1;
          detached = self.old.detached;
          attaches = P.after_call self.old.attaches 0;
        }) }
        ensures room { OnOk result (length self.new.detached < self.new.attached) }
        ensures count { P.fault_count self.new.attaches ≡ P.fault_count self.old.attaches }
        ensures err { OnErr result (self.new ≡ self.old) }
    {
        let waiting = self.attached - self.detached.len();
        self.detached.reserve(waiting + 1)?;
        let link = next_link(self.alloc, &mut self.links, port)?;
        self.attaches.advance(0);
        self.attached += 1;
        Ok(link)
    }

    /// The links that were given back, in order.
    pub fn detached(&self) -> &[LinkMem<P>]
        ensures { result.now ≡ self.now.detached }
    {
        &self.detached
    }
}

impl<P: CallPlan> Ports for PortsMem<P> {
    type L = LinkMem<P>;

    ghost use Rattle.std.specs.Prelude.{Some};
    ghost use Rattle.outside.specs.Memory.{answers_of};

    ghost to_come = { λ s. Some (answers_of s.links) };

    ghost attached = { λ s. s.attached };

    ghost detached = { λ s. s.detached };

    ghost fault_count = { λ s. P.fault_count s.attaches };

    fn attach(&mut self, port: u16) -> Result<LinkMem<P>, AttachError>
        ensures port { IfOk result (λ link. link.port ≡ port) }
        ensures faults { IfOk result (λ link. count_if P.may_fail link.faults ≡ 0) }
        ensures losses { IfOk result (λ link. P.fault_count link.sends ≡ 0) }
        ensures content { IfOk result (λ link.
            GivesNext (Some (answers_of self.old.links)) (Some (answers_of self.new.links))
            (Some link.answers) (Some link.trace)) }
        ensures attached { OnOk result (self.new.attached ≡ self.old.attached + 1) }
        ensures room { OnOk result (length self.new.detached < self.new.attached) }
        ensures err { OnErr result (self.new.attached ≡ self.old.attached) }
        ensures kept { OnErr result (Stays (Some (answers_of self.old.links))
            (Some (answers_of self.new.links))) }
        ensures detached { self.new.detached ≡ self.old.detached }
        ensures later { P.fault_count self.old.attaches ≤ P.fault_count self.new.attaches }
        ensures count { P.fault_count self.new.attaches
            ≡ count_after result (P.fault_count self.old.attaches) }

        // What the plan says, or that memory ran out: then the attach does not count.
        ensures answer { IsPlannedCall (P.next_answer self.old.attaches 0) result }
        ensures plan { self.new.attaches ≡ plan_after_call result self.old.attaches
            (P.after_call self.old.attaches 0) }

        // The links come in order.
        ensures link { IfOk result (λ link. link ≡ link_at P.opening port self.old.links) }
        ensures taken { OnOk result (self.new.links ≡ drop 1 self.old.links) }
        ensures left { OnErr result (self.new.links ≡ self.old.links) }
    {
        if self.attaches.answer(0).is_err() {
            self.attaches.advance(0);
            return Err(AttachError::Failed);
        }
        Ok(self.give(port)?)
    }

    fn detach(&mut self, link: LinkMem<P>)
        requires { length self.old.detached < self.old.attached }
        ensures detached { self.new.detached ≡ self.old.detached ++ link ∷ [] }
        ensures attached { self.new.attached ≡ self.old.attached }
        ensures kept { Stays (Some (answers_of self.old.links)) (Some (answers_of self.new.links)) }
        ensures faults { P.fault_count self.new.attaches ≡ P.fault_count self.old.attaches }

        // Nothing else changes.
        ensures rest { self.new ≡ record self.old { detached = self.new.detached } }
    {
        self.detached.push(link).unwrap();
    }

    fn faults(&self) -> u64 {
        self.attaches.faults()
    }
}

/// The first of the links, at this port. Where there is none, a link without datagrams.
fn next_link<P: CallPlan>(
    alloc: Global,
    links: &mut VecDeque<LinkMem<P>>,
    port: u16,
) -> Result<LinkMem<P>, NoMemory>
    requires { All (IsFresh P.fault_count) links.old.items }
    ensures link { IfOk result (λ link. link ≡ link_at P.opening port links.old.items) }
    ensures fresh { IfOk result (IsFresh P.fault_count) }
    ensures ok { OnOk result (links.new.items ≡ drop 1 links.old.items) }
    ensures err { OnErr result (links.new.items ≡ links.old.items) }
    ensures rest { All (IsFresh P.fault_count) links.new.items }
{
    match links.pop_front() {
        Some(link) => Ok(link.at_port(port)),
        None => LinkMem::empty(alloc, port),
    }
}
